ghost use Rattle.std.specs.Prelude.{◌≡◌};
ghost use Rattle.hl_action.specs.Firings.{FiringRecord, IsSafe};

use std::marker::Model;

/// When an action is run: its ticket, and the safe epoch when it was taken. The ticket is at most the safe
/// epoch, and that is below 2^62: both facts are in its type.
#[derive(Clone, Copy, Debug, PartialEq, Eq)]
pub struct Firing {
    ticket: u64,
    safe: u64,
}

impl Model for Firing {
    ghost use Rattle.hl_action.specs.Firings.{FiringRecord, IsSafe};

    ghost Value = { FiringRecord };

    ghost view = { λ a. record { ticket = a.ticket; safe = a.safe } };

    ghost invariant = { λ a. IsSafe (record { ticket = a.ticket; safe = a.safe }) };

    ghost inverse = { λ f. record { ticket = f.ticket; safe = f.safe } };
}

impl Firing {
    /// The firing of a ticket at a safe epoch, both in epochs.
    pub fn new(ticket: u64, safe: u64) -> Firing
        requires { IsSafe (record { ticket = ticket; safe = safe }) }
        ensures { result ≡ record { ticket = ticket; safe = safe } }
    {
        Firing { ticket, safe }
    }

    /// The action's ticket: the epoch that its bump ended.
    pub fn ticket(self) -> u64
        ensures value { result ≡ self.ticket }
        ensures valid { IsSafe self }
    {
        self.ticket
    }

    /// The safe epoch when the action was taken.
    pub fn safe(self) -> u64
        ensures value { result ≡ self.safe }
        ensures valid { IsSafe self }
    {
        self.safe
    }
}
