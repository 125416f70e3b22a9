ghost use Rattle.std.specs.Prelude.{◌≡◌};

use std::marker::Model;

/// What an action left that was run.
#[derive(Clone, Copy, Debug, PartialEq, Eq)]
pub struct Outcome {
    /// What names the action's origin, a domain's stamp, say.
    pub origin: u64,
    /// The action's ticket, an epoch.
    pub ticket: u64,
    /// What its job returned. None if it had no job: a settle or a close.
    pub answer: Option<u64>,
}

/// An action that was run and isn't done yet. Only `Ready::run` makes one. It must be spent: by `done`, or by
/// `forsake`.
pub struct Ran {
    outcome: Outcome,
}

impl Model for Ran {
    ghost use Rattle.hl_action.specs.declared.ran.Outcome.{Outcome};

    ghost Value = { Outcome };

    ghost view = { λ a. a.outcome };
}

impl Ran {
    pub(crate) fn of(outcome: Outcome) -> Ran
        ensures { result ≡ outcome }
    {
        Ran { outcome }
    }

    /// What names the action's origin.
    pub fn origin(&self) -> u64
        ensures { result ≡ self.now.origin }
    {
        self.outcome.origin
    }

    /// The action's ticket, an epoch.
    pub fn ticket(&self) -> u64
        ensures { result ≡ self.now.ticket }
    {
        self.outcome.ticket
    }

    /// Returns what its job returned, or None if it had no job.
    pub fn answer(&self) -> Option<u64>
        ensures { result ≡ self.now.answer }
    {
        self.outcome.answer
    }

    /// Hands out what it left: the action is done.
    pub fn done(self) -> Outcome
        ensures { result ≡ self }
    {
        let Ran { outcome } = self;
        outcome
    }

    /// Lets it go: the action was run, and if no done is made of it, stays taken for good.
    pub fn forsake(self) {
        let Ran { outcome: _ } = self;
    }
}
