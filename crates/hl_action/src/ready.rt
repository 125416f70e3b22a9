ghost use Rattle.std.specs.Prelude.{◌≡◌, IfSome, IsSomeAnd, is_some, option_map};
ghost use Rattle.hl_action.specs.Firings.{IsSafe};
ghost use Rattle.hl_action.specs.Jobs.{ReadyRecord};

use crate::firing::Firing;
use crate::kept::Kept;
use crate::promise::Promise;
use crate::ran::{Outcome, Ran};
use crate::task::Task;
use hl_model::Tagged;
use std::marker::Model;

/// An action that was taken and isn't done: its firing, and its job, if it has one. A settle and a close have
/// none. It must be spent: by `run`, or by `forsake`.
pub struct Ready<F: Task, P: Promise> {
    origin: u64,
    firing: Firing,
    kept: Option<Kept<F, P>>,
}

impl<F: Task, P: Promise> Model for Ready<F, P> {
    ghost use Rattle.hl_action.specs.Jobs.{ReadyRecord};

    ghost Value = { ReadyRecord F };

    ghost view = { λ a. record { origin = a.origin; firing = a.firing; kept = a.kept } };
}

impl<F: Task, P: Promise> Ready<F, P> {
    /// The action that was taken with this firing from what `origin` names, a domain's stamp, say.
    pub fn of(origin: u64, firing: Firing, kept: Option<Kept<F, P>>) -> Ready<F, P>
        ensures { result ≡ record { origin = origin; firing = firing; kept = kept } }
    {
        Ready {
            origin,
            firing,
            kept,
        }
    }

    /// The action's ticket, an epoch.
    pub fn ticket(&self) -> u64
        ensures value { result ≡ self.now.firing.ticket }
        ensures valid { IsSafe self.now.firing }
    {
        self.firing.ticket()
    }

    /// Returns the tag of its job, or None if it has no job.
    pub fn tag(&self) -> Option<u64>
        ensures { result ≡ option_map (λ kept. kept.tag) self.now.kept }
    {
        self.kept.as_ref().map(|kept| kept.tag())
    }

    /// Calls the job, if there is one. What it returns keeps the promise for its tag under the firing.
    pub fn run(self) -> Ran
        ensures origin { result.origin ≡ self.origin }
        ensures ticket { result.ticket ≡ self.firing.ticket }
        ensures valid { IsSafe self.firing }
        ensures answered { is_some result.answer ≡ is_some self.kept }
        ensures gives { IfSome self.kept (λ kept. IsSomeAnd result.answer (F.gives kept.job self.firing)) }
        ensures keeps { IfSome self.kept (λ kept. IsSomeAnd result.answer (P.keeps kept.tag self.firing)) }
    {
        let Ready {
            origin,
            firing,
            kept,
        } = self;
        let answer = kept.map(|kept| kept.call(firing));
        let ticket = firing.ticket();
        Ran::of(Outcome {
            origin,
            ticket,
            answer,
        })
    }

    /// Gives the action up for good: nobody runs it, and it stays taken.
    pub fn forsake(self) {
        let Ready {
            origin: _,
            firing: _,
            kept: _,
        } = self;
    }
}
