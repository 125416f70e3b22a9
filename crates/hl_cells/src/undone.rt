ghost use Rattle.std.specs.Prelude.{◌≡◌, is_some, IfSome, IsSomeAnd};

use hl_action::{Promise, Ready, Task};
use std::marker::Model;

/// A taken action that isn't done, with its firing. If its engine ends first nobody runs it.
pub(crate) struct Undone<F: Task, P: Promise> {
    ready: Ready<F, P>,
}

impl<F: Task, P: Promise> Model for Undone<F, P> {
    ghost use Rattle.hl_action.specs.Jobs.{ReadyRecord};

    ghost Value = { ReadyRecord F };

    ghost view = { λ a. a.ready };
}

// A `Ready` must be spent: a row of these can be dropped.
impl<F: Task, P: Promise> Drop for Undone<F, P> {
    fn drop(self) {
        let Undone { ready } = self;
        ready.forsake();
    }
}

impl<F: Task, P: Promise> Undone<F, P> {
    pub(crate) fn of(ready: Ready<F, P>) -> Undone<F, P>
        ensures { result ≡ ready }
    {
        Undone { ready }
    }

    /// The action's ticket, an epoch.
    pub(crate) fn ticket(&self) -> u64
        ensures { result ≡ self.now.firing.ticket }
    {
        self.ready.ticket()
    }

    /// Runs its job under its firing; returns what the job returned, or None if it has no job.
    pub(crate) fn run(self) -> Option<u64>
        ensures answered { is_some result ≡ is_some self.kept }
        ensures gives { IfSome self.kept (λ kept. IsSomeAnd result (F.gives kept.job self.firing)) }
        ensures keeps { IfSome self.kept (λ kept. IsSomeAnd result (P.keeps kept.tag self.firing)) }
    {
        let Undone { ready } = self;
        ready.run().done().answer
    }
}
