ghost use Rattle.std.specs.Prelude.{◌≡◌};
ghost use Rattle.hl_action.specs.Firings.{IsSafe};
ghost use Rattle.hl_action.specs.Jobs.{KeptRecord, CanBeCalled, AnswersKeep};

use crate::firing::Firing;
use crate::promise::Promise;
use crate::task::Task;
use hl_model::Tagged;
use std::marker::{Model, PhantomData};

/// A job stored under a tag. It can be called on every firing, and whatever it returns keeps the promise P
/// for its tag: both facts are in its type.
pub struct Kept<F: Task, P: Promise> {
    tag: u64,
    job: F,
    of: PhantomData<P>,
}

impl<F: Task, P: Promise> Model for Kept<F, P> {
    ghost use Rattle.std.specs.Prelude.{ℕ};
    ghost use Rattle.hl_action.specs.Jobs.{KeptRecord, CanBeCalled, AnswersKeep};

    ghost Value = { KeptRecord F };

    ghost view = { λ a. record { tag = a.tag; job = a.job } };

    ghost invariant = { λ a. CanBeCalled (F.can a.job) × AnswersKeep (F.gives a.job) (P.keeps a.tag) };
}

impl<F: Task, P: Promise> Drop for Kept<F, P> {
    fn drop(self) {
        let Kept {
            tag: _,
            job: _,
            of: _,
        } = self;
    }
}

impl<F: Task, P: Promise> Tagged for Kept<F, P> {
    ghost tag = { λ kept. kept.tag };

    fn tag(&self) -> u64 {
        self.tag
    }
}

impl<F: Task, P: Promise> Kept<F, P> {
    /// Stores a job under a tag.
    pub fn new(tag: u64, job: F) -> Kept<F, P>
        requires callable { CanBeCalled (F.can job) }
        requires keeps { AnswersKeep (F.gives job) (P.keeps tag) }
        ensures { result ≡ record { tag = tag; job = job } }
    {
        Kept {
            tag,
            job,
            of: PhantomData,
        }
    }

    // Calls the job, which is gone then.
    pub(crate) fn call(self, firing: Firing) -> u64
        ensures gives { F.gives self.job firing result }
        ensures keeps { P.keeps self.tag firing result }
    {
        let Kept { tag: _, job, of: _ } = self;
        job.call(firing)
    }
}
