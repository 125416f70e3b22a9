ghost use Rattle.std.specs.Prelude.{◌≡◌, ℕ, Bool, false, Some, List};
ghost use Rattle.hl_model.specs.declared.step.Step.{Step as STEP};
ghost use Rattle.hl_model.specs.Sizes.{Sizes};
ghost use Rattle.hl_model.specs.declared.step.Step.TheVariants.{Bump as BUMP};
ghost use Rattle.hl_script.specs.Text.{tags_on};
ghost use Rattle.hl_script.specs.Fast.{IsFast};
ghost use Rattle.hl_script.specs.Stepping.{Stepped};

use crate::stepping::{Opening, Stepping};
use crate::sum::Sum;
use arrayvec::ArrayVec;
use hl_action::{Shelf, Task};
use hl_cells::Engine;
use hl_epoch::Epochs;
use hl_model::{Fault, FrameState, Params, Reply, Snapshot, Step, Waiting};
use std::alloc::Global;

/// The jobs of a script.
#[derive(Drop)]
pub(crate) struct Jobs<F: Task> {
    pub(crate) alloc: Global,
    pub(crate) shelf: Shelf<F, Sum>,
}

/// An engine, and the jobs that no accepted bump took. It takes no memory for a step.
#[derive(Drop)]
pub(crate) struct Fast<E: Epochs, F: Task> {
    pub(crate) shelf: Shelf<F, Sum>,
    pub(crate) engine: Engine<E, F, Sum>,
}

impl<E: Epochs + Drop, F: Task> Opening<Fast<E, F>> for Jobs<F> {
    ghost begins = { λ jobs has. has ≡ tags_on jobs.shelf };

    fn open(self, params: Params) -> Option<Fast<E, F>> {
        let Ok(engine) = Engine::open(self.alloc, params) else {
            return None;
        };
        Some(Fast {
            shelf: self.shelf,
            engine,
        })
    }
}

impl<E: Epochs + Drop, F: Task> Stepping for Fast<E, F> {
    ghost stands = { λ fast has sizes A. IsFast fast.shelf fast.engine has sizes A };

    ghost may_lack = { false };

    fn step(&mut self, step: &Step) -> Option<Result<Reply, Fault>> {
        Some(match *step {
            Step::Bump { tag } => self.bump(tag),
            _ => self.engine.step(step),
        })
    }

    fn snapshot(&self) -> Snapshot {
        self.engine.snapshot()
    }

    fn pending(&self) -> ArrayVec<Waiting, 64> {
        self.engine.pending()
    }

    fn frames(&self) -> u64 {
        self.engine.params().frames()
    }

    fn frame(&self, f: u64) -> (FrameState, Option<u64>) {
        self.engine.frame(f)
    }
}

impl<E: Epochs + Drop, F: Task> Fast<E, F> {
    /// Makes a bump with the job of this tag, which leaves the shelf if the bump is accepted.
    fn bump(&mut self, tag: u64) -> Result<Reply, Fault>
        ensures { (has : ℕ → Bool) (sizes : Sizes) (A : List STEP)
            → IsFast self.old.shelf self.old.engine has sizes A
            → Stepped (IsFast self.new.shelf self.new.engine) false has sizes A (BUMP tag) (Some result) }
    {
        let Some(kept) = self.shelf.take(tag) else {
            return Err(Fault::NoJob);
        };
        match self.engine.bump(kept) {
            Ok(ticket) => Ok(Reply::Ticket(ticket)),
            Err((fault, kept)) => {
                // A refused bump leaves its job on the shelf.
                self.shelf.put(kept);
                Err(fault)
            }
        }
    }
}
