ghost use Rattle.std.specs.Prelude.{◌≡◌, OnErr};
ghost use Rattle.hl_model.specs.declared.step.Reply.TheVariants.{Left as LEFT};
ghost use Rattle.hl_model.specs.declared.step.Step.TheVariants.{Acquire as ACQUIRE, Refresh as REFRESH, Release as RELEASE};
ghost use Rattle.hl_core.specs.Steps.{as_reply, entered_reply};
ghost use Rattle.hl_cells.specs.Engines.{IsEngine};
ghost use Rattle.hl_cells.specs.EngineSteps.{Moves};
ghost use Rattle.hl_cells.specs.Jobs.{JobsStay};

use crate::engine::Engine;
use hl_action::{Promise, Task};
use hl_epoch::Epochs;
use hl_model::{Fault, Slot};

impl<E: Epochs + Drop, F: Task, P: Promise> Engine<E, F, P> {
    /// Slot t becomes protected; returns what it has from now on: the current epoch, and the offsets as they
    /// are for its view.
    ///
    /// Faults, in their order: `NoSlot` if t is S or more, `Occupied` if the slot is protected.
    pub fn acquire(&mut self, t: u64) -> Result<Slot, Fault>
        ensures moved { Moves P.keeps self.old (ACQUIRE t) self.new (as_reply entered_reply result) }
        ensures jobs { JobsStay self.old self.new }
        ensures refused { OnErr result (self.new ≡ self.old) }
        ensures valid { IsEngine self.old }
    {
        self.core.acquire(t)
    }

    /// Slot t moves on; returns what it has from now on: the current epoch, and the offsets as they are for
    /// its view.
    ///
    /// Faults, in their order: `NoSlot` if t is S or more, `NotProtected` if the slot isn't protected.
    pub fn refresh(&mut self, t: u64) -> Result<Slot, Fault>
        ensures moved { Moves P.keeps self.old (REFRESH t) self.new (as_reply entered_reply result) }
        ensures jobs { JobsStay self.old self.new }
        ensures refused { OnErr result (self.new ≡ self.old) }
        ensures valid { IsEngine self.old }
    {
        self.core.refresh(t)
    }

    /// Slot t is protected no longer.
    ///
    /// Faults, in their order: `NoSlot` if t is S or more, `NotProtected` if the slot isn't protected.
    pub fn release(&mut self, t: u64) -> Result<(), Fault>
        ensures moved { Moves P.keeps self.old (RELEASE t) self.new (as_reply (λ _. LEFT) result) }
        ensures jobs { JobsStay self.old self.new }
        ensures refused { OnErr result (self.new ≡ self.old) }
        ensures valid { IsEngine self.old }
    {
        self.core.release(t)
    }
}
