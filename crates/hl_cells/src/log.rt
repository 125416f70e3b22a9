ghost use Rattle.std.specs.Prelude.{◌≡◌, ◌+◌, ◌^◌, ◌≤◌, IfOk, OnErr};
ghost use Rattle.hl_model.specs.declared.step.Reply.TheVariants.{Raised as RAISED, Shifted as SHIFTED, At as AT, Looked as LOOKED};
ghost use Rattle.hl_model.specs.declared.step.Step.TheVariants.{Raise as RAISE, Shift as SHIFT, Allocate as ALLOCATE, Look as LOOK};
ghost use Rattle.hl_core.specs.Steps.{as_reply};
ghost use Rattle.hl_cells.specs.Engines.{IsEngine};
ghost use Rattle.hl_cells.specs.EngineSteps.{Moves};
ghost use Rattle.hl_cells.specs.Jobs.{JobsStay};

use crate::engine::Engine;
use hl_action::{Promise, Task};
use hl_epoch::Epochs;
use hl_model::{Fault, View};

impl<E: Epochs + Drop, F: Task, P: Promise> Engine<E, F, P> {
    /// Moves the read-only offset up to address x; returns x, the read-only offset after it.
    ///
    /// Faults, in their order: `NotAbove` if x isn't above the read-only offset, `AboveTail` if it is above
    /// the tail.
    pub fn raise(&mut self, x: u64) -> Result<u64, Fault>
        ensures moved { Moves P.keeps self.old (RAISE x) self.new (as_reply RAISED result) }
        ensures jobs { JobsStay self.old self.new }
        ensures refused { OnErr result (self.new ≡ self.old) }
        ensures valid { IsEngine self.old }
    {
        self.core.raise(x)
    }

    /// Moves the head up to address x, where a page begins, at most to the flushed offset; returns x, the
    /// head after it.
    ///
    /// Faults, in their order: `NotAbove` if x isn't above the head, `NotPage` if no page begins at x,
    /// `AboveFlushed` if it is above the flushed offset.
    pub fn shift(&mut self, x: u64) -> Result<u64, Fault>
        ensures moved { Moves P.keeps self.old (SHIFT x) self.new (as_reply SHIFTED result) }
        ensures jobs { JobsStay self.old self.new }
        ensures refused { OnErr result (self.new ≡ self.old) }
        ensures valid { IsEngine self.old }
    {
        self.core.shift(x)
    }

    /// Places a record of n words, 1 to P, for slot t: at the tail if it ends on the tail's page, else at the
    /// start of the next page. Returns the address of its first word. The first record of a page enters the
    /// page, whose words are 0 then, and the slot's view has the new tail.
    ///
    /// Faults, in their order: `NoSlot`, `NotProtected`, `Size` if n is 0 or above P, `SpaceSpent` if the
    /// record would end above 2^48, `Busy` if its page is new and its frame isn't free.
    pub fn allocate(&mut self, t: u64, n: u64) -> Result<u64, Fault>
        ensures moved { Moves P.keeps self.old (ALLOCATE t n) self.new (as_reply AT result) }
        ensures within { IfOk result (λ address. address + n ≤ 2 ^ 48) }
        ensures jobs { JobsStay self.old self.new }
        ensures refused { OnErr result (self.new ≡ self.old) }
        ensures valid { IsEngine self.old }
    {
        self.core.allocate(t, n)
    }

    /// Slot t sees this read-only offset and this head; returns its view from now on.
    ///
    /// Faults, in their order: `NoSlot`, `NotProtected`, `Stale` if one of the two is below what the slot
    /// saw.
    pub fn look(&mut self, t: u64, read_only: u64, head: u64) -> Result<View, Fault>
        ensures moved { Moves P.keeps self.old (LOOK t read_only head) self.new (as_reply LOOKED result) }
        ensures jobs { JobsStay self.old self.new }
        ensures refused { OnErr result (self.new ≡ self.old) }
        ensures valid { IsEngine self.old }
    {
        self.core.look(t, read_only, head)
    }
}
