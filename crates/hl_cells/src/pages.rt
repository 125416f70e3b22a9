ghost use Rattle.std.specs.Prelude.{◌≡◌, OnErr};
ghost use Rattle.hl_model.specs.declared.step.Reply.TheVariants.{Page as PAGE, Flushed as FLUSHED, Freed as FREED};
ghost use Rattle.hl_model.specs.declared.step.Step.TheVariants.{FlushTake as FLUSH_TAKE, FlushDone as FLUSH_DONE, CleanTake as CLEAN_TAKE, CleanDone as CLEAN_DONE};
ghost use Rattle.hl_core.specs.Steps.{as_reply};
ghost use Rattle.hl_cells.specs.Engines.{IsEngine};
ghost use Rattle.hl_cells.specs.EngineSteps.{Moves};
ghost use Rattle.hl_cells.specs.Jobs.{JobsStay};

use crate::engine::Engine;
use hl_action::{Promise, Task};
use hl_epoch::Epochs;
use hl_model::Fault;

impl<E: Epochs + Drop, F: Task, P: Promise> Engine<E, F, P> {
    /// Takes the least sealed page that is neither flushed nor in flight; returns the page, which is in
    /// flight then, and which its frame shows.
    ///
    /// Fault: `NoneSealed` if there is no such page.
    pub fn flush_take(&mut self) -> Result<u64, Fault>
        ensures moved { Moves P.keeps self.old FLUSH_TAKE self.new (as_reply PAGE result) }
        ensures jobs { JobsStay self.old self.new }
        ensures refused { OnErr result (self.new ≡ self.old) }
        ensures valid { IsEngine self.old }
    {
        self.core.flush_take()
    }

    /// The flush of a page ended: well, and the page is flushed, or not, and it may be taken again. Returns
    /// the flushed offset after it, an address.
    ///
    /// Fault: `NotInFlight` if the page isn't in flight.
    pub fn flush_done(&mut self, page: u64, ok: bool) -> Result<u64, Fault>
        ensures moved { Moves P.keeps self.old (FLUSH_DONE page ok) self.new (as_reply FLUSHED result) }
        ensures jobs { JobsStay self.old self.new }
        ensures refused { OnErr result (self.new ≡ self.old) }
        ensures valid { IsEngine self.old }
    {
        self.core.flush_done(page, ok)
    }

    /// Takes the least closed page that is neither freed nor being cleaned; returns the page, which is being
    /// cleaned then.
    ///
    /// Fault: `NoneClosed` if there is no such page.
    pub fn clean_take(&mut self) -> Result<u64, Fault>
        ensures moved { Moves P.keeps self.old CLEAN_TAKE self.new (as_reply PAGE result) }
        ensures jobs { JobsStay self.old self.new }
        ensures refused { OnErr result (self.new ≡ self.old) }
        ensures valid { IsEngine self.old }
    {
        self.core.clean_take()
    }

    /// The words of a page become 0, and its frame is free; returns the page.
    ///
    /// Fault: `NotCleaning` if the page isn't being cleaned.
    pub fn clean_done(&mut self, page: u64) -> Result<u64, Fault>
        ensures moved { Moves P.keeps self.old (CLEAN_DONE page) self.new (as_reply FREED result) }
        ensures jobs { JobsStay self.old self.new }
        ensures refused { OnErr result (self.new ≡ self.old) }
        ensures valid { IsEngine self.old }
    {
        let start = self.first_cell(page);
        let len = self.page_size();
        let freed = self.core.clean_done(page)?;
        self.words.zero(start, len);
        Ok(freed)
    }
}
