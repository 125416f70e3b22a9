ghost use Rattle.std.specs.Prelude.{◌≡◌, OnErr};
ghost use Rattle.hl_model.specs.declared.step.Reply.TheVariants.{Page as PAGE, Flushed as FLUSHED, Freed as FREED};
ghost use Rattle.hl_model.specs.declared.step.Step.TheVariants.{FlushTake as FLUSH_TAKE, FlushDone as FLUSH_DONE, CleanTake as CLEAN_TAKE, CleanDone as CLEAN_DONE};
ghost use Rattle.hl_core.specs.Steps.{Made, as_reply};

use crate::state::Core;
use hl_epoch::Epochs;
use hl_model::{Fault, Tagged};

impl<E: Epochs, J: Tagged> Core<E, J> {
    /// Takes the least sealed page that is neither flushed nor in flight; returns the page, which is in
    /// flight then.
    ///
    /// Fault: `NoneSealed` if there is no such page.
    #[inline(always)]
    pub fn flush_take(&mut self) -> Result<u64, Fault>
        ensures made { Made J.tag self.old FLUSH_TAKE self.new (as_reply PAGE result) }
        ensures refused { OnErr result (self.new ≡ self.old) }
        ensures jobs { self.new.drain.pending ≡ self.old.drain.pending }
        ensures sizes { self.new.sizes ≡ self.old.sizes }
    {
        let safe_read_only = self.offsets.safe_read_only();
        self.frames.flush_take(safe_read_only)
    }

    /// The flush of a page ended: well, and the page is flushed, or not, and it may be taken again. Returns
    /// the flushed offset after it, an address.
    ///
    /// Fault: `NotInFlight` if the page isn't in flight.
    #[inline(always)]
    pub fn flush_done(&mut self, page: u64, ok: bool) -> Result<u64, Fault>
        ensures made { Made J.tag self.old (FLUSH_DONE page ok) self.new (as_reply FLUSHED result) }
        ensures refused { OnErr result (self.new ≡ self.old) }
        ensures jobs { self.new.drain.pending ≡ self.old.drain.pending }
        ensures sizes { self.new.sizes ≡ self.old.sizes }
    {
        self.frames.flush_done(page, ok)
    }

    /// Takes the least closed page that is neither freed nor being cleaned; returns the page, which is being
    /// cleaned then.
    ///
    /// Fault: `NoneClosed` if there is no such page.
    #[inline(always)]
    pub fn clean_take(&mut self) -> Result<u64, Fault>
        ensures made { Made J.tag self.old CLEAN_TAKE self.new (as_reply PAGE result) }
        ensures refused { OnErr result (self.new ≡ self.old) }
        ensures jobs { self.new.drain.pending ≡ self.old.drain.pending }
        ensures sizes { self.new.sizes ≡ self.old.sizes }
    {
        let closed = self.offsets.closed();
        self.frames.clean_take(closed)
    }

    /// The words of a page are zeroed, and its frame is free; returns the page.
    ///
    /// Fault: `NotCleaning` if the page isn't being cleaned.
    #[inline(always)]
    pub fn clean_done(&mut self, page: u64) -> Result<u64, Fault>
        ensures made { Made J.tag self.old (CLEAN_DONE page) self.new (as_reply FREED result) }
        ensures refused { OnErr result (self.new ≡ self.old) }
        ensures jobs { self.new.drain.pending ≡ self.old.drain.pending }
        ensures sizes { self.new.sizes ≡ self.old.sizes }
    {
        self.frames.clean_done(page)?;
        Ok(page)
    }
}
