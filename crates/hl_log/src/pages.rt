//! Pages that are taken, and the ends of the work on them.
ghost use Rattle.std.specs.Prelude.{◌≡◌, false, IfSome, MatchOption, IfOk, OnErr};
ghost use Rattle.hl_model.specs.declared.step.Step.TheVariants.{FlushDone as FLUSH_DONE, CleanDone as CLEAN_DONE};
ghost use Rattle.hl_model.specs.declared.step.Reply.TheVariants.{Page as PAGE};
ghost use Rattle.hl_core.specs.Steps.{as_reply};
ghost use Rattle.hl_log.specs.Logs.{Makes, DealsOne, IsBeside};
ghost use Rattle.hl_log.specs.Taken.{taking, numbered, origin_fault, unswept_fault, Ends, IsFresh};

use crate::log::Log;
use crate::shared::Shared;
use crate::taken::Taken;
use hl_model::{Fault, Reply, Step};
use std::sync::Arc;

impl Log {
    /// Returns a page that is to be taken, to be cleaned or else to be flushed, with one of the riders that are left.
    /// None if the owners of the shared words can't be counted further, or no rider is left; then nothing is changed.
    pub fn vacant_page(&mut self, cleans: bool) -> Option<Taken>
        ensures page { IfSome result (λ page. IsFresh self.old cleans page) }
        ensures log { MatchOption result (self.new ≡ self.old) (λ _. DealsOne self.old self.new) }
    {
        let shared = Arc::try_clone(&self.shared).ok()?;
        let words: &Shared = &self.shared;
        let rider = words.words.deal(&mut self.master)?;
        Some(Taken {
            shared,
            origin: self.stamps.own(),
            page: 0,
            cleans,
            swept: false,
            rider,
        })
    }

    /// Takes, for a page that is to be cleaned, the least closed page that is neither freed nor being cleaned; else
    /// the least sealed one that is neither flushed nor in flight: its number.
    ///
    /// Faults: `NoneClosed`, `NoneSealed`; then nothing is changed.
    pub fn take_page(&mut self, page: &mut Taken) -> Result<u64, Fault>
        requires there { page.old.shared ≡ self.old.shared }
        requires unswept { page.old.swept ≡ false }
        ensures made { Makes self.old (taking page.old.cleans) self.new (as_reply PAGE result) }
        ensures beside { IsBeside self.old self.new }
        ensures page { IfOk result (λ number. page.new ≡ numbered number page.old) }
        ensures refused { OnErr result ((self.new ≡ self.old) × (page.new ≡ page.old)) }
    {
        let number = self.take_number(page.cleans)?;
        page.page = number;
        Ok(number)
    }

    // The same, of which the number alone is told.
    fn take_number(&mut self, cleans: bool) -> Result<u64, Fault>
        ensures made { Makes self.old (taking cleans) self.new (as_reply PAGE result) }
        ensures beside { IsBeside self.old self.new }
        ensures refused { OnErr result (self.new ≡ self.old) }
    {
        if cleans {
            self.core.clean_take()
        } else {
            self.core.flush_take()
        }
    }

    /// The flush of a page ended, well or not; returns the flushed offset.
    ///
    /// Faults: `Stranger`, with the log's stamp, if the page is of another log; `NotInFlight`.
    pub fn flush_done(&mut self, page: &Taken, ok: bool) -> Result<Reply, Fault>
        ensures ended { Ends self.old (origin_fault self.old page.now) (FLUSH_DONE page.now.page ok)
            self.new result }
        ensures refused { OnErr result (self.new ≡ self.old) }
    {
        self.stamps.is_of(page.origin)?;
        let step = Step::FlushDone {
            page: page.page,
            ok,
        };
        self.core.act(&step)
    }

    /// The words of a page are zeroed: its frame is free.
    ///
    /// Faults: `Stranger`, with the log's stamp, if the page is of another log; `NotCleaning`, also if it
    /// wasn't swept.
    pub fn clean_done(&mut self, page: &Taken) -> Result<Reply, Fault>
        ensures ended { Ends self.old (unswept_fault self.old page.now) (CLEAN_DONE page.now.page)
            self.new result }
        ensures refused { OnErr result (self.new ≡ self.old) }
    {
        self.stamps.is_of(page.origin)?;
        if !page.swept {
            return Err(Fault::NotCleaning);
        }
        self.core.act(&Step::CleanDone { page: page.page })
    }
}
