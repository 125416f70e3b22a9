//! The locked calls about pages.
ghost use Rattle.std.specs.Prelude.{◌≡◌, List, [], ◌∷◌, ◌++◌, IfErr};
ghost use Rattle.hl_model.specs.declared.step.Step.TheVariants.{FlushTake as FLUSH_TAKE, FlushDone as FLUSH_DONE, CleanTake as CLEAN_TAKE, CleanDone as CLEAN_DONE};
ghost use Rattle.hl_model.specs.Pages.{flushed};
ghost use Rattle.hl_keeper.specs.Calls.{without_back, Makes, Ends};
ghost use Rattle.hl_keeper.specs.Pages.{to_flush, to_clean};
ghost use Rattle.hl_domain.specs.Domains.{call_of, MakesUnderLock};

use crate::domain::Domain;
use crate::domain::held::Held;
use hl_action::{Promise, Task};
use hl_epoch::Epochs;
use hl_keeper::{Broom, Load};
use hl_model::Fault;
use hl_words::{Realm, Rider};
use std::sync::Wait;

impl<E: Epochs + Drop, F: Task, P: Promise, L: Realm> Domain<E, F, P, L> {
    /// Takes the least sealed page that is neither flushed nor in flight.
    ///
    /// Faults: `JournalFull`, `NoneSealed`.
    pub fn flush_take(&self, rt: &impl Wait, rider: &mut Rider<L>) -> Result<Load, Fault>
        ensures met { MakesUnderLock F self.now (call_of FLUSH_TAKE rider.old rider.new) result (λ old.
            Makes old FLUSH_TAKE (λ A. to_flush old.core.sizes old.stamp A)) }
    {
        locked!(self, rt, flush_take(rider))
    }

    /// Tells that the flush of a page ended, well or not; returns the flushed offset.
    ///
    /// Faults, with the load handed back: `Stranger` if it is of another domain, `JournalFull`,
    /// `NotInFlight`.
    pub fn flush_done(
        &self,
        rt: &impl Wait,
        rider: &mut Rider<L>,
        load: Load,
        ok: bool,
    ) -> Result<u64, (Fault, Load)>
        ensures met { let step = FLUSH_DONE load.page ok
            in MakesUnderLock F self.now (call_of step rider.old rider.new) (without_back result) (λ old.
            Ends old load.stamp step (λ A. flushed old.core.sizes (A ++ step ∷ []))) }
        ensures refused { IfErr result (λ back. back.1 ≡ load) }
    {
        locked!(self, rt, flush_done(rider, load, ok))
    }

    /// Takes the least closed page that is neither freed nor being cleaned.
    ///
    /// Faults: `JournalFull`, `NoneClosed`.
    pub fn clean_take(&self, rt: &impl Wait, rider: &mut Rider<L>) -> Result<Broom, Fault>
        ensures met { MakesUnderLock F self.now (call_of CLEAN_TAKE rider.old rider.new) result (λ old.
            Makes old CLEAN_TAKE (λ A. to_clean old.core.sizes old.stamp A)) }
    {
        locked!(self, rt, clean_take(rider))
    }

    /// Tells that the cells of a page hold 0: its frame is then free. The broom is swept: 0 was stored into all P
    /// cells. Returns the page.
    ///
    /// Faults, with the broom handed back: `Stranger` if it is of another domain, `JournalFull`,
    /// `NotCleaning`.
    pub fn clean_done(
        &self,
        rt: &impl Wait,
        rider: &mut Rider<L>,
        broom: Broom,
    ) -> Result<u64, (Fault, Broom)>
        requires { broom.swept ≡ self.now.sizes.page_size }
        ensures met { let step = CLEAN_DONE broom.page
            in MakesUnderLock F self.now (call_of step rider.old rider.new) (without_back result) (λ old.
            Ends old broom.stamp step (λ A. broom.page)) }
        ensures refused { IfErr result (λ back. back.1 ≡ broom) }
    {
        locked!(self, rt, clean_done(rider, broom))
    }
}
