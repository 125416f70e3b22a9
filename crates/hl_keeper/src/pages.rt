//! The locked calls about pages, and the done of an action.
ghost use Rattle.std.specs.Prelude.{◌≡◌, true, false, List, [], ◌∷◌, ◌++◌, OnErr, OnOk, IfErr, MatchResult, Bool};
ghost use Rattle.hl_model.specs.declared.step.Step.TheVariants.{Done as DONE, FlushTake as FLUSH_TAKE, FlushDone as FLUSH_DONE, CleanTake as CLEAN_TAKE, CleanDone as CLEAN_DONE};
ghost use Rattle.hl_model.specs.Pages.{flushed};
ghost use Rattle.hl_model.specs.Replies.{answer_of};
ghost use Rattle.hl_core.specs.Steps.{is_acted};
ghost use Rattle.hl_keeper.specs.Passes.{Shares};
ghost use Rattle.hl_keeper.specs.Keepers.{IsKeeper};
ghost use Rattle.hl_keeper.specs.Stamps.{is_acquire};
ghost use Rattle.hl_keeper.specs.Calls.{without_back, Makes, Ends, Keeps, SameStamps};
ghost use Rattle.hl_keeper.specs.Pages.{to_flush, to_clean};

use crate::keeper::Keeper;
use crate::load::{Broom, Load, PageJob};
use hl_action::{Promise, Ran, Task};
use hl_epoch::Epochs;
use hl_model::{Fault, Reply, Step};
use hl_words::{Realm, Rider, Words};

impl<E: Epochs + Drop, F: Task, P: Promise, L: Realm> Keeper<E, F, P, L> {
    /// Takes the least sealed page that is neither flushed nor in flight.
    ///
    /// Faults: `JournalFull`, `NoneSealed`.
    pub fn flush_take(&mut self, words: &Words<L>, rider: &mut Rider<L>) -> Result<Load, Fault>
        ensures made { Makes self.old FLUSH_TAKE
            (λ A. to_flush self.old.core.sizes self.old.stamp A) self.new result }
        ensures keeps { Keeps self.old self.new result }
        ensures stamps { SameStamps self.old self.new }
        ensures rider { Shares 1 result rider.old rider.new }
    {
        match self.one(words, rider, &Step::FlushTake)? {
            Reply::Page(page) => Ok(Load::of(PageJob {
                stamp: self.stamps.own(),
                page,
            })),
            _ => unreachable!(),
        }
    }

    /// Tells that the flush of a page ended, well or not; returns the flushed offset.
    ///
    /// Faults, with the load handed back: `Stranger` if it is of another domain, `JournalFull`,
    /// `NotInFlight`.
    pub fn flush_done(
        &mut self,
        words: &Words<L>,
        rider: &mut Rider<L>,
        load: Load,
        ok: bool,
    ) -> Result<u64, (Fault, Load)>
        ensures made { Ends self.old load.stamp (FLUSH_DONE load.page ok)
            (λ A. flushed self.old.core.sizes (A ++ FLUSH_DONE load.page ok ∷ []))
            self.new (without_back result) }
        ensures refused { IfErr result (λ back. back.1 ≡ load) }
        ensures keeps { Keeps self.old self.new (without_back result) }
        ensures stamps { SameStamps self.old self.new }
        ensures rider { Shares 1 result rider.old rider.new }
    {
        let PageJob { stamp, page } = load.job();
        match self.end(words, rider, stamp, &Step::FlushDone { page, ok }) {
            Ok(reply) => {
                load.forsake();
                match reply {
                    Reply::Flushed(flushed) => Ok(flushed),
                    _ => unreachable!(),
                }
            }
            Err(fault) => Err((fault, load)),
        }
    }

    /// Takes the least closed page that is neither freed nor being cleaned.
    ///
    /// Faults: `JournalFull`, `NoneClosed`.
    pub fn clean_take(&mut self, words: &Words<L>, rider: &mut Rider<L>) -> Result<Broom, Fault>
        ensures made { Makes self.old CLEAN_TAKE
            (λ A. to_clean self.old.core.sizes self.old.stamp A) self.new result }
        ensures keeps { Keeps self.old self.new result }
        ensures stamps { SameStamps self.old self.new }
        ensures rider { Shares 1 result rider.old rider.new }
    {
        match self.one(words, rider, &Step::CleanTake)? {
            Reply::Page(page) => Ok(Broom::of(PageJob {
                stamp: self.stamps.own(),
                page,
            })),
            _ => unreachable!(),
        }
    }

    /// Tells that the cells of a page hold 0: its frame is then free. The broom is swept: 0 was
    /// stored into all P cells. Returns the page.
    ///
    /// Faults, with the broom handed back: `Stranger` if it is of another domain, `JournalFull`,
    /// `NotCleaning`.
    pub fn clean_done(
        &mut self,
        words: &Words<L>,
        rider: &mut Rider<L>,
        broom: Broom,
    ) -> Result<u64, (Fault, Broom)>
        requires { broom.swept ≡ self.old.core.sizes.page_size }
        ensures made { Ends self.old broom.stamp (CLEAN_DONE broom.page)
            (λ A. broom.page) self.new (without_back result) }
        ensures refused { IfErr result (λ back. back.1 ≡ broom) }
        ensures keeps { Keeps self.old self.new (without_back result) }
        ensures stamps { SameStamps self.old self.new }
        ensures rider { Shares 1 result rider.old rider.new }
    {
        let page = broom.page();
        match self.end(words, rider, broom.stamp(), &Step::CleanDone { page }) {
            Ok(_) => {
                broom.forsake();
                Ok(page)
            }
            Err(fault) => Err((fault, broom)),
        }
    }

    /// Tells that a taken action was run: it is then done. A settle and a close raise their offset
    /// to what they stored, and a settle stores its word; for a job this returns the tag, and what
    /// the job answered is in the `Ran`.
    ///
    /// Faults, with it handed back: `Stranger` if it is of another domain, `JournalFull`,
    /// `NotTaken`.
    pub fn done(
        &mut self,
        words: &Words<L>,
        rider: &mut Rider<L>,
        ran: Ran,
    ) -> Result<Reply, (Fault, Ran)>
        ensures made { let step = DONE ran.ticket
            in Ends self.old ran.origin step
            (λ A. answer_of self.old.core.sizes A (A ++ step ∷ []) step) self.new (without_back result) }
        ensures refused { IfErr result (λ back. back.1 ≡ ran) }
        ensures keeps { Keeps self.old self.new (without_back result) }
        ensures stamps { SameStamps self.old self.new }
        ensures rider { Shares 1 result rider.old rider.new }
    {
        let ticket = ran.ticket();
        match self.end(words, rider, ran.origin(), &Step::Done { ticket }) {
            Ok(reply) => {
                ran.forsake();
                Ok(reply)
            }
            Err(fault) => Err((fault, ran)),
        }
    }

    // One step that ends what has this origin.
    #[inline(always)]
    fn end(
        &mut self,
        words: &Words<L>,
        rider: &mut Rider<L>,
        origin: u64,
        step: &Step,
    ) -> Result<Reply, Fault>
        requires acted { is_acted step.now ≡ true }
        requires unstamped { is_acquire step.now ≡ false }
        ensures made { Ends self.old origin step.now
            (λ A. answer_of self.old.core.sizes A (A ++ step.now ∷ []) step.now) self.new result }
        ensures keeps { Keeps self.old self.new result }
        ensures stamps { SameStamps self.old self.new }
        ensures rider { Shares 1 result rider.old rider.new }
        ensures valid { OnOk result (IsKeeper self.old) }
    {
        self.own(origin)?;
        self.one(words, rider, step)
    }
}
