//! The locked calls of a rider: bumps, takes and dones, the two offsets, the cut, and what it asks of the list.
ghost use Rattle.std.specs.Prelude.{◌≡◌, ◌%◌, [], ◌∷◌, ◌++◌, length, take, IfOk, IfErr};
ghost use Rattle.hl_model.specs.declared.step.Step.TheVariants.{Done as DONE, Raise as RAISE, Shift as SHIFT};
ghost use Rattle.hl_model.specs.Offsets.{read_only, head};
ghost use Rattle.hl_model.specs.Replies.{answer_of};
ghost use Rattle.hl_model.specs.Snapshots.{snapshot_of};
ghost use Rattle.hl_model.specs.Frames.{frame_of};
ghost use Rattle.hl_core.specs.Holding.{oldest, holders};
ghost use Rattle.hl_keeper.specs.Calls.{without_back, Makes, Ends};
ghost use Rattle.hl_domain.specs.Domains.{call_of, UnderLock, MakesUnderLock};
ghost use Rattle.hl_domain.specs.Riders.{Bares, Bumps, Cuts, LooksAtAll, LooksAtFrame, LooksAtHolders, LooksAtOver, LooksAtSteps, Takes};

use crate::domain::Domain;
use crate::domain::held::Held;
use arrayvec::ArrayVec;
use hl_action::{Kept, Promise, Ran, Ready, Task};
use hl_core::Holder;
use hl_drain::Ask;
use hl_epoch::Epochs;
use hl_model::{Fault, FrameState, Reply, Snapshot};
use hl_words::{Realm, Rider};
use std::sync::Wait;

impl<E: Epochs + Drop, F: Task, P: Promise, L: Realm> Domain<E, F, P, L> {
    /// Ends the current epoch, and stores what is asked for under it; returns the ticket, the epoch that ended.
    ///
    /// Faults, with what was asked for handed back: `JournalFull`, `DrainFull`, `EpochsSpent`, `WindowFull`.
    pub fn bump(
        &self,
        rt: &impl Wait,
        rider: &mut Rider<L>,
        ask: Ask<Kept<F, P>>,
    ) -> Result<u64, (Fault, Ask<Kept<F, P>>)>
        ensures met { Bumps F self.now ask without_back result rider.old rider.new }
        ensures refused { IfErr result (λ back. back.1 ≡ ask) }
    {
        locked!(self, rt, bump(rider, ask))
    }

    /// Ends the current epoch, and stores nothing; returns the epoch that ended.
    ///
    /// Faults: `JournalFull`, `EpochsSpent`, `WindowFull`.
    pub fn bare(&self, rt: &impl Wait, rider: &mut Rider<L>) -> Result<u64, Fault>
        ensures met { Bares F self.now result rider.old rider.new }
    {
        locked!(self, rt, bare(rider))
    }

    /// Takes the oldest pending action, once its ticket is safe; what it returns is ready to be run, under its
    /// ticket and the present safe epoch.
    ///
    /// Faults: `JournalFull`, `Empty`, `NotReady`.
    pub fn take(&self, rt: &impl Wait, rider: &mut Rider<L>) -> Result<Ready<F, P>, Fault>
        ensures met { Takes F self.now result rider.old rider.new }
    {
        locked!(self, rt, take(rider))
    }

    /// Tells that a taken action was run: it is then done. A settle and a close raise their offset to what they
    /// stored; for a job this returns the tag, and what the job answered is in the `Ran`.
    ///
    /// Faults, with it handed back: `Stranger` if it is of another domain, `JournalFull`, `NotTaken`.
    pub fn done(
        &self,
        rt: &impl Wait,
        rider: &mut Rider<L>,
        ran: Ran,
    ) -> Result<Reply, (Fault, Ran)>
        ensures met { let step = DONE ran.ticket
            in MakesUnderLock F self.now (call_of step rider.old rider.new) (without_back result) (λ old.
            Ends old ran.origin step (λ A. answer_of old.core.sizes A (A ++ step ∷ []) step)) }
        ensures refused { IfErr result (λ back. back.1 ≡ ran) }
    {
        locked!(self, rt, done(rider, ran))
    }

    /// Moves the read-only offset up to x, and stores its word; returns x.
    ///
    /// Faults: `JournalFull`, `NotAbove`, `AboveTail`.
    pub fn raise(&self, rt: &impl Wait, rider: &mut Rider<L>, x: u64) -> Result<u64, Fault>
        ensures met { MakesUnderLock F self.now (call_of (RAISE x) rider.old rider.new) result (λ old.
            Makes old (RAISE x) (λ A. read_only (A ++ RAISE x ∷ []))) }
        ensures same { IfOk result (λ raised. raised ≡ x) }
    {
        locked!(self, rt, raise(rider, x))
    }

    /// Moves the head up to x, at most to the flushed offset, and stores its word; returns x.
    ///
    /// Faults: `JournalFull`, `NotAbove`, `NotPage`, `AboveFlushed`.
    pub fn shift(&self, rt: &impl Wait, rider: &mut Rider<L>, x: u64) -> Result<u64, Fault>
        ensures met { MakesUnderLock F self.now (call_of (SHIFT x) rider.old rider.new) result (λ old.
            Makes old (SHIFT x) (λ A. head (A ++ SHIFT x ∷ []))) }
        ensures same { IfOk result (λ shifted. shifted ≡ x) }
    {
        locked!(self, rt, shift(rider, x))
    }

    /// Drops the steps since the last cut, and replaces the base by the current one; returns how many were
    /// dropped. It is no step, and is never refused.
    pub fn cut(&self, rt: &impl Wait, rider: &mut Rider<L>) -> u64
        ensures met { Cuts F self.now result rider.old rider.new }
    {
        asked!(self, rt, rider, cut(&self.words, rider))
    }

    /// What `snapshot` returns, by a rider: its newest call then tells of which list that is.
    pub fn snapshot_by(&self, rt: &impl Wait, rider: &mut Rider<L>) -> (Snapshot, u64, u64)
        ensures met { LooksAtAll F self.now result rider.old rider.new }
    {
        asked!(self, rt, rider, snapshot())
    }

    /// What `holders` returns, by a rider.
    pub fn holders_by<const N: usize>(
        &self,
        rt: &impl Wait,
        rider: &mut Rider<L>,
        row: &mut ArrayVec<Holder, N>,
    ) -> Option<u64>
        ensures met { LooksAtHolders F self.now N result row.new.items rider.old rider.new }
    {
        asked!(self, rt, rider, holders(row))
    }

    /// What `frame_of` returns, by a rider.
    pub fn frame_of_by(
        &self,
        rt: &impl Wait,
        rider: &mut Rider<L>,
        page: u64,
    ) -> (FrameState, Option<u64>)
        ensures met { LooksAtFrame F self.now page result rider.old rider.new }
    {
        asked!(self, rt, rider, frame_of(page))
    }

    /// How many steps the one list has, by a rider: its newest call met exactly them.
    ///
    /// The number can go to another thread: a call there that meets no fewer met all that this rider's calls left
    /// ([`later_calls_begin`](crate::laws::later_calls_begin)).
    pub fn steps_by(&self, rt: &impl Wait, rider: &mut Rider<L>) -> u64
        ensures met { LooksAtSteps F self.now result rider.old rider.new }
    {
        asked!(self, rt, rider, steps())
    }

    /// Whether the action of this ticket is over, by a rider: it was taken, and is done. So it is of a ticket under which no
    /// action was stored, once all before it were taken.
    pub fn is_over_by(&self, rt: &impl Wait, rider: &mut Rider<L>, ticket: u64) -> bool
        ensures met { LooksAtOver F self.now ticket result rider.old rider.new }
    {
        asked!(self, rt, rider, is_over(ticket))
    }

    /// All quantities, the number of steps since the last cut, and the number of steps cut in all.
    pub fn snapshot(&self, rt: &impl Wait) -> (Snapshot, u64, u64)
        ensures met { UnderLock F self.now (λ k A. (result.0 ≡ snapshot_of k.core.sizes A)
            × (result.1 ≡ length k.journal) × (result.2 ≡ k.cut)) }
    {
        self.lock(rt).keeper.snapshot()
    }

    /// The ticket of the oldest pending action, and into the row the slots that hold it up, least first, each with its
    /// epoch: those protected at an epoch that isn't above the ticket, the first N of them if there are more. Each
    /// of them has to refresh or to leave before a take gives that action; if the row is empty, the next take does.
    ///
    /// `None`, and no slot, if no action is pending.
    pub fn holders<const N: usize>(
        &self,
        rt: &impl Wait,
        row: &mut ArrayVec<Holder, N>,
    ) -> Option<u64>
        ensures met { UnderLock F self.now (λ k A. (result ≡ oldest A)
            × (row.new.items ≡ take N (holders k.core.sizes.slots A))) }
    {
        self.lock(rt).keeper.holders(row)
    }

    /// What the frame of a page is at, and the page that was last entered there; `None` if it is free. Of the page
    /// that a `Busy` names it tells what is in its way: a page to be settled, flushed, closed or cleaned.
    pub fn frame_of(&self, rt: &impl Wait, page: u64) -> (FrameState, Option<u64>)
        ensures met { UnderLock F self.now (λ k A.
            result ≡ frame_of k.core.sizes (page % k.core.sizes.frames) A) }
    {
        self.lock(rt).keeper.frame_of(page)
    }
}
