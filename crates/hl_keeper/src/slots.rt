//! The locked calls of a pass, and the acquire that makes one.
ghost use Rattle.std.specs.Prelude.{◌≡◌, ◌+◌, ◌-◌, ◌/◌, ◌^◌, ◌≤◌, List, [], ◌∷◌, ◌++◌, slice_set, length, OnErr, OnOk, IfOk, IfErr, MatchResult};
ghost use Rattle.hl_model.specs.declared.step.Step.TheVariants.{Acquire as ACQUIRE, Refresh as REFRESH, Release as RELEASE, Allocate as ALLOCATE};
ghost use Rattle.hl_model.specs.Offsets.{place_of, tail};
ghost use Rattle.hl_model.specs.Views.{view_of};
ghost use Rattle.hl_keeper.specs.Passes.{seen, rested, with_share, with_tail};
ghost use Rattle.hl_keeper.specs.Calls.{call_fault, refresh_fault, acquired_pass, touched_list, without_back, Makes, MakesAt, MakesTouched, Refreshes, IsUpTo, Keeps, SameStamps};
ghost use Rattle.hl_core.specs.Holding.{least_free};

use crate::call::note;
use crate::keeper::Keeper;
use crate::pass::Pass;
use hl_action::{Promise, Task};
use hl_epoch::Epochs;
use hl_model::{Fault, Reply, Step, View};
use hl_words::{Realm, Rider, Words};

impl<E: Epochs + Drop, F: Task, P: Promise, L: Realm> Keeper<E, F, P, L> {
    /// Moves the pass's slot on to the current epoch and offsets; returns the view, which isn't
    /// below what the pass saw.
    ///
    /// Faults: `Stranger` if the slot isn't the pass's, or the pass saw an offset above the present
    /// one; `JournalFull`.
    #[inline(always)]
    pub fn refresh(&mut self, words: &Words<L>, pass: &mut Pass<L>) -> Result<View, Fault>
        ensures made { let old = self.old
            in let p = pass.old
            in MakesTouched old p (REFRESH p.slot) (λ A. refresh_fault old A p)
            (λ A. view_of old.core.sizes p.slot (touched_list A p (REFRESH p.slot))) self.new result }
        ensures keeps { Keeps self.old self.new result }
        ensures stamps { SameStamps self.old self.new }
        ensures pass { let old = pass.old
            in MatchResult result (λ view. pass.new ≡ rested pass.new.epoch view old) (λ _. pass.new ≡ old) }
        ensures epoch { Refreshes self.old pass.old pass.new.epoch result }
        ensures fresh { IfOk result (IsUpTo (seen pass.old)) }
    {
        self.known_behind(pass)?;
        let step = Step::Refresh { t: pass.own.slot };
        match self.call(words, pass, &step)? {
            Reply::Entered { epoch, view } => {
                pass.rest(epoch, view);
                Ok(view)
            }
            _ => unreachable!(),
        }
    }

    /// Releases the pass's slot; returns the rider.
    ///
    /// Faults, with the pass handed back: `Stranger` if the slot isn't the pass's, `JournalFull`.
    pub fn release(&mut self, words: &Words<L>, pass: Pass<L>) -> Result<Rider<L>, (Fault, Pass<L>)>
        ensures made { let step = RELEASE pass.slot
            in MakesTouched self.old pass step (λ A. call_fault self.old A pass step)
            (λ A. with_share (length pass.touches + 1) pass.rider) self.new (without_back result) }
        ensures refused { IfErr result (λ back. back.1 ≡ pass) }
        ensures keeps { Keeps self.old self.new (without_back result) }
        ensures stamps { SameStamps self.old self.new }
    {
        let mut pass = pass;
        if let Err(fault) = self.known(&pass) {
            return Err((fault, pass));
        }
        let step = Step::Release { t: pass.own.slot };
        match self.call(words, &mut pass, &step) {
            Ok(_) => Ok(pass.abandon()),
            Err(fault) => Err((fault, pass)),
        }
    }

    /// Places a record of n words for the slot of a pass; returns the address of its first word.
    /// The record is on one page, and not below the tail that the pass saw. The pass then sees the
    /// record's end as its tail.
    ///
    /// Faults: `Stranger` if the slot isn't the pass's, `JournalFull`, `Size`, `SpaceSpent`,
    /// `Busy`.
    #[inline(always)]
    pub fn allocate(&mut self, words: &Words<L>, pass: &mut Pass<L>, n: u64) -> Result<u64, Fault>
        ensures made { let sizes = self.old.core.sizes
            in let p = pass.old
            in MakesTouched self.old p (ALLOCATE p.slot n) (λ A. call_fault self.old A p (ALLOCATE p.slot n))
            (λ A. place_of sizes.page_size (tail sizes (A ++ p.touches)) n) self.new result }
        ensures keeps { Keeps self.old self.new result }
        ensures stamps { SameStamps self.old self.new }
        ensures pass { let old = pass.old
            in MatchResult result
            (λ a. pass.new ≡ rested old.epoch (with_tail (a + n) (seen old)) old)
            (λ _. pass.new ≡ old) }
        ensures above { IfOk result (λ a. (seen pass.old).tail ≤ a) }
        ensures within { IfOk result (λ address. address + n ≤ 2 ^ 48) }
        ensures one_page { let page_size = self.old.core.sizes.page_size
            in IfOk result (λ a. a / page_size ≡ (a + n - 1) / page_size) }
    {
        self.known(pass)?;
        let epoch = pass.own.epoch;
        let seen = pass.own.view;
        let step = Step::Allocate {
            t: pass.own.slot,
            n,
        };
        match self.call(words, pass, &step)? {
            Reply::At(address) => {
                let view = View {
                    tail: address + n,
                    ..seen
                };
                pass.rest(epoch, view);
                Ok(address)
            }
            _ => unreachable!(),
        }
    }

    /// Protects a slot, at the current epoch and with the current offsets as its view; returns the
    /// rider's pass. The k-th accepted acquire stamps the slot with the domain's stamp plus k.
    ///
    /// Faults, with the rider handed back: `JournalFull`, `NoSlot`, `Occupied`.
    pub fn acquire(
        &mut self,
        _words: &Words<L>,
        t: u64,
        rider: Rider<L>,
    ) -> Result<Pass<L>, (Fault, Rider<L>)>
        ensures made { let old = self.old
            in Makes old (ACQUIRE t) (acquired_pass old t rider) self.new (without_back result) }
        ensures refused { IfErr result (λ back. back.1 ≡ rider) }
        ensures keeps { Keeps self.old self.new (without_back result) }
        ensures acquired { OnOk result (self.new.acquired ≡ self.old.acquired + 1) }
        ensures stamps { let old = self.old
            in OnOk result (self.new.stamps ≡ slice_set old.stamps t (old.stamp + old.acquired + 1)) }
    {
        if let Err(fault) = self.room(1) {
            return Err((fault, rider));
        }
        match self.core.acquire(t) {
            Ok(slot) => {
                let mut rider = rider;
                let step = Step::Acquire { t };
                note(&mut self.journal, &mut self.master, &mut rider, step);
                let stamp = self.stamps.give(t);
                Ok(Pass::new(t, stamp, slot, rider))
            }
            Err(fault) => Err((fault, rider)),
        }
    }

    /// Acquires the least slot that isn't protected; the pass tells which it is.
    ///
    /// Faults, with the rider handed back: `JournalFull`, `NoSlot` if each slot is protected.
    pub fn enter(&mut self, words: &Words<L>, rider: Rider<L>) -> Result<Pass<L>, (Fault, Rider<L>)>
        ensures made { let old = self.old
            in MakesAt old (λ A. ACQUIRE (least_free old.core.sizes A))
            (λ A. acquired_pass old (least_free old.core.sizes A) rider A) self.new (without_back result) }
        ensures refused { IfErr result (λ back. back.1 ≡ rider) }
        ensures keeps { Keeps self.old self.new (without_back result) }
        ensures acquired { OnOk result (self.new.acquired ≡ self.old.acquired + 1) }
    {
        let t = self.core.least_free();
        self.acquire(words, t, rider)
    }
}
