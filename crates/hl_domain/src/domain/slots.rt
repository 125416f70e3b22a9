//! The locked calls of a pass, and the acquire that makes one.
ghost use Rattle.std.specs.Prelude.{◌≡◌, ◌+◌, ◌-◌, ◌/◌, ◌^◌, ◌≤◌, IfOk, IfErr, MatchResult};
ghost use Rattle.hl_model.specs.declared.step.Step.TheVariants.{Acquire as ACQUIRE, Release as RELEASE};
ghost use Rattle.hl_keeper.specs.Passes.{seen, with_rider, with_tail};
ghost use Rattle.hl_keeper.specs.Calls.{call_fault, without_back, pass_after, Makes, MakesAt, MakesTouched};
ghost use Rattle.hl_keeper.specs.Leases.{placed};
ghost use Rattle.hl_core.specs.Holding.{least_free};
ghost use Rattle.hl_domain.specs.Domains.{call_of, pass_call, enter_call, with_held, acquirer, releaser, MakesUnderLock, Refreshed};
ghost use Rattle.hl_domain.specs.Riders.{Allocates};

use crate::domain::Domain;
use crate::domain::held::Held;
use hl_action::{Promise, Task};
use hl_epoch::Epochs;
use hl_keeper::{Lease, Pass};
use hl_model::{Fault, View};
use hl_words::{Realm, Rider};
use std::sync::Wait;

impl<E: Epochs + Drop, F: Task, P: Promise, L: Realm> Domain<E, F, P, L> {
    /// Protects a slot, at the current epoch and with the current offsets as its view; returns the rider's pass. The
    /// k-th accepted acquire stamps it with the domain's stamp plus k.
    ///
    /// Faults, with the rider handed back: `JournalFull`, `NoSlot`, `Occupied`.
    pub fn acquire(
        &self,
        rt: &impl Wait,
        t: u64,
        rider: Rider<L>,
    ) -> Result<Pass<L>, (Fault, Rider<L>)>
        ensures met { let new = acquirer result
            in MakesUnderLock F self.now (call_of (ACQUIRE t) rider new) (without_back result)
            (λ old. Makes old (ACQUIRE t) (pass_after old t new)) }
    {
        handed!(self, rt, acquire(t, rider), Ok(pass) => pass.rider_mut(), Err(rider) => &mut rider)
    }

    /// An acquire of the least slot that isn't protected; the pass tells which it is.
    ///
    /// Faults, with the rider handed back: `JournalFull`, `NoSlot` if each slot is protected.
    pub fn enter(&self, rt: &impl Wait, rider: Rider<L>) -> Result<Pass<L>, (Fault, Rider<L>)>
        ensures met { let new = acquirer result
            in MakesUnderLock F self.now (enter_call self.now.sizes rider new) (without_back result)
            (λ old. MakesAt old (λ A. ACQUIRE (least_free old.core.sizes A))
            (λ A. pass_after old (least_free old.core.sizes A) new A)) }
    {
        handed!(self, rt, enter(rider), Ok(pass) => pass.rider_mut(), Err(rider) => &mut rider)
    }

    /// Moves a pass's slot on to the current epoch and offsets; returns the view, which isn't below what the pass
    /// saw.
    ///
    /// Faults: `Stranger` if the slot isn't the pass's, or the pass saw an offset above the present one;
    /// `JournalFull`.
    pub fn refresh(&self, rt: &impl Wait, pass: &mut Pass<L>) -> Result<View, Fault>
        ensures { Refreshed F self.now pass.old pass.new result }
    {
        locked!(self, rt, refresh(pass), pass.rider_mut())
    }

    /// Releases a pass's slot; returns the rider.
    ///
    /// Faults, with the pass handed back: `Stranger` if the slot isn't the pass's, `JournalFull`.
    pub fn release(&self, rt: &impl Wait, pass: Pass<L>) -> Result<Rider<L>, (Fault, Pass<L>)>
        ensures met { let step = RELEASE pass.slot
            in let new = releaser result
            in MakesUnderLock F self.now (pass_call pass step new) (without_back result) (λ old.
            MakesTouched old pass step (λ A. call_fault old A pass step) (λ A. new)) }
        ensures refused { IfErr result (λ back. back.1 ≡ with_rider back.1.rider pass) }
    {
        handed!(self, rt, release(pass), Ok(rider) => &mut rider, Err(pass) => pass.rider_mut())
    }

    /// Places a record of n words for the slot of a pass; returns the address of its first word. It is on
    /// one page, and not below the tail that the pass saw. The pass then sees the record's end as its tail.
    ///
    /// Faults: `Stranger` if the slot isn't the pass's, `JournalFull`, `Size`, `SpaceSpent`, `Busy`.
    pub fn allocate(&self, rt: &impl Wait, pass: &mut Pass<L>, n: u64) -> Result<u64, Fault>
        ensures met { Allocates F self.now n result pass.old pass.new.rider }
        ensures pass { let old = with_rider pass.new.rider pass.old
            in MatchResult result
            (λ a. pass.new ≡ with_held old.epoch (with_tail (a + n) (seen old)) old)
            (λ _. pass.new ≡ old) }
        ensures above { IfOk result (λ a. (seen pass.old).tail ≤ a) }
        ensures within { IfOk result (λ address. address + n ≤ 2 ^ 48) }
        ensures one_page { let page_size = self.now.sizes.page_size
            in IfOk result (λ a. a / page_size ≡ (a + n - 1) / page_size) }
    {
        locked!(self, rt, allocate(pass, n), pass.rider_mut())
    }

    /// Places a piece of n words as [`allocate`](Domain::allocate) places a record, and returns its lease, from which
    /// small records are taken without the lock.
    ///
    /// Faults: those of `allocate`.
    pub fn lease(&self, rt: &impl Wait, pass: &mut Pass<L>, n: u64) -> Result<Lease, Fault>
        ensures met { Allocates F self.now n (placed result) pass.old pass.new.rider }
        ensures pass { let old = with_rider pass.new.rider pass.old
            in MatchResult result
            (λ lease. pass.new ≡ with_held old.epoch (with_tail lease.end (seen old)) old)
            (λ _. pass.new ≡ old) }
        ensures piece { IfOk result (λ lease. lease.end ≡ lease.next + n) }
        ensures above { IfOk result (λ lease. (seen pass.old).tail ≤ lease.next) }
        ensures one_page { let page_size = self.now.sizes.page_size
            in IfOk result (λ lease. lease.next / page_size ≡ (lease.end - 1) / page_size) }
    {
        match self.allocate(rt, pass, n) {
            Ok(address) => Ok(Lease::of(address, n)),
            Err(fault) => Err(fault),
        }
    }
}
