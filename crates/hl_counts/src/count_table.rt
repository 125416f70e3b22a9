ghost use Rattle.std.specs.Prelude.{◌≡◌, ℕ, ◌+◌, ◌-◌, ◌^◌, ◌<◌, ◌≤◌, Some, None, length, IfOk, IfErr, OnOk};
ghost use Rattle.hl_model.specs.Epochs.{Table};
ghost use Rattle.hl_model.specs.Replies.{unless_fault, unless_refused};
ghost use Rattle.hl_epoch.specs.Faults.{acquire_fault, protected_fault, bump_fault};
ghost use Rattle.hl_epoch.specs.Table.{epoch_at, safe_of, opened, entered, left, bumped, IsTable};
ghost use Rattle.hl_counts.specs.Counted.{climb_turns, refresh_turns};

use crate::placed::Placed;
use crate::ring::Ring;
use hl_epoch::{EPOCH_LAST, Epochs};
use hl_model::{Fault, filled};
use std::alloc::Global;
use std::marker::Model;

/// A table of epochs that is a row of slots, a ring of counts of their epochs, and the safe epoch.
#[derive(Drop)]
pub struct CountTable {
    current: Placed,
    // The epoch that comes next after the safe one.
    next: Placed,
    // It has no room beside its slots.
    epochs: Vec<Option<u64>>,
    window: u64,
    ring: Ring,
}

impl Model for CountTable {
    ghost use Rattle.hl_counts.specs.Counted.{Counted};

    ghost Value = { Counted };

    ghost use Rattle.hl_counts.specs.Kept.{counted_in, IsKept};

    ghost view = { counted_in };

    ghost invariant = { IsKept };
}

impl CountTable {
    /// Returns a table that goes on at this current epoch, 1 to 2^62, with this many slots, 1 to 1,024, none
    /// protected, and this window, 1 to 4,096, with no turns yet. At epoch 1 it is what `make` returns.
    ///
    /// Fault: `OutOfMemory` if memory is refused.
    pub fn resume(alloc: Global, slots: u64, window: u64, current: u64) -> Result<CountTable, Fault>
        requires slots_least { 1 ≤ slots }
        requires slots_most { slots ≤ 1024 }
        requires window_least { 1 ≤ window }
        requires window_most { window ≤ 4096 }
        requires current_least { 1 ≤ current }
        requires current_most { current ≤ 2 ^ 62 }
        ensures ok { IfOk result (λ made. made.table ≡ opened slots window current) }
        ensures turns { IfOk result (λ made. made.turns ≡ 0) }
        ensures err { IfErr result (λ fault. fault ≡ Fault.OutOfMemory) }
        ensures valid { IfOk result (λ made. IsTable made.table) }
    {
        let placed = Placed::of(current, window as usize + 1);
        Ok(CountTable {
            current: placed,
            next: placed,
            epochs: filled(alloc, slots, None)?,
            window,
            ring: Ring::make(alloc, window + 1)?,
        })
    }

    /// How many ring places were visited by the last accepted call of `acquire`, `refresh`, `release` or
    /// `bump`.
    pub fn turns(&self) -> u64
        ensures { result ≡ self.now.turns }
    {
        self.ring.turns()
    }

    // The epoch of slot t, if the slot is protected.
    #[inline(always)]
    fn protected_at(&self, t: u64) -> Result<u64, Fault>
        ensures ok { IfOk result (λ epoch. epoch_at t self.now.table ≡ Some epoch) }
        ensures within { OnOk result (t < length self.now.table.epochs) }
        ensures accepted { OnOk result (protected_fault t self.now.table ≡ None) }
        ensures err { IfErr result (λ fault. protected_fault t self.now.table ≡ Some fault) }
    {
        match self.epochs.get(t as usize) {
            None => Err(Fault::NoSlot),
            Some(None) => Err(Fault::NotProtected),
            Some(Some(epoch)) => Ok(*epoch),
        }
    }
}

impl Epochs for CountTable {
    ghost table = { λ t. t.table };

    /// With no turns yet.
    fn make(alloc: Global, slots: u64, window: u64) -> Result<CountTable, Fault>
        requires slots_least { 1 ≤ slots }
        requires slots_most { slots ≤ 1024 }
        requires window_least { 1 ≤ window }
        requires window_most { window ≤ 4096 }
        ensures ok { IfOk result (λ made. made.table ≡ opened slots window 1) }
        ensures turns { IfOk result (λ made. made.turns ≡ 0) }
        ensures err { IfErr result (λ fault. fault ≡ Fault.OutOfMemory) }
        ensures valid { IfOk result (λ made. IsTable made.table) }
    {
        CountTable::resume(alloc, slots, window, 1)
    }

    /// One turn.
    #[inline(always)]
    fn acquire(&mut self, t: u64) -> Result<(), Fault>
        ensures answer { result ≡ unless_fault (acquire_fault t self.old.table) tt }
        ensures effect { let old = self.old.table
            in self.new.table ≡ unless_refused (acquire_fault t old) old (entered t old) }
        ensures rising { safe_of self.old.table ≤ safe_of self.new.table }
        ensures valid { IsTable self.new.table }
        ensures turns { self.new.turns ≡ unless_refused (acquire_fault t self.old.table) self.old.turns 1 }
    {
        match self.epochs.get(t as usize) {
            None => Err(Fault::NoSlot),
            Some(Some(_)) => Err(Fault::Occupied),
            Some(None) => {
                self.ring.restart();
                self.ring.add(self.current);
                self.epochs[t as usize] = Some(self.current.epoch);
                Ok(())
            }
        }
    }

    /// No turn if the slot's epoch is the current one. Else a turn at the old epoch, one at the current
    /// epoch, and those of the climb: at most W + 2, whatever S is.
    #[inline(always)]
    fn refresh(&mut self, t: u64) -> Result<(), Fault>
        ensures answer { result ≡ unless_fault (protected_fault t self.old.table) tt }
        ensures effect { let old = self.old.table
            in self.new.table ≡ unless_refused (protected_fault t old) old (entered t old) }
        ensures rising { safe_of self.old.table ≤ safe_of self.new.table }
        ensures valid { IsTable self.new.table }
        ensures turns { let old = self.old in let visits = refresh_turns t old.table self.new.table
            in self.new.turns ≡ unless_refused (protected_fault t old.table) old.turns visits }
        ensures few { OnOk result (self.new.turns ≤ self.old.table.window + 2) }
    {
        let epoch = self.protected_at(t)?;
        self.ring.restart();
        if epoch == self.current.epoch {
            return Ok(());
        }
        let old = self.current.back_to(epoch, self.ring.places());
        self.ring.remove(old);
        self.ring.add(self.current);
        self.epochs[t as usize] = Some(self.current.epoch);
        self.next = self.ring.climb(self.next, self.current.epoch);
        Ok(())
    }

    /// A turn at the old epoch, and those of the climb: at most W + 1, whatever S is.
    #[inline(always)]
    fn release(&mut self, t: u64) -> Result<(), Fault>
        ensures answer { result ≡ unless_fault (protected_fault t self.old.table) tt }
        ensures effect { let old = self.old.table
            in self.new.table ≡ unless_refused (protected_fault t old) old (left t old) }
        ensures rising { safe_of self.old.table ≤ safe_of self.new.table }
        ensures valid { IsTable self.new.table }
        ensures turns { let old = self.old in let visits = 1 + climb_turns old.table self.new.table
            in self.new.turns ≡ unless_refused (protected_fault t old.table) old.turns visits }
        ensures few { OnOk result (self.new.turns ≤ self.old.table.window + 1) }
    {
        let epoch = self.protected_at(t)?;
        self.ring.restart();
        let left = self.current.back_to(epoch, self.ring.places());
        self.ring.remove(left);
        self.epochs[t as usize] = None;
        self.next = self.ring.climb(self.next, self.current.epoch);
        Ok(())
    }

    /// One turn, at the epoch that comes next after the safe one.
    #[inline(always)]
    fn bump(&mut self) -> Result<u64, Fault>
        requires { let old = self.old.table in old.current - 1 - safe_of old < old.window }
        ensures answer { let old = self.old.table in result ≡ unless_fault (bump_fault old) old.current }
        ensures effect { let old = self.old.table
            in self.new.table ≡ unless_refused (bump_fault old) old (bumped old) }
        ensures rising { safe_of self.old.table ≤ safe_of self.new.table }
        ensures valid { IsTable self.new.table }
        ensures turns { self.new.turns ≡ unless_refused (bump_fault self.old.table) self.old.turns 1 }
    {
        let ended = self.current.epoch;
        if ended == EPOCH_LAST {
            return Err(Fault::EpochsSpent);
        }
        self.current = self.current.next(self.ring.places());
        self.ring.restart();
        self.next = self.ring.climb(self.next, ended + 1);
        Ok(ended)
    }

    #[inline(always)]
    fn current(&self) -> u64 {
        self.current.epoch
    }

    #[inline(always)]
    fn safe(&self) -> u64 {
        self.next.epoch - 1
    }

    #[inline(always)]
    fn epoch_of(&self, t: u64) -> Option<u64> {
        *self.epochs.get(t as usize)?
    }
}
