ghost use Rattle.std.specs.Prelude.{◌≡◌, ℕ, ◌+◌, ◌-◌, ◌%◌, ◌^◌, ◌<◌, ◌≤◌, ◌==◌, length, replicate, IfOk, IfErr};
ghost use Rattle.hl_counts.specs.Tallies.{count_at, added, removed, visited, HasPlace};

use crate::placed::Placed;
use hl_model::{Fault, filled};
use std::alloc::Global;
use std::marker::Model;

/// A ring of counts, one for each epoch of a run no longer than the ring, and the turns: how many places were
/// visited since `restart`. A place is looked at or changed only after a `visit` of it, which ticks.
#[derive(Drop)]
pub struct Ring {
    // It has no room beside its places.
    counts: Vec<u16>,
    turns: u64,
}

impl Model for Ring {
    ghost use Rattle.std.specs.Prelude.{◌≡◌, ◌<◌, vec_len, vec_capacity};
    ghost use Rattle.hl_counts.specs.Tallies.{RingRecord};

    ghost Value = { RingRecord };

    ghost view = { λ a. record { counts = a.counts.items; turns = a.turns } };

    ghost invariant = { λ a. (0 < vec_len a.counts) × (vec_capacity a.counts ≡ vec_len a.counts) };
}

impl Ring {
    /// Returns a ring of this many places, which count nothing.
    ///
    /// Fault: `OutOfMemory` if memory is refused.
    pub fn make(alloc: Global, places: u64) -> Result<Ring, Fault>
        requires { 0 < places }
        ensures counts { IfOk result (λ made. made.counts ≡ replicate places 0) }
        ensures turns { IfOk result (λ made. made.turns ≡ 0) }
        ensures err { IfErr result (λ fault. fault ≡ Fault.OutOfMemory) }
    {
        Ok(Ring {
            counts: filled(alloc, places, 0)?,
            turns: 0,
        })
    }

    /// How many places it has.
    pub fn places(&self) -> usize
        ensures { result ≡ length self.now.counts }
    {
        self.counts.len()
    }

    /// How many places were visited since `restart`.
    pub fn turns(&self) -> u64
        ensures { result ≡ self.now.turns }
    {
        self.turns
    }

    /// Counts the turns anew.
    pub fn restart(&mut self)
        ensures counts { self.new.counts ≡ self.old.counts }
        ensures turns { self.new.turns ≡ 0 }
    {
        // A number that is 0 isn't written: a refresh that finds the epoch as it was leaves its line of a cache shared.
        if self.turns != 0 {
            self.turns = 0;
        }
    }

    // The place of an epoch. Here a turn ticks.
    fn visit(&mut self, at: Placed) -> usize
        requires few { self.old.turns < 2 ^ 32 }
        requires placed { HasPlace at self.old.counts }
        ensures place { result ≡ at.epoch % length self.old.counts }
        ensures within { result < length self.old.counts }
        ensures counts { self.new.counts ≡ self.old.counts }
        ensures turns { self.new.turns ≡ self.old.turns + 1 }
    {
        self.turns += 1;
        at.place
    }

    /// Counts one slot more at an epoch. One turn.
    pub fn add(&mut self, at: Placed)
        requires few { self.old.turns < 2 ^ 32 }
        requires placed { HasPlace at self.old.counts }
        requires room { count_at at.epoch self.old.counts < 65535 }
        ensures counts { self.new.counts ≡ added at.epoch self.old.counts }
        ensures turns { self.new.turns ≡ self.old.turns + 1 }
    {
        let place = self.visit(at);
        self.counts[place] += 1;
    }

    /// Counts one slot less at an epoch. One turn.
    pub fn remove(&mut self, at: Placed)
        requires few { self.old.turns < 2 ^ 32 }
        requires placed { HasPlace at self.old.counts }
        requires some { 0 < count_at at.epoch self.old.counts }
        ensures counts { self.new.counts ≡ removed at.epoch self.old.counts }
        ensures turns { self.new.turns ≡ self.old.turns + 1 }
    {
        let place = self.visit(at);
        self.counts[place] -= 1;
    }

    // Whether no slot is counted at an epoch. One turn.
    fn is_empty_at(&mut self, at: Placed) -> bool
        requires few { self.old.turns < 2 ^ 32 }
        requires placed { HasPlace at self.old.counts }
        ensures value { result ≡ (count_at at.epoch self.old.counts == 0) }
        ensures counts { self.new.counts ≡ self.old.counts }
        ensures turns { self.new.turns ≡ self.old.turns + 1 }
    {
        let place = self.visit(at);
        self.counts[place] == 0
    }

    /// Returns the first epoch from this one on at which a slot is counted, or the current one if none is
    /// below it. One turn for each epoch that it passes, and one for the epoch that stops it.
    pub fn climb(&mut self, from: Placed, current: u64) -> Placed
        requires placed { HasPlace from self.old.counts }
        requires most { from.epoch ≤ current }
        requires few { self.old.turns + (current - from.epoch) < 2 ^ 32 }
        requires room { (current < 2 ^ 63) × (length self.old.counts < 2 ^ 32) }
        ensures placed { HasPlace result self.old.counts }
        ensures rises { from.epoch ≤ result.epoch }
        ensures stays { result.epoch ≤ current }
        ensures passed { (e : ℕ) → from.epoch ≤ e → e < result.epoch → count_at e self.old.counts ≡ 0 }
        ensures stopped { result.epoch < current → 0 < count_at result.epoch self.old.counts }
        ensures counts { self.new.counts ≡ self.old.counts }
        ensures turns { self.new.turns ≡ self.old.turns + visited from.epoch result.epoch current }
    {
        let mut risen = from;
        while risen.epoch < current {
            if !self.is_empty_at(risen) {
                return risen;
            }
            risen = risen.next(self.counts.len());
        }
        risen
    }
}
