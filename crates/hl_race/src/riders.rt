//! What a rider of a race does in its thread.
use crate::course::Course;
use hl_domain::Pass;
use hl_model::Fault;
use hl_words::{Realm, Rider};
use std::sync::Wait;
use std::sync::atomic::Ordering;

impl<R: Wait, L: Realm> Course<'_, R, L> {
    /// Acquires the slot, makes the rounds, and releases it. A pass that met a fault that ends it is abandoned. Each load
    /// that was answered by a word is counted.
    pub(crate) fn ride(&self, rider: Rider<L>, slot: u64) -> Rider<L> {
        let mut pass = match self.domain.acquire(self.rt, slot, rider) {
            Ok(pass) => pass,
            Err((_, rider)) => return rider,
        };
        for round in 0..self.race.rounds() {
            let value = 1000u64.wrapping_mul(slot).wrapping_add(round);
            if self.make_round(&mut pass, value).is_err() {
                return pass.abandon();
            }
        }
        match self.domain.release(self.rt, pass) {
            Ok(rider) => rider,
            Err((_, pass)) => pass.abandon(),
        }
    }

    // Allocates a word, stores the value there and loads it, if there was room; then refreshes.
    //
    // Faults, which end the rider: `Stranger`, `JournalFull`.
    fn make_round(&self, pass: &mut Pass<L>, value: u64) -> Result<(), Fault> {
        match self.domain.allocate(self.rt, pass, 1) {
            Ok(address) => {
                self.domain.store(pass, address, value)?;
                self.domain.load(pass, address)?;
                self.loads.fetch_add(1, Ordering::SeqCst);
            }
            Err(fault @ (Fault::Stranger { .. } | Fault::JournalFull)) => return Err(fault),
            // The pages have no room yet.
            Err(_) => {}
        }
        self.domain.refresh(self.rt, pass)?;
        Ok(())
    }
}
