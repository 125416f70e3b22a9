//! What a thread does in its slot without the lock: looks, stores, loads, and words changed in one step.
ghost use Rattle.hl_domain.specs.Words.{HasAdded, HasExchanged, HasLoaded, HasLooked, HasStored};
ghost use Rattle.std.specs.Prelude.{[], ◌∷◌, ◌+◌, ◌%◌, ◌^◌};
ghost use Rattle.hl_traces.specs.declared.act.Act.TheVariants.{Stored, Loaded, Changed};
ghost use Rattle.hl.specs.Sessions.{with_pass};
ghost use Rattle.hl.specs.Traces.{exchanged, if_ok, Does};

use super::Session;
use hl_action::{Promise, Task};
use hl_epoch::Epochs;
use hl_model::{Fault, View};
use hl_words::Realm;

impl<'a, R, L: Realm, F: Task, P: Promise, E: Epochs + Drop> Session<'a, R, L, F, P, E> {
    /// Looks at both offset words, without the lock. Returns what the session then sees.
    ///
    /// `TouchesFull` if it has 32 touches.
    #[inline(always)]
    pub fn look(&mut self) -> Result<View, Fault>
        ensures looked { HasLooked (λ p. with_pass p self.old) self.old.pass self.new.pass self.new result }
        ensures did { Does [] self.old self.new }
    {
        self.log.look(&mut self.pass)
    }

    /// Stores a word at an address, without the lock.
    ///
    /// Faults: `Below` if the address is below the read-only offset that the session saw, `Beyond`
    /// if it isn't below the tail that it saw, `TouchesFull` if it has 32 touches.
    #[inline(always)]
    pub fn store(&mut self, a: u64, v: u64) -> Result<(), Fault>
        ensures stored { HasStored (λ p. with_pass p self.old) self.old.log.sizes a v self.old.pass self.new result }
        ensures did { Does (if_ok (λ _. Stored a v ∷ []) result) self.old self.new }
    {
        self.log.store(&mut self.pass, a, v)
    }

    /// Loads the word at an address, without the lock.
    ///
    /// Faults: `Evicted` if the address is below the head that the session saw, `Beyond` if it
    /// isn't below the tail that it saw.
    #[inline(always)]
    pub fn load(&mut self, a: u64) -> Result<u64, Fault>
        ensures loaded { HasLoaded (λ p. with_pass p self.old) self.old.log.sizes a self.old.pass self.new result }
        ensures did { Does (if_ok (λ v. Loaded a v ∷ []) result) self.old self.new }
    {
        self.log.load(&mut self.pass, a)
    }

    /// Adds a number to the word at an address, modulo 2^64, without the lock and in one step: no
    /// store of another thread comes between. Returns what it found.
    ///
    /// Faults: those of [`store`](Session::store); then nothing is loaded.
    pub fn fetch_add(&mut self, a: u64, more: u64) -> Result<u64, Fault>
        ensures added { HasAdded (λ p. with_pass p self.old) self.old.log.sizes a more
            self.old.pass self.new result }
        ensures did { Does (if_ok (λ found. Changed a found ((found + more) % 2 ^ 64) ∷ []) result)
            self.old self.new }
    {
        self.log.fetch_add(&mut self.pass, a, more)
    }

    /// Stores a new value at an address if the old one stands there, without the lock and in one step: `Ok` with the old
    /// value, else `Err` with what it found.
    ///
    /// Faults: those of [`store`](Session::store); then nothing is loaded.
    pub fn compare_exchange(
        &mut self,
        a: u64,
        old: u64,
        new: u64,
    ) -> Result<Result<u64, u64>, Fault>
        ensures exchanged { HasExchanged (λ p. with_pass p self.old) self.old.log.sizes a old new
            self.old.pass self.new result }
        ensures did { Does (if_ok (exchanged a new) result) self.old self.new }
    {
        self.log.compare_exchange(&mut self.pass, a, old, new)
    }
}
