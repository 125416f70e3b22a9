//! What riders do without the lock.
ghost use Rattle.std.specs.Prelude.{◌≡◌, ◌≤◌, ◌==◌, length, IfOk, OnOk, IfErr, OnErr};
ghost use Rattle.hl_model.specs.declared.fault.Fault.TheVariants.{Beyond as BEYOND};
ghost use Rattle.hl_model.specs.Replies.{unless_fault};
ghost use Rattle.hl_words.specs.States.{with_view};
ghost use Rattle.hl_keeper.specs.Passes.{seen};
ghost use Rattle.hl_keeper.specs.Regions.{IsRegion};
ghost use Rattle.hl_keeper.specs.Calls.{unless_stranger};
ghost use Rattle.hl_keeper.specs.Pages.{first_cell, zeroed, loaded_all};
ghost use Rattle.hl_domain.specs.Words.{HasAdded, HasExchanged, HasLoaded, HasLooked, HasStored};

use crate::domain::Domain;
use hl_action::{Promise, Task};
use hl_epoch::Epochs;
use hl_keeper::{Broom, PageJob, Pass, Region, unlocked};
use hl_model::{Fault, View};
use hl_words::{Realm, Rider};

impl<E: Epochs + Drop, F: Task, P: Promise, L: Realm> Domain<E, F, P, L> {
    /// Looks at both offset words: each of the pass's two offsets becomes the greater of the loaded and its own.
    /// A look that raises neither is no touch. Returns what the pass then sees. Neither load is below any
    /// that the rider loaded of that word before.
    ///
    /// `TouchesFull` if the pass has 32 touches; then nothing is loaded.
    #[inline(always)]
    pub fn look(&self, pass: &mut Pass<L>) -> Result<View, Fault>
        ensures { HasLooked (λ p. p) pass.old pass.new pass.new result }
    {
        unlocked::look(&self.words, pass)
    }

    /// Stores a word at an address of the log.
    ///
    /// Faults: `Below` if the address is below the read-only offset that the pass saw, `Beyond` if it
    /// isn't below the tail that it saw, `TouchesFull` if it has 32 touches.
    #[inline(always)]
    pub fn store(&self, pass: &mut Pass<L>, a: u64, v: u64) -> Result<(), Fault>
        ensures { HasStored (λ p. p) self.now.sizes a v pass.old pass.new result }
    {
        unlocked::store(&self.words, self.params, pass, a, v)
    }

    /// Loads the word at an address of the log. It is no touch: no step of the journal tells it.
    ///
    /// Faults: `Evicted` if the address is below the head that the pass saw, `Beyond` if it isn't below
    /// the tail that it saw.
    #[inline(always)]
    pub fn load(&self, pass: &mut Pass<L>, a: u64) -> Result<u64, Fault>
        ensures { HasLoaded (λ p. p) self.now.sizes a pass.old pass.new result }
    {
        unlocked::load(&self.words, self.params, pass, a)
    }

    /// Tells in which region of the log an address is, as an engine asks before it changes a record. Below the read-only
    /// offset that the pass saw it loads the word of the safe read-only offset, and no more: that is no touch, and no step.
    ///
    /// `Beyond` if the address isn't below the tail that the pass saw, nor evicted.
    #[inline(always)]
    pub fn region(&self, pass: &mut Pass<L>, a: u64) -> Result<Region, Fault>
        ensures region { IfOk result (λ region. IsRegion pass.old pass.new a region) }
        ensures beyond { let saw = seen pass.old
            in IfErr result (λ fault. (fault ≡ BEYOND saw.tail) × (saw.head ≤ a) × (saw.tail ≤ a)
            × (pass.new ≡ pass.old)) }
    {
        unlocked::region(&self.words, pass, a)
    }

    /// Adds a number to the word at an address of the log, modulo 2^64, in one step: no store of another rider comes
    /// between its load and its store. Returns what it found. It is a touch, the write of the sum.
    ///
    /// Faults, those of a store: `Below`, `Beyond`, `TouchesFull`; then nothing is loaded.
    pub fn fetch_add(&self, pass: &mut Pass<L>, a: u64, more: u64) -> Result<u64, Fault>
        ensures { HasAdded (λ p. p) self.now.sizes a more pass.old pass.new result }
    {
        unlocked::fetch_add(&self.words, self.params, pass, a, more)
    }

    /// Stores a new value at an address of the log if the old one stands there, in one step: `Ok` with the old value,
    /// which is a touch, the write of the new one; else `Err` with what it found, which is a load.
    ///
    /// Faults, those of a store: `Below`, `Beyond`, `TouchesFull`; then nothing is loaded.
    pub fn compare_exchange(
        &self,
        pass: &mut Pass<L>,
        a: u64,
        old: u64,
        new: u64,
    ) -> Result<Result<u64, u64>, Fault>
        ensures { HasExchanged (λ p. p) self.now.sizes a old new pass.old pass.new result }
    {
        unlocked::compare_exchange(&self.words, self.params, pass, a, old, new)
    }

    /// Loads the cells of a page into P places: a page in flight, for whoever has the job of its load. Their order
    /// among other riders' stores isn't known.
    ///
    /// `Stranger` if the page is of another domain.
    pub fn copy_page(
        &self,
        job: PageJob,
        rider: &mut Rider<L>,
        out: &mut [u64],
    ) -> Result<(), Fault>
        requires { length out.old ≡ self.now.sizes.page_size }
        ensures answer { let stamp = self.now.stamp
            in result ≡ unless_fault (unless_stranger (job.stamp == stamp) stamp) tt }
        ensures loads { let old = rider.old
            in let first = first_cell self.now.sizes job.page
            in OnOk result (rider.new ≡ with_view (loaded_all first out.new old.view) old) }
        ensures refused { OnErr result ((rider.new ≡ rider.old) × (out.new ≡ out.old)) }
    {
        unlocked::copy_page(&self.words, self.params, self.stamp, job, rider, out)
    }

    /// Stores 0 into all cells of the page of a broom, which is swept then.
    ///
    /// `Stranger` if the page is of another domain.
    pub fn sweep(&self, broom: &mut Broom, rider: &mut Rider<L>) -> Result<(), Fault>
        ensures answer { let stamp = self.now.stamp
            in result ≡ unless_fault (unless_stranger (broom.old.stamp == stamp) stamp) tt }
        ensures broom { let old = broom.old
            in OnOk result
            (broom.new ≡ record { stamp = old.stamp; page = old.page; swept = self.now.sizes.page_size }) }
        ensures stores { let old = rider.old
            in let first = first_cell self.now.sizes broom.old.page
            in OnOk result (rider.new ≡ with_view (zeroed first self.now.sizes.page_size old.view) old) }
        ensures refused { OnErr result ((broom.new ≡ broom.old) × (rider.new ≡ rider.old)) }
    {
        unlocked::sweep(&self.words, self.params, self.stamp, broom, rider)
    }
}
