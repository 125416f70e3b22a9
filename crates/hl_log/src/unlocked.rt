//! What a pass does without the lock. Its rider records each store, load and change of a word.
ghost use Rattle.std.specs.Prelude.{◌≡◌, None, Some, length, IfSome, MatchResult};
ghost use Rattle.hl_model.specs.Replies.{unless_fault, unless_refused};
ghost use Rattle.hl_words.specs.declared.which.Which.TheVariants.{ReadOnly as READ_ONLY, Head as HEAD};
ghost use Rattle.hl_words.specs.Views.{stored, loaded, added, exchanged};
ghost use Rattle.hl_log.specs.Addresses.{row_fault};
ghost use Rattle.hl_log.specs.Loads.{loaded_news, loaded_row, IsLaterNews};
ghost use Rattle.hl_log.specs.Passes.{cell_of, with_act, with_look, IsLaterLoad, IsRisen};
ghost use Rattle.hl_pass.specs.Views.{store_fault, load_fault, is_current};

use crate::pass::Pass;
use crate::shared::Shared;
use hl_model::Fault;
use hl_pass::{News, is_current, may_load, may_store, raised};
use hl_words::Which;

impl Pass {
    /// Stores a word of 64 bits at an address of the log; addresses count words.
    ///
    /// Faults: `Below` if the address is below the read-only offset that the pass sees, `Beyond` if it isn't
    /// below the tail that it sees.
    #[inline(always)]
    pub fn store(&mut self, address: u64, word: u64) -> Result<(), Fault>
        ensures answer { result ≡ unless_fault (store_fault self.old.own.view address) tt }
        ensures did { self.new ≡ unless_refused (store_fault self.old.own.view address) self.old
            (with_act (stored (cell_of self.old address) word) self.old) }
        ensures own { self.new.own ≡ self.old.own }
    {
        self.may_store(address)?;
        let shared: &Shared = &self.shared;
        let cell = shared.cell(address);
        shared.words.store_cell(&mut self.rider, cell, word);
        Ok(())
    }

    /// Adds to the word of an address in one step, modulo 2^64: what it found. Faults as those of a store.
    #[inline(always)]
    pub fn fetch_add(&mut self, address: u64, more: u64) -> Result<u64, Fault>
        ensures did { let met = store_fault self.old.own.view address
            in MatchResult result
            (λ found. (met ≡ None) × (self.new ≡ with_act (added (cell_of self.old address) more found) self.old))
            (λ fault. (met ≡ Some fault) × (self.new ≡ self.old)) }
        ensures own { self.new.own ≡ self.old.own }
    {
        self.may_store(address)?;
        let shared: &Shared = &self.shared;
        let cell = shared.cell(address);
        Ok(shared.words.fetch_add_cell(&mut self.rider, cell, more))
    }

    /// Stores a word where this one stands, in one step; returns what it found, which is the word looked for
    /// if it stored. Faults as those of a store.
    #[inline(always)]
    pub fn compare_exchange(&mut self, address: u64, current: u64, word: u64) -> Result<u64, Fault>
        ensures did { let met = store_fault self.old.own.view address
            in let cell = cell_of self.old address
            in MatchResult result
            (λ found. (met ≡ None) × (self.new ≡ with_act (exchanged cell current word found) self.old))
            (λ fault. (met ≡ Some fault) × (self.new ≡ self.old)) }
        ensures own { self.new.own ≡ self.old.own }
    {
        self.may_store(address)?;
        let shared: &Shared = &self.shared;
        let cell = shared.cell(address);
        Ok(
            shared
                .words
                .compare_exchange_cell(&mut self.rider, cell, current, word),
        )
    }

    /// Loads the word of an address.
    ///
    /// Faults: `Evicted` if the address is below the head that the pass sees, `Beyond` if it isn't below the
    /// tail that it sees.
    #[inline(always)]
    pub fn load(&mut self, address: u64) -> Result<u64, Fault>
        ensures did { let met = load_fault self.old.own.view address
            in MatchResult result
            (λ found. (met ≡ None) × (self.new ≡ with_act (loaded (cell_of self.old address) found) self.old))
            (λ fault. (met ≡ Some fault) × (self.new ≡ self.old)) }
        ensures own { self.new.own ≡ self.old.own }
    {
        may_load(self.own.view, address)?;
        let shared: &Shared = &self.shared;
        let cell = shared.cell(address);
        Ok(shared.words.load_cell(&mut self.rider, cell))
    }

    /// Loads the words from an address on, as many as there are places.
    ///
    /// Faults: `Evicted` if the address is below the head that the pass sees, `Beyond` if the last of them
    /// isn't below the tail that it sees; then nothing is loaded.
    pub fn load_into(&mut self, address: u64, words: &mut [u64]) -> Result<(), Fault>
        ensures answer { result ≡ unless_fault (row_fault self.old.own.view address (length words.old)) tt }
        ensures kept { IfSome (row_fault self.old.own.view address (length words.old))
            (λ _. words.new ≡ words.old) }
        ensures did { self.new ≡ unless_refused (row_fault self.old.own.view address (length words.old))
            self.old (with_act (loaded_row self.old.shared.sizes address words.new) self.old) }
        ensures own { self.new.own ≡ self.old.own }
        ensures places { length words.new ≡ length words.old }
    {
        let view = self.own.view;
        if address < view.head {
            return Err(Fault::Evicted { head: view.head });
        }
        if view.tail.saturating_sub(address) < words.len() as u64 {
            return Err(Fault::Beyond { tail: view.tail });
        }
        let shared: &Shared = &self.shared;
        shared.load_row(&mut self.rider, address, words);
        Ok(())
    }

    /// Loads both offset words, the read-only offset's and the head's: each of the two offsets that the pass
    /// sees becomes the greater of its own and the loaded one. Returns what it loaded, neither below what it
    /// loaded of it before. The next call under the lock enters the look.
    #[inline(always)]
    pub fn look(&mut self) -> (u64, u64)
        ensures pass { self.new ≡ with_look result.0 result.1 self.old }
        ensures later { IsLaterLoad READ_ONLY self.old result.0 × IsLaterLoad HEAD self.old result.1 }
        ensures risen { IsRisen self.old → IsRisen self.new }
    {
        let shared: &Shared = &self.shared;
        let read_only = shared.words.load_offset(&mut self.rider, Which::ReadOnly);
        let head = shared.words.load_offset(&mut self.rider, Which::Head);
        // Most often nothing rose, and nothing is written.
        if read_only > self.own.view.read_only || head > self.own.view.head {
            self.own.view = raised(self.own.view, read_only, head);
        }
        (read_only, head)
    }

    /// Loads all three words; returns whether none is new to the pass, and what it loaded, none of it below what it
    /// loaded of that word before. If none is new, neither offset is above the one that the pass sees, and its epoch has
    /// not ended.
    #[inline(always)]
    pub fn keeps_up(&mut self) -> (bool, News)
        ensures answer { result.0 ≡ is_current self.old.own.view self.old.own.epoch result.1 }
        ensures did { self.new ≡ with_act (loaded_news result.1) self.old }
        ensures later { IsLaterNews result.1 self.old.rider.view }
        ensures own { self.new.own ≡ self.old.own }
    {
        let shared: &Shared = &self.shared;
        let news = shared.news(&mut self.rider);
        (is_current(self.own.view, self.own.epoch, news), news)
    }

    /// Whether it may store at an address.
    #[inline(always)]
    fn may_store(&self, address: u64) -> Result<(), Fault>
        ensures { result ≡ unless_fault (store_fault self.now.own.view address) tt }
    {
        may_store(self.own.view, address)
    }
}
