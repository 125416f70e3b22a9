//! Whole records: placed and stored by one call, or loaded by one.
ghost use Rattle.std.specs.Prelude.{◌≡◌, ◌≢◌, ◌+◌, ◌-◌, ◌/◌, ◌^◌, ◌≤◌, [], ◌∷◌, length, Some, IfOk, MatchResult};
ghost use Rattle.hl_model.specs.declared.fault.Fault.TheVariants.{TouchesFull as FULL};
ghost use Rattle.hl_model.specs.Replies.{unless_fault};
ghost use Rattle.hl_keeper.specs.Passes.{store_fault};
ghost use Rattle.hl_domain.specs.Words.{HasStored};
ghost use Rattle.hl.specs.Records.{row_fault, with_loads, AreStored, RefusesStore, StopsAt, Places, Appends};
ghost use Rattle.hl.specs.Sessions.{tail_seen, with_pass};
ghost use Rattle.hl_traces.specs.Records.{loads_from};
ghost use Rattle.hl.specs.Traces.{acts, AppendsBy, Does, OnlyMeets, PlacesBy, Stores, StoresSome};

use super::Session;
use hl_action::{Promise, Task};
use hl_epoch::Epochs;
use hl_model::Fault;
use hl_words::Realm;
use std::sync::Wait;

/// How often a record is placed anew that became read-only before all of its words were stored.
const PLACES_ANEW: u32 = 63;

impl<'a, R: Wait, L: Realm, F: Task, P: Promise, E: Epochs + Drop> Session<'a, R, L, F, P, E> {
    /// Places a record and stores its words. Returns the address of its first word. The record is on one page, and not below
    /// the tail that the session saw. It ends at the tail that the session then sees, or below: so a session's next record
    /// lies above this one.
    ///
    /// A session has room for 32 touches, so it refreshes before a word for which it has none. If the record has become
    /// read-only by then, it is placed anew, at most 63 times. What was stored of it before stays as it is, at a place of
    /// which nobody was told.
    ///
    /// Faults: those of [`allocate`](Session::allocate), among them `Size` if there are no words or more than a page has;
    /// `JournalFull` of a refresh; `Below` if it was placed 64 times, and each place became read-only. What was placed
    /// before stays placed.
    pub fn append(&mut self, words: &[u64]) -> Result<u64, Fault>
        ensures appended { Appends F self.old.log words.now 63 self.old.pass self.new.pass result }
        ensures did { AppendsBy 63 words.now result self.old self.new }
        ensures above { IfOk result (λ address. tail_seen self.old ≤ address) }
        ensures sees { IfOk result (λ address. address + length words.now ≤ tail_seen self.new) }
        ensures within { IfOk result (λ address. address + length words.now ≤ 2 ^ 48) }
        ensures one_page { let page_size = self.old.log.sizes.page_size
            in IfOk result (λ a. a / page_size ≡ (a + length words.now - 1) / page_size) }
        ensures log { self.new.log ≡ self.old.log }
        ensures beside { self.new.beside ≡ self.old.beside }
    {
        for _ in 0..PLACES_ANEW {
            match self.place(words) {
                Err(Fault::Below { .. }) => {}
                placed => return placed,
            }
        }
        self.place(words)
    }

    // The same, once.
    fn place(&mut self, words: &[u64]) -> Result<u64, Fault>
        ensures places { Places F self.old.log words.now self.old.pass self.new.pass result }
        ensures did { PlacesBy words.now result self.old self.new }
        ensures rises { tail_seen self.old ≤ tail_seen self.new }
        ensures above { IfOk result (λ address. tail_seen self.old ≤ address) }
        ensures sees { IfOk result (λ address. address + length words.now ≤ tail_seen self.new) }
        ensures within { IfOk result (λ address. address + length words.now ≤ 2 ^ 48) }
        ensures one_page { let page_size = self.old.log.sizes.page_size
            in IfOk result (λ a. a / page_size ≡ (a + length words.now - 1) / page_size) }
        ensures log { self.new.log ≡ self.old.log }
        ensures beside { self.new.beside ≡ self.old.beside }
    {
        let address = match self.allocate(words.len() as u64) {
            Ok(address) => address,
            Err(fault) => return Err(fault),
        };
        match self.store_all(address, words) {
            Ok(()) => Ok(address),
            Err(fault) => Err(fault),
        }
    }

    // Stores words from an address on, with a refresh before each for which there is no room.
    fn store_all(&mut self, address: u64, words: &[u64]) -> Result<(), Fault>
        requires { address + length words.now ≤ 2 ^ 48 }
        ensures stored { MatchResult result
            (λ _. AreStored self.old.log.sizes address words.now self.old.pass self.new.pass)
            (λ fault. StopsAt F self.old.log address words.now fault self.old.pass self.new.pass) }
        ensures did { MatchResult result (λ _. Stores address words.now self.old self.new)
            (λ _. StoresSome address words.now self.old self.new) }
        ensures rises { tail_seen self.old ≤ tail_seen self.new }
        ensures log { self.new.log ≡ self.old.log }
        ensures beside { self.new.beside ≡ self.old.beside }
    {
        for k in 0..words.len() {
            match self.store_one(address + k as u64, words[k]) {
                Ok(()) => {}
                Err(fault) => return Err(fault),
            }
        }
        Ok(())
    }

    // Stores a word, after a refresh if there is no room for a touch.
    fn store_one(&mut self, address: u64, word: u64) -> Result<(), Fault>
        ensures alone { store_fault self.old.pass address ≢ Some FULL
            → HasStored (λ p. with_pass p self.old) self.old.log.sizes address word self.old.pass
            self.new result }
        ensures stored { MatchResult result
            (λ _. AreStored self.old.log.sizes address (word ∷ []) self.old.pass self.new.pass)
            (λ fault. RefusesStore F self.old.log address fault self.old.pass self.new.pass) }
        ensures did { MatchResult result (λ _. Stores address (word ∷ []) self.old self.new)
            (λ _. OnlyMeets self.old self.new) }
        ensures rises { tail_seen self.old ≤ tail_seen self.new }
        ensures log { self.new.log ≡ self.old.log }
        ensures beside { self.new.beside ≡ self.old.beside }
    {
        match self.store(address, word) {
            Ok(()) => Ok(()),
            Err(fault) => match fault {
                Fault::TouchesFull => self.store_refreshed(address, word),
                _ => Err(fault),
            },
        }
    }

    // The same, after a refresh: there is no room.
    fn store_refreshed(&mut self, address: u64, word: u64) -> Result<(), Fault>
        requires { store_fault self.old.pass address ≡ Some FULL }
        ensures stored { MatchResult result
            (λ _. AreStored self.old.log.sizes address (word ∷ []) self.old.pass self.new.pass)
            (λ fault. RefusesStore F self.old.log address fault self.old.pass self.new.pass) }
        ensures did { MatchResult result (λ _. Stores address (word ∷ []) self.old self.new)
            (λ _. OnlyMeets self.old self.new) }
        ensures rises { tail_seen self.old ≤ tail_seen self.new }
        ensures log { self.new.log ≡ self.old.log }
        ensures beside { self.new.beside ≡ self.old.beside }
    {
        match self.refresh() {
            Ok(_) => self.store(address, word),
            Err(fault) => Err(fault),
        }
    }
}

impl<'a, R, L: Realm, F: Task, P: Promise, E: Epochs + Drop> Session<'a, R, L, F, P, E> {
    /// Loads the words from an address on, as many as there are places.
    ///
    /// Faults: `Evicted` if the address is below the head that the session saw, `Beyond` if the last of them isn't below
    /// the tail that it saw; then nothing is loaded.
    #[tactic(auto, unfolding(crate::specs::Records::row_fault))]
    pub fn load_into(&mut self, address: u64, words: &mut [u64]) -> Result<(), Fault>
        ensures answer { result ≡ unless_fault (row_fault self.old.pass address (length words.old)) tt }
        ensures loads { let old = self.old
            in MatchResult result
            (λ _. self.new ≡ with_pass (with_loads old.log.sizes address words.new old.pass) old)
            (λ _. (self.new ≡ old) × (words.new ≡ words.old)) }
        ensures did { MatchResult result (λ _. acts self.new ≡ loads_from address words.new (acts self.old))
            (λ _. Does [] self.old self.new) }
        ensures length { length words.new ≡ length words.old }
    {
        let view = self.view();
        if address < view.head {
            return Err(Fault::Evicted { head: view.head });
        }
        if view.tail.saturating_sub(address) < words.len() as u64 {
            return Err(Fault::Beyond { tail: view.tail });
        }
        for k in 0..words.len() {
            match self.load(address + k as u64) {
                Ok(word) => words[k] = word,
                Err(_) => unreachable!(),
            }
        }
        Ok(())
    }
}
