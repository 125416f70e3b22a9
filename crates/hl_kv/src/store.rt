//! The index, and what is done to one key, after FASTER's section on the HybridLog.
//!
//! | To its thread's session the record is | A read | An upsert | An add |
//! |---|---|---|---|
//! | mutable: not below the read-only offset | loads | stores in place | adds in place |
//! | fuzzy: not below the safe read-only offset | loads | places a new record | waits |
//! | read-only: not below the head | loads | places a new record | copies |
//! | evicted | reads its page's image | places a new record | copies from the image |
//!
//! **No add is lost.** Each thread looks a record up after its last refresh. The safe read-only offset passes the record
//! once each thread has refreshed to a view that lets it write there no more: then it stays as it is, and may be copied. In
//! the fuzzy region a thread of an older view may still add in place, so an add waits. An upsert needn't: an add in place
//! that comes after it began before it ended, and counts as the earlier one.
//!
//! **No record is lost** with a page that the device lets go. What was the newest of its key there was moved to the tail, and
//! of a chain nothing else is behind it: each record lies above those behind it.
use crate::device::{Device, PAGE_SIZE, PLACES, zeros};
use hl::{Curable, Cure, Fault, Helped, Helping, Lease, Realm, Region, Session, attempt};
use std::alloc::{AllocError, Global};
use std::sync::Wait;
use std::sync::atomic::AtomicU64;
use std::sync::atomic::Ordering::SeqCst;
use thiserror::Error;

/// How often an operation is attempted, and how many records of a chain are looked at.
const TRIES: u32 = 100_000;

/// How many words the device keeps. The other places are for what is written while a page is let go.
const WORDS_MOST: u64 = (PLACES - 512) * PAGE_SIZE;

/// A record is its key, its value, and where the record before it in its chain has its value: 0 if there is none.
const RECORD_WORDS: u64 = 3;

/// How many words a piece has: records for an eighth of a page.
const PIECE: u64 = PAGE_SIZE / RECORD_WORDS / 8 * RECORD_WORDS;

/// What is done to a key.
#[derive(Clone, Copy)]
pub(crate) enum Operation {
    Read,
    Upsert(u64),
    /// Adds modulo 2^64; to 0 if the key has no value.
    Add(u64),
    /// Copies the record that has its value at this address to the tail, if that is still the newest. It is on the device.
    Move(u64),
}

/// Why a try came to nothing.
#[derive(Debug, Drop, Error)]
pub(crate) enum Trouble {
    #[error("{0}")]
    Log(#[from] Fault),
    #[error("another thread changed the chain, or let a page of it go")]
    Raced,
    #[error("the record is read-only for this thread, and maybe not yet for every other")]
    Fuzzy,
}

impl Curable for Trouble {
    fn cure(&self) -> Option<Cure> {
        match self {
            // The chain is looked up anew; or the record was placed too late.
            Trouble::Raced | Trouble::Log(Fault::Below { .. }) => Some(Cure::Refresh),
            Trouble::Fuzzy => Some(Cure::Others),
            Trouble::Log(fault) => fault.cure(),
        }
    }
}

/// A store, which threads share: each has a seat, with a session of the log where the records are.
#[derive(Drop)]
pub(crate) struct Store {
    pub(crate) device: Device,
    // Each leads to the newest record of its chain, by where that has its value; 0 if there is none. A record is published
    // once, so an exchange that finds the one loaded before knows that nothing happened in between.
    buckets: Vec<AtomicU64>,
}

impl Store {
    /// An empty store for about so many keys: it has the next power of two of chains.
    pub(crate) fn open(alloc: Global, keys: u64) -> Result<Store, AllocError> {
        let chains = keys.checked_next_power_of_two().ok_or(AllocError)?;
        Ok(Store {
            device: Device::open(alloc)?,
            buckets: zeros(alloc, chains)?,
        })
    }

    // The bucket of a key. The factor, 2^64 divided by the golden ratio, spreads keys well (Fibonacci hashing).
    fn bucket(&self, key: u64) -> Result<&AtomicU64, Fault> {
        let spread = (key.wrapping_mul(0x9E37_79B9_7F4A_7C15) >> 32) as usize;
        let last = self.buckets.len().saturating_sub(1);
        self.buckets.get(spread & last).ok_or(Fault::Size)
    }
}

/// What a thread keeps from one operation to the next.
#[derive(Drop)]
pub(crate) struct Seat<'a, 'b, R: Wait, L: Realm> {
    pub(crate) session: &'a mut Session<'b, R, L>,
    pub(crate) store: &'a Store,
    lease: Lease,
    /// How many records it copied to the tail.
    pub(crate) copies: u64,
}

impl<'a, 'b, R: Wait, L: Realm> Helping for Seat<'a, 'b, R, L> {
    ghost helps = { λ _ _ _ _. Unit {0} };

    fn help_by(&mut self, cure: Cure) -> Helped {
        self.session.help_by(cure)
    }
}

impl<'a, 'b, R: Wait, L: Realm> Seat<'a, 'b, R, L> {
    /// A seat that has no piece yet.
    pub(crate) fn new(session: &'a mut Session<'b, R, L>, store: &'a Store) -> Seat<'a, 'b, R, L> {
        Seat {
            session,
            store,
            lease: Lease::of(0, 0),
            copies: 0,
        }
    }

    /// Does an operation: tries until it is done, or refused for good. Returns what a read found.
    pub(crate) fn apply(&mut self, key: u64, operation: Operation) -> Result<Option<u64>, Trouble> {
        attempt(self, TRIES, |seat| seat.apply_once(key, operation))
    }

    /// Lets the device's first page go, if few places are left. Two threads may do so at once.
    pub(crate) fn make_room(&mut self) -> Result<(), Trouble> {
        let device = &self.store.device;
        let start = device.first.load(SeqCst);
        let is_wanted = self.session.view().read_only < start.saturating_add(WORDS_MOST);
        // What is read-only is on the device, or soon will be.
        if is_wanted || device.word(start).is_none() {
            return Ok(());
        }
        for record in 0..PAGE_SIZE / RECORD_WORDS {
            let address = start.saturating_add(record * RECORD_WORDS);
            // Nothing is there any more if another thread has let the page go.
            if let Some(key) = device.word(address) {
                self.apply(key, Operation::Move(address.saturating_add(1)))?;
            }
        }
        let next = start.saturating_add(PAGE_SIZE);
        device.first.fetch_max(next, SeqCst);
        Ok(())
    }

    // One try. It brings the session up to date first, and not again before it places a record: so what it finds out of
    // one holds until then. If it fails, it leaves at most a record that nobody finds.
    #[inline(always)]
    fn apply_once(&mut self, key: u64, operation: Operation) -> Result<Option<u64>, Trouble> {
        self.session.keep_up()?;
        // Loaded before the chain: what was moved from earlier pages is found there.
        let first = self.store.device.first.load(SeqCst);
        let bucket = self.store.bucket(key)?;
        let previous = bucket.load(SeqCst);
        let found = self.find(key, previous, first)?;
        let value = match (operation, found) {
            (Operation::Read, Some(record)) => return Ok(Some(self.load(record)?)),
            (Operation::Upsert(value) | Operation::Add(value), None) => value,
            (Operation::Upsert(value), Some(record)) => match self.session.store(record, value) {
                Err(Fault::Below { .. }) => value,
                stored => return Ok(stored.map(|_| None)?),
            },
            (Operation::Add(more), Some(record)) => match self.session.region(record)? {
                Region::Mutable => return Ok(self.session.fetch_add(record, more).map(|_| None)?),
                Region::Fuzzy => return Err(Trouble::Fuzzy),
                Region::ReadOnly | Region::Evicted => self.load(record)?.wrapping_add(more),
            },
            (Operation::Move(from), Some(record)) if record == from => self.load(from)?,
            _ => return Ok(None),
        };
        let newest = self.place([key, value, previous])?;
        let swapped = bucket.compare_exchange(previous, newest, SeqCst, SeqCst);
        swapped.map_err(|_| Trouble::Raced)?;
        self.copies = self.copies.saturating_add(u64::from(found.is_some()));
        Ok(None)
    }

    // The key's newest record in the chain, which ends below `first`: where its value is.
    #[inline(always)]
    fn find(&mut self, key: u64, newest: u64, first: u64) -> Result<Option<u64>, Trouble> {
        let mut record = newest;
        for _ in 0..TRIES {
            if record <= first {
                return Ok(None);
            }
            if self.load(record.saturating_sub(1))? == key {
                return Ok(Some(record));
            }
            record = self.load(record.saturating_add(1))?;
        }
        Err(Trouble::Raced)
    }

    // The word at an address, from the device if it was evicted. What lies below the head is flushed, so it was there.
    #[inline(always)]
    fn load(&mut self, address: u64) -> Result<u64, Trouble> {
        match self.session.load(address) {
            Err(Fault::Evicted { .. }) => self.store.device.word(address).ok_or(Trouble::Raced),
            loaded => Ok(loaded?),
        }
    }

    // Places a record above the one before it; returns where its value is. Nobody finds it before it is published, so its
    // words may be stored one by one, with a refresh between two.
    fn place(&mut self, record: [u64; 3]) -> Result<u64, Fault> {
        if self.lease.left() == 0 {
            self.lease = self.session.lease(PIECE)?;
        }
        let address = self.lease.take(RECORD_WORDS).ok_or(Fault::Size)?;
        if address < record[2].max(self.session.view().read_only) {
            // The piece lies below another thread's, or became read-only. What is placed now lies above all that was
            // published.
            return Ok(self.session.append(&record)?.saturating_add(1));
        }
        for (word, at) in record.into_iter().zip(0u64..) {
            let place = address.saturating_add(at);
            if self.session.store(place, word).is_err() {
                // There may have been no room for a touch.
                self.session.refresh()?;
                self.session.store(place, word)?;
            }
        }
        Ok(address.saturating_add(1))
    }
}
