//! Counters in a log: what one thread of an engine does with records of its own.
use crate::digest::Digest;
use crate::failure::Failure;
use crate::random::Random;
use hl::{Fault, Lease, Realm, Session, Task, View};
use std::alloc::Global;
use std::sync::Wait;

/// A record is a key and its count.
const RECORD_WORDS: u64 = 2;

/// How often a record is tried to be placed.
const TRIES: u32 = 1_000_000;

/// A thread's counters: where each has its count, and what that is by the thread's own account.
#[derive(Drop)]
pub(crate) struct Counters {
    random: Random,
    places: Vec<u64>,
    sums: Vec<u64>,
    lease: Lease,
    // How many words are leased at a time.
    piece: u64,
    /// How many records were placed anew since their page was read-only, or evicted.
    pub(crate) copies: u64,
    /// How many words weren't what was due.
    pub(crate) wrong: u64,
}

/// What to do where no frame is free for a record.
pub(crate) trait Pause {
    /// Lets others go on.
    fn pause(&mut self);
}

impl Counters {
    /// So many counters, none with a record.
    pub(crate) fn new(
        alloc: Global,
        seed: u64,
        stream: u64,
        count: u64,
        piece: u64,
    ) -> Result<Counters, Fault> {
        let mut places = Vec::new(alloc);
        let mut sums = Vec::new(alloc);
        for _ in 0..count {
            places.push(u64::MAX).map_err(|_| Fault::OutOfMemory)?;
            sums.push(0).map_err(|_| Fault::OutOfMemory)?;
        }
        Ok(Counters {
            random: Random::of(seed, stream),
            places,
            sums,
            lease: Lease::of(0, 0),
            piece,
            copies: 0,
            wrong: 0,
        })
    }

    /// Reads a counter that is drawn at random, or adds to it; each as often. The answer is what the thread has seen.
    pub(crate) fn operate<R: Wait, L: Realm, F: Task, P: Pause>(
        &mut self,
        session: &mut Session<R, L, F>,
        pause: &mut P,
    ) -> Result<View, Fault> {
        let seen = match session.keep_up() {
            Err(Fault::JournalFull) => {
                refresh(session)?;
                session.view()
            }
            kept => kept?,
        };
        let key = self.random.below(self.places.len() as u64);
        let more = if self.random.below(2) == 0 {
            0
        } else {
            self.random.below(1000)
        };
        let place = self.places.get(key as usize).copied().unwrap_or(0);
        let due = self.sums.get(key as usize).copied().unwrap_or(0);
        let found = if more == 0 {
            session.load(place)
        } else {
            session.fetch_add(place, more)
        };
        match found {
            Ok(found) => self.wrong = self.wrong.wrapping_add(u64::from(found != due)),
            // It has no record yet, or only one that nobody may change, or read.
            Err(Fault::Below { .. } | Fault::Evicted { .. } | Fault::Beyond { .. }) => {
                self.copies = self.copies.wrapping_add(1);
                self.place(session, key, due.wrapping_add(more), pause)?;
            }
            Err(fault) => return Err(fault),
        }
        if let Some(sum) = self.sums.get_mut(key as usize) {
            *sum = due.wrapping_add(more);
        }
        Ok(seen)
    }

    // A new record for a counter.
    #[inline(never)]
    fn place<R: Wait, L: Realm, F: Task, P: Pause>(
        &mut self,
        session: &mut Session<R, L, F>,
        key: u64,
        count: u64,
        pause: &mut P,
    ) -> Result<(), Fault> {
        for _ in 0..TRIES {
            match self.place_once(session, key, count) {
                Err(Fault::Busy { .. }) => {
                    pause.pause();
                    refresh(session)?;
                }
                // The piece has become read-only: what is left of it is let go.
                Err(Fault::Below { .. }) => self.lease = Lease::of(0, 0),
                Err(Fault::TouchesFull) => refresh(session)?,
                Err(Fault::JournalFull) => {
                    session.cut();
                }
                placed => return placed,
            }
        }
        self.place_once(session, key, count)
    }

    fn place_once<R: Wait, L: Realm, F: Task>(
        &mut self,
        session: &mut Session<R, L, F>,
        key: u64,
        count: u64,
    ) -> Result<(), Fault> {
        let address = match self.lease.take(RECORD_WORDS) {
            Some(address) => address,
            None => {
                self.lease = Lease::of(session.allocate(self.piece)?, self.piece);
                self.lease.take(RECORD_WORDS).ok_or(Fault::Size)?
            }
        };
        session.store(address, key)?;
        let place = address.saturating_add(1);
        session.store(place, count)?;
        if let Some(at) = self.places.get_mut(key as usize) {
            *at = place;
        }
        Ok(())
    }

    /// Mixes in what each counter is by its own account. `Unequal` if any was found otherwise.
    pub(crate) fn tell(&self, digest: &mut Digest) -> Result<(), Failure> {
        for sum in &self.sums {
            digest.add(*sum);
        }
        if self.wrong > 0 {
            return Err(Failure::Unequal { words: self.wrong });
        }
        Ok(())
    }
}

// Moves the session on; a full journal is cut.
fn refresh<R: Wait, L: Realm, F: Task>(session: &mut Session<R, L, F>) -> Result<(), Fault> {
    for _ in 0..TRIES {
        match session.refresh() {
            Err(Fault::JournalFull) => {
                session.cut();
            }
            refreshed => return refreshed.map(|_| ()),
        }
    }
    Err(Fault::JournalFull)
}
