use crate::store::{Change, Store};
use hl::{Config, Fault, NoJob, Realm, Session, Work, run_threads};
use std::alloc::Global;
use std::io::Write;
use std::sync::Wait;
use std::thread::Threads;

const COUNTERS: usize = 4;

/// How many threads add.
const THREADS: u64 = 4;

/// How often each thread adds to a counter.
const ROUNDS: usize = 100;

/// Half of 2^64: sums are modulo that, so two of these add up to nothing.
const HALF: u64 = 1 << 63;

/// A number for each counter.
type Sums = [u64; COUNTERS];

/// Threads that add to the same counters.
#[derive(Drop)]
struct Counting {
    store: Store,
}

/// Four threads add to four counters, and each puts a value of its own, a hundred times. What each counter holds then is
/// written, and what the threads added to it by their own account.
///
/// Faults: `OutOfMemory`; `Stream` where the writer fails.
pub fn run<R: Threads + Wait + Sync, W: Write>(
    rt: &R,
    alloc: Global,
    out: &mut W,
) -> Result<(), Fault> {
    // Two pages may be written, and of the records, 25 pages at most, all stay in memory.
    let config = Config {
        page_size: 64,
        mutable: 2,
        ..Config::for_threads(THREADS).with_frames(64)
    };
    let store = Store::open(alloc).map_err(|_| Fault::OutOfMemory)?;
    let finished = run_threads(rt, alloc, config, &Counting { store })?;
    finished.crew?;
    let mut added = [0; COUNTERS];
    for sums in finished.outs {
        added = sum_of(&added, &sums?);
    }
    let read = finished.last.ok_or(Fault::Size)??;
    for (read, added) in read.iter().zip(added.iter()) {
        writeln!(out, "read {read} added {added}").map_err(|_| Fault::Stream)?;
    }
    Ok(())
}

// The sum of both, of each counter by itself, modulo 2^64.
fn sum_of(first: &Sums, second: &Sums) -> Sums {
    let mut sums = *first;
    for counter in 0..COUNTERS {
        sums[counter] = sums[counter].wrapping_add(second[counter]);
    }
    sums
}

impl<R: Wait> Work<R> for Counting {
    type Job = NoJob;

    type Out = Result<Sums, Fault>;

    fn run<L: Realm + Send + Sync>(
        &self,
        rt: &R,
        session: &mut Session<R, L>,
        number: u64,
    ) -> Result<Sums, Fault> {
        self.add_all(rt, session, number)
    }

    fn finish<L: Realm + Send + Sync>(
        &self,
        rt: &R,
        session: &mut Session<R, L>,
    ) -> Option<Result<Sums, Fault>> {
        Some(self.read_all(rt, session))
    }

    // There is no device: images are let go.
    fn write_page(&self, _rt: &R, _page: u64, _image: &[u8]) -> bool {
        true
    }
}

impl Counting {
    // Adds to each counter in turn, and puts a value of the thread's own; the answer is what it added.
    fn add_all<R: Wait, L: Realm>(
        &self,
        rt: &R,
        session: &mut Session<R, L>,
        number: u64,
    ) -> Result<Sums, Fault> {
        let mut sums = [0; COUNTERS];
        // Each counter is added to an even number of times.
        let more = number.wrapping_add(1).wrapping_add(HALF);
        let own = number.wrapping_add(1000);
        for round in 0..ROUNDS {
            let counter = round % COUNTERS;
            self.store
                .change(rt, session, counter as u64, Change::Add(more))?;
            sums[counter] = more.wrapping_add(sums[counter]);
            self.store
                .change(rt, session, own, Change::Put(round as u64))?;
            session.refresh()?;
        }
        Ok(sums)
    }

    // What each counter holds.
    fn read_all<R: Wait, L: Realm>(
        &self,
        rt: &R,
        session: &mut Session<R, L>,
    ) -> Result<Sums, Fault> {
        let mut sums = [0; COUNTERS];
        for counter in 0..COUNTERS {
            sums[counter] = self.store.read(rt, session, counter as u64)?.unwrap_or(0);
        }
        Ok(sums)
    }
}
