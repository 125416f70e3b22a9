//! A log of two threads beside a crew, with fewer frames than their records want.
use crate::counters::{Counters, Pause};
use crate::digest::Digest;
use crate::failure::Failure;
use hl::{Duty, Fault, NoJob, Opening, Params, Realm, Returned, Session, Work, with_threads};
use std::alloc::Global;
use std::sync::Wait;
use std::sync::atomic::AtomicU64;
use std::sync::atomic::Ordering::SeqCst;
use std::thread;
use std::thread::Threads;
use std::time::{Clock, Duration};

/// How many threads work; the crew has four more.
const THREADS: u64 = 2;

/// How many counters each has.
const COUNTERS: u64 = 1 << 15;

/// How many words are leased at a time.
const PIECE: u64 = 512;

/// What each thread does.
#[derive(Drop)]
struct Counting {
    alloc: Global,
    seed: u64,
    operations: u64,
    written: AtomicU64,
}

/// Has each thread make so many operations. Returns the digest of what they left.
pub(crate) fn run<R: Threads + Wait + Clock + Sync>(
    rt: &R,
    alloc: Global,
    seed: u64,
    operations: u64,
) -> Result<u64, Failure> {
    let params = Params::checked(4096, 64, THREADS, 16).ok_or(Fault::Size)?;
    let opening = Opening {
        params,
        riders: THREADS.saturating_add(4),
        journal: 1 << 15,
        stamp: 1,
    };
    let duty = Duty::checked(params, 32, 48).ok_or(Fault::Size)?;
    let counting = Counting {
        alloc,
        seed,
        operations,
        written: AtomicU64::new(0),
    };
    let closed = with_threads(rt, alloc, opening, duty.cutting_above(1 << 14), &counting)?;
    let mut digest = Digest::new();
    let Returned { outs, crew } = closed.out;
    crew?;
    closed.ending?;
    for told in outs {
        digest.add(told??);
    }
    // Whatever the threads' turns were, pages were written.
    digest.add(u64::from(counting.written.load(SeqCst) > 0));
    Ok(digest.value())
}

/// A thread that waits for a frame sleeps, so that the crew goes on.
#[derive(Drop)]
struct Nap<'a, R> {
    rt: &'a R,
}

impl<R: Wait + Clock> Pause for Nap<'_, R> {
    fn pause(&mut self) {
        thread::sleep(self.rt, Duration::from_micros(50));
    }
}

impl<R: Wait + Clock> Work<R> for Counting {
    type Job = NoJob;

    type Out = Result<u64, Failure>;

    fn run<L: Realm + Send + Sync>(
        &self,
        rt: &R,
        session: &mut Session<R, L>,
        number: u64,
    ) -> Result<u64, Failure> {
        let mut counters = Counters::new(self.alloc, self.seed, number, COUNTERS, PIECE)?;
        let mut nap = Nap { rt };
        for _ in 0..self.operations {
            // What it sees depends on the schedule, and isn't told.
            counters.operate(session, &mut nap)?;
        }
        let mut digest = Digest::new();
        counters.tell(&mut digest)?;
        session.cut();
        Ok(digest.value())
    }

    fn write_page(&self, _rt: &R, _page: u64, image: &[u8]) -> bool {
        self.written.fetch_add(image.len() as u64, SeqCst);
        true
    }
}
