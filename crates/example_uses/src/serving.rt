ghost use Rattle.std.specs.Prelude.{◌≡◌};
ghost use Rattle.hl_words.specs.States.{IsSeedOf};

use crate::say::say;
use hl_crew::{Crew, CrewRiders, Duty, OpenGate, Stop};
use hl_domain::{AnyAnswer, CountTable, Domain, Fault, NoJob, Params, Pass, Realm, Rider, Seed};
use hl_image::MemoryWriter;
use std::alloc::{AllocError, Global};
use std::io::Write;
use std::marker::Brand;
use std::sync::Wait;
use std::thread;
use std::thread::Threads;

/// A domain whose actions are settles and closes alone.
type Log<L> = Domain<CountTable, NoJob, AnyAnswer, L>;

/// Four threads place a hundred records each, more than the frames hold, and a crew serves behind them until they have
/// ended.
///
/// Faults: `OutOfMemory`; `Stream` if the writer fails.
pub(crate) fn run<R: Threads + Wait + Sync, W: Write>(
    rt: &R,
    alloc: Global,
    out: &mut W,
) -> Result<(), Fault> {
    // Pages of 64 words, 8 frames, so 512 words for 3,200; 4 slots, 16 places for actions; four riders and a crew's.
    let params = Params::checked(64, 8, 4, 16).ok_or(Fault::Size)?;
    let seed = Seed::make(alloc, params, 8)?;
    run_over::<Brand, R, W>(rt, alloc, seed, out)
}

// The same over the words of a seed.
fn run_over<L: Realm + Send + Sync, R: Threads + Wait + Sync, W: Write>(
    rt: &R,
    alloc: Global,
    seed: Seed,
    out: &mut W,
) -> Result<(), Fault>
    requires seed { IsSeedOf L.name L.parts L.table seed }
    requires named { (seed.sizes ≡ L.sizes) × (2 ≡ L.stamp) × (1000 ≡ L.limit) }
{
    let (log, riders) = Log::<L>::open(alloc, seed, 1_000, 2)?;
    let (riders, failed) = work(rt, alloc, &log, riders)?;
    say(out, "failed", failed)?;
    match log.close(riders) {
        Ok(ending) => {
            say(out, "tail", ending.snapshot.six.tail)?;
            say(out, "taken", ending.snapshot.taken)
        }
        Err((fault, _, _)) => Err(fault),
    }
}

// The threads place their records, and then the crew's stop is given; all riders come back, and how many writes failed.
fn work<L: Realm + Send + Sync, R: Threads + Wait + Sync>(
    rt: &R,
    alloc: Global,
    log: &Log<L>,
    mut riders: Vec<Rider<L>>,
) -> Result<(Vec<Rider<L>>, u64), Fault> {
    let crew = CrewRiders::take_from(&mut riders).ok_or(Fault::Size)?;
    let stop = Stop::new();
    let (riders, end) = thread::join(
        rt,
        || {
            let riders = place_all(rt, alloc, log, &stop, riders);
            stop.give();
            riders
        },
        || flush_all(rt, alloc, log, &stop, crew),
    );
    let (Ok(mut riders), (crew, failed)) = (riders, end?) else {
        return Err(Fault::OutOfMemory);
    };
    match crew.put_back(&mut riders) {
        Ok(()) => Ok((riders, failed)),
        Err((fault, _)) => Err(fault),
    }
}

// The crew serves until its stop: about 2 pages may be written and 4 read, and the journal is cut once it is half full.
fn flush_all<L: Realm + Send + Sync, R: Threads + Wait + Sync>(
    rt: &R,
    alloc: Global,
    log: &Log<L>,
    stop: &Stop,
    riders: CrewRiders<L>,
) -> Result<(CrewRiders<L>, u64), Fault> {
    let duty = Duty::checked(log.params(), 2, 4).ok_or(Fault::Size)?;
    let crew = Crew {
        riders,
        first: MemoryWriter::open(alloc, 64, 520)?,
        second: MemoryWriter::open(alloc, 64, 520)?,
    };
    let (crew, report) = crew.serve(rt, alloc, log, &OpenGate, duty.cutting_above(500), stop);
    Ok((crew.riders, report?.failed))
}

// Each rider places its records in a thread and on a slot of its own.
fn place_all<L: Realm + Send + Sync, R: Threads + Wait + Sync>(
    rt: &R,
    alloc: Global,
    log: &Log<L>,
    stop: &Stop,
    riders: Vec<Rider<L>>,
) -> Result<Vec<Rider<L>>, AllocError> {
    let jobs = riders.into_iter().enumerate().collect::<Vec<_>>(alloc)?;
    thread::map_vec(
        rt,
        jobs,
        &|(slot, rider)| place(rt, log, stop, rider, slot as u64),
    )
}

// Acquires the slot. If the journal is full, it wakes the crew, which cuts it, and tries again.
fn enter<L: Realm>(
    rt: &impl Wait,
    log: &Log<L>,
    stop: &Stop,
    rider: Rider<L>,
    slot: u64,
) -> Result<Pass<L>, Rider<L>> {
    let mut rider = rider;
    for _ in rt.forever() {
        match log.acquire(rt, slot, rider) {
            Ok(pass) => return Ok(pass),
            Err((Fault::JournalFull, back)) => rider = back,
            Err((_, back)) => return Err(back),
        }
        stop.ring();
        thread::yield_now();
    }
    unreachable!()
}

// Acquires the slot, places the records, and releases it. A pass that is refused is abandoned.
fn place<L: Realm>(
    rt: &impl Wait,
    log: &Log<L>,
    stop: &Stop,
    rider: Rider<L>,
    slot: u64,
) -> Rider<L> {
    let mut pass = match enter(rt, log, stop, rider, slot) {
        Ok(pass) => pass,
        Err(rider) => return rider,
    };
    for _ in 0..100 {
        if place_one(rt, log, stop, &mut pass, slot).is_err() {
            return pass.abandon();
        }
    }
    leave(rt, log, stop, pass)
}

// Releases the slot. If the journal is full, it wakes the crew, which cuts it, and tries again.
fn leave<L: Realm>(rt: &impl Wait, log: &Log<L>, stop: &Stop, pass: Pass<L>) -> Rider<L> {
    let mut pass = pass;
    for _ in rt.forever() {
        match log.release(rt, pass) {
            Ok(rider) => return rider,
            Err((Fault::JournalFull, back)) => pass = back,
            Err((_, back)) => return back.abandon(),
        }
        stop.ring();
        thread::yield_now();
    }
    unreachable!()
}

// Places a record of 8 words, stores its first, and refreshes. If no frame is free or the journal
// is full, it wakes the crew, refreshes and tries again.
fn place_one<L: Realm>(
    rt: &impl Wait,
    log: &Log<L>,
    stop: &Stop,
    pass: &mut Pass<L>,
    slot: u64,
) -> Result<(), Fault> {
    for _ in rt.forever() {
        match log.allocate(rt, pass, 8) {
            Ok(address) => {
                log.store(pass, address, slot)?;
                break;
            }
            Err(Fault::Busy { .. } | Fault::JournalFull) => stop.ring(),
            Err(fault) => return Err(fault),
        }
        refreshed(rt, log, pass)?;
        thread::yield_now();
    }
    stop.ring();
    refreshed(rt, log, pass)
}

// Refreshes, unless the journal is full: the crew cuts it.
fn refreshed<L: Realm>(rt: &impl Wait, log: &Log<L>, pass: &mut Pass<L>) -> Result<(), Fault> {
    match log.refresh(rt, pass) {
        Ok(_) | Err(Fault::JournalFull) => Ok(()),
        Err(fault) => Err(fault),
    }
}
