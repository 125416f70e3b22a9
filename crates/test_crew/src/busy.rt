//! A crew that serves while there is always an action that waits.
ghost use Rattle.std.specs.Prelude.{◌≡◌};
ghost use Rattle.hl_words.specs.States.{IsSeedOf};

use crate::crew::{Pages, STAMP, Ticket};
use hl_action::Kept;
use hl_counts::CountTable;
use hl_crew::{Crew, CrewRiders, Duty, OpenGate, Stop};
use hl_domain::Pass;
use hl_drain::Ask;
use hl_image::MemoryWriter;
use hl_model::{Fault, Sizes};
use hl_words::{Realm, Rider, Seed};
use std::alloc::Global;
use std::marker::Brand;
use std::sync::Wait;
use std::test::Fail;
use std::thread;
use std::thread::Threads;
use std::time::{Clock, Duration};

/// How many pages are placed: three times as many as there are frames.
const PAGES: u64 = 12;

/// How often a page is tried at most.
const TRIES: u64 = 20_000;

// Bumps a job; if the drain list is full, enough of them wait.
fn bump_job<R: Wait, L: Realm>(
    rt: &R,
    domain: &Pages<CountTable, L>,
    rider: &mut Rider<L>,
) -> Result<(), Fault> {
    match domain.bump(rt, rider, Ask::User(Kept::new(3, Ticket))) {
        Ok(_) | Err((Fault::DrainFull, _)) => Ok(()),
        Err((fault, _)) => Err(fault),
    }
}

// Two slots place pages, and refresh in turn: of the two jobs that were bumped last one isn't ready.
fn place_beside_jobs<R: Wait + Clock, L: Realm>(
    rt: &R,
    domain: &Pages<CountTable, L>,
    stop: &Stop,
    first: &mut Pass<L>,
    second: &mut Pass<L>,
    rider: &mut Rider<L>,
) -> Result<u64, Fault> {
    let mut placed = 0u64;
    for turn in 0..TRIES {
        bump_job(rt, domain, rider)?;
        let pass = if turn % 2 == 0 {
            &mut *first
        } else {
            &mut *second
        };
        domain.refresh(rt, pass)?;
        match domain.allocate(rt, pass, 4) {
            Ok(_) => placed = placed.saturating_add(1),
            Err(Fault::Busy { .. }) => {
                stop.ring();
                thread::sleep(rt, Duration::from_micros(50));
            }
            Err(fault) => return Err(fault),
        }
        if placed == PAGES {
            break;
        }
    }
    Ok(placed)
}

// The same from the first acquire to the last release.
fn place_all<R: Wait + Clock, L: Realm>(
    rt: &R,
    domain: &Pages<CountTable, L>,
    stop: &Stop,
    mut riders: Vec<Rider<L>>,
) -> Result<u64, Fault> {
    let (Some(one), Some(other), Some(mut rider)) = (riders.pop(), riders.pop(), riders.pop())
    else {
        return Err(Fault::Size);
    };
    let (mut first, mut second) = match (domain.acquire(rt, 0, one), domain.acquire(rt, 1, other)) {
        (Ok(first), Ok(second)) => (first, second),
        _ => return Err(Fault::Size),
    };
    let placed = place_beside_jobs(rt, domain, stop, &mut first, &mut second, &mut rider);
    let _ = domain.release(rt, first);
    let _ = domain.release(rt, second);
    placed
}

// How many pages were placed beside a crew of this duty, and how many it wrote.
fn placed_and_written<R, L>(
    rt: &R,
    alloc: Global,
    seed: Seed,
    duty: Duty,
) -> Result<[u64; 2], Fault>
where
    R: Threads + Wait + Clock + Sync,
    L: Realm + Send + Sync,
    requires seed { IsSeedOf L.name L.parts L.table seed }
    requires named { (seed.sizes ≡ L.sizes) × (STAMP ≡ L.stamp) × (200_000 ≡ L.limit) }
{
    let (domain, mut riders) = Pages::<CountTable, L>::open(alloc, seed, 200_000, STAMP)?;
    let crew = CrewRiders::take_from(&mut riders).ok_or(Fault::Size)?;
    let stop = Stop::new();
    let (placed, written) = thread::join(
        rt,
        || {
            let placed = place_all(rt, &domain, &stop, riders);
            stop.give();
            placed
        },
        || written_by(rt, alloc, &domain, &stop, crew, duty),
    );
    Ok([placed?, written?])
}

// How many pages a crew writes until its stop.
fn written_by<R, L>(
    rt: &R,
    alloc: Global,
    domain: &Pages<CountTable, L>,
    stop: &Stop,
    riders: CrewRiders<L>,
    duty: Duty,
) -> Result<u64, Fault>
where
    R: Threads + Wait + Sync,
    L: Realm + Send + Sync,
{
    let crew = Crew {
        riders,
        first: MemoryWriter::open(alloc, PAGES, 40)?,
        second: MemoryWriter::open(alloc, PAGES, 40)?,
    };
    let (_, report) = crew.serve(rt, alloc, domain, &OpenGate, duty, stop);
    Ok(report?.written)
}

// The same in a domain of its own, of four frames.
fn placed_by_duty<R: Threads + Wait + Clock + Sync>(
    rt: &R,
    alloc: Global,
    mutable: u64,
    resident: u64,
) -> Result<[u64; 2], Fault> {
    let params = Sizes::checked(4, 4, 2, 16).ok_or(Fault::Size)?;
    let seed = Seed::make(alloc, params, 7)?;
    let duty = Duty::checked(params, mutable, resident).ok_or(Fault::Size)?;
    placed_and_written::<R, Brand>(rt, alloc, seed, duty)
}

/// Jobs keep coming, so that one waits at each moment: the crew waits for its own settle and close alone, and frames come
/// free. All pages but the last are written.
#[test]
fn jobs_that_keep_coming_hold_up_no_frames(rt: HostRuntime) -> Result<(), Fail> {
    let told = placed_by_duty(&rt, rt.alloc(), 1, 2)?;
    assert_eq!(rt; told, [PAGES, PAGES - 1]);
    Ok(())
}

/// Each resident page may be written, so that none is read-only and still in memory: a page is closed as soon as it is
/// flushed, and the cleaner is woken for it. All pages but the last two are written.
#[test]
fn pages_that_close_at_once_hold_up_no_frames(rt: HostRuntime) -> Result<(), Fail> {
    let told = placed_by_duty(&rt, rt.alloc(), 2, 2)?;
    assert_eq!(rt; told, [PAGES, PAGES - 2]);
    Ok(())
}
