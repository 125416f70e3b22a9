//! When a crew that serves cuts the journal, and what becomes of it at a full one.
ghost use Rattle.std.specs.Prelude.{◌≡◌, ◌≤◌};
ghost use Rattle.hl_keeper.specs.Keepers.{steps_most};
ghost use Rattle.hl_words.specs.States.{IsSeedOf};

use crate::crew::{Anything, Pages, STAMP, Ticket, allocate_pages, is_done, seed_of};
use hl_action::Kept;
use hl_counts::CountTable;
use hl_crew::{Crew, CrewRiders, Duty, OpenGate, Stop};
use hl_drain::Ask;
use hl_image::MemoryWriter;
use hl_model::Fault;
use hl_words::{Realm, Rider, Seed};
use std::alloc::Global;
use std::marker::Brand;
use std::sync::Wait;
use std::test::Fail;
use std::thread::Threads;

// A crew that has its stop already flushes two pages and then finds nothing to do. It may cut the journal, which holds so
// many steps, above so many, or never: how many it leaves there, and how many were cut.
fn kept_and_cut<R, L>(
    rt: &R,
    alloc: Global,
    seed: Seed,
    journal: u64,
    above: Option<u64>,
) -> Result<[u64; 2], Fault>
where
    R: Threads + Wait + Sync,
    L: Realm + Send + Sync,
    requires seed { IsSeedOf L.name L.parts L.table seed }
    requires named { (seed.sizes ≡ L.sizes) × (STAMP ≡ L.stamp) × (journal ≡ L.limit) }
    requires most { journal ≤ steps_most }
{
    let (domain, mut riders) = Pages::<CountTable, L>::open(alloc, seed, journal, STAMP)?;
    allocate_pages(rt, &domain, riders.pop().ok_or(Fault::Size)?)?;
    let duty = Duty::checked(domain.params(), 1, 3).ok_or(Fault::Size)?;
    let crew = CrewRiders::take_from(&mut riders).ok_or(Fault::Size)?;
    serve_out(rt, alloc, &domain, crew, cutting(duty, above))?;
    let (_, kept, cut) = domain.snapshot(rt);
    Ok([kept, cut])
}

// The same, but the journal is cut above so many steps, if so many are given.
fn cutting(duty: Duty, above: Option<u64>) -> Duty {
    match above {
        Some(steps) => duty.cutting_above(steps),
        None => duty,
    }
}

/// A crew that has its stop already serves.
pub(crate) fn serve_out<R, L>(
    rt: &R,
    alloc: Global,
    domain: &Pages<CountTable, L>,
    riders: CrewRiders<L>,
    duty: Duty,
) -> Result<(), Fault>
where
    R: Threads + Wait + Sync,
    L: Realm + Send + Sync,
{
    let stop = Stop::new();
    stop.give();
    let crew = Crew {
        riders,
        first: MemoryWriter::open(alloc, 3, 40)?,
        second: MemoryWriter::open(alloc, 3, 40)?,
    };
    let (_, report) = crew.serve(rt, alloc, domain, &OpenGate, duty, &stop);
    report?;
    Ok(())
}

/// An acquire, three records and a release, and then the crew's raise, settle, take, done, and two pages taken and ended: 13
/// steps. They are cut where no more than 12 may stay, and stay where none may be cut.
#[test]
fn a_crew_cuts_above_its_share(rt: HostRuntime) -> Result<(), Fail> {
    for (above, left) in [(Some(12), [0, 13]), (Some(13), [13, 0]), (None, [13, 0])] {
        let seed = seed_of(rt.alloc(), 5)?;
        assert_eq!(rt;
            kept_and_cut::<_, Brand>(&rt, rt.alloc(), seed, 100, above)?,
            left
        );
    }
    Ok(())
}

/// Where the journal has room for 6 of these steps, the flusher or the cleaner cuts it as often as it is full.
#[test]
fn a_crew_makes_room_in_a_full_journal(rt: HostRuntime) -> Result<(), Fail> {
    let seed = seed_of(rt.alloc(), 5)?;
    let [kept, cut] = kept_and_cut::<_, Brand>(&rt, rt.alloc(), seed, 6, Some(100))?;
    assert_eq!(rt; kept.saturating_add(cut), 13);
    Ok(())
}

/// A crew that never cuts ends where the journal has no room for its second step, and leaves it full.
#[test]
fn a_crew_that_never_cuts_ends_at_a_full_journal(rt: HostRuntime) -> Result<(), Fail> {
    let seed = seed_of(rt.alloc(), 5)?;
    let left = kept_and_cut::<_, Brand>(&rt, rt.alloc(), seed, 6, None)?;
    assert_eq!(rt; left, [6, 0]);
    Ok(())
}

// Bumps an action, takes it and is done with it.
fn run_action<R: Wait, L: Realm>(
    rt: &R,
    domain: &Pages<CountTable, L>,
    rider: &mut Rider<L>,
    ask: Ask<Kept<Ticket, Anything>>,
) -> Result<(), Fault> {
    if let Err((fault, _)) = domain.bump(rt, rider, ask) {
        return Err(fault);
    }
    let ready = domain.take(rt, rider)?;
    if is_done(rt, domain, rider, ready.run()) {
        Ok(())
    } else {
        Err(Fault::NotTaken)
    }
}

// Takes a page, and tells it as flushed.
fn flush_one<R: Wait, L: Realm>(
    rt: &R,
    domain: &Pages<CountTable, L>,
    rider: &mut Rider<L>,
) -> Result<(), Fault> {
    let load = domain.flush_take(rt, rider)?;
    match domain.flush_done(rt, rider, load, true) {
        Ok(_) => Ok(()),
        Err((fault, load)) => {
            load.forsake();
            Err(fault)
        }
    }
}

// The first page is sealed, flushed and closed.
fn close_first<R: Wait, L: Realm>(
    rt: &R,
    domain: &Pages<CountTable, L>,
    rider: &mut Rider<L>,
) -> Result<(), Fault> {
    domain.raise(rt, rider, 4)?;
    run_action(rt, domain, rider, Ask::Settle)?;
    flush_one(rt, domain, rider)?;
    domain.shift(rt, rider, 4)?;
    run_action(rt, domain, rider, Ask::Close)
}

// The frames that a crew leaves, and how many steps were made in all: of three pages the first is closed when it begins,
// and the journal is full. It may cut.
fn cleaned_at_a_full_journal<R, L>(
    rt: &R,
    alloc: Global,
    seed: Seed,
) -> Result<([u64; 5], u64), Fault>
where
    R: Threads + Wait + Sync,
    L: Realm + Send + Sync,
    requires seed { IsSeedOf L.name L.parts L.table seed }
    requires named { (seed.sizes ≡ L.sizes) × (STAMP ≡ L.stamp) × (15 ≡ L.limit) }
{
    let (domain, mut riders) = Pages::<CountTable, L>::open(alloc, seed, 15, STAMP)?;
    let mut rider = allocate_pages(rt, &domain, riders.pop().ok_or(Fault::Size)?)?;
    close_first(rt, &domain, &mut rider)?;
    let duty = Duty::checked(domain.params(), 2, 2).ok_or(Fault::Size)?;
    let duty = duty.cutting_above(100);
    let crew = CrewRiders::take_from(&mut riders).ok_or(Fault::Size)?;
    serve_out(rt, alloc, &domain, crew, duty)?;
    let (now, kept, cut) = domain.snapshot(rt);
    Ok((now.frames, kept.saturating_add(cut)))
}

/// An acquire, three records and a release, a raise, a settle, its take and its done, a page taken and ended, a shift, and a
/// close, its take and its done: 15 steps. Mostly the cleaner comes first to the full journal; it cuts, takes the page and
/// is done with it, and the frame comes free beside the one that no page has had.
#[test]
fn a_cleaner_makes_room_in_a_full_journal(rt: HostRuntime) -> Result<(), Fail> {
    for _ in 0..20 {
        let seed = seed_of(rt.alloc(), 5)?;
        let left = cleaned_at_a_full_journal::<_, Brand>(&rt, rt.alloc(), seed)?;
        assert!(rt; left == ([2, 0, 0, 0, 2], 17));
    }
    Ok(())
}
