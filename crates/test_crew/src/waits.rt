//! A crew beside what it must wait for, and what it hands back in which order.
ghost use Rattle.std.specs.Prelude.{◌≡◌, ◌≤◌};
ghost use Rattle.hl_words.specs.States.{IsSeedOf};

use crate::crew::{
    ONE_TURN, Pages, Run, STAMP, allocate_pages, four, is_done, place_three, run_both, seed_of,
    settle,
};
use crate::gates::HoldsFirst;
use hl_counts::CountTable;
use hl_crew::{CrewEnd, OpenGate};
use hl_image::{MemoryWriter, PageWriter};
use hl_model::Fault;
use hl_words::{Realm, Rider, Seed};
use std::alloc::Global;
use std::marker::Brand;
use std::process::Abort;
use std::sync::Wait;
use std::test::Fail;
use std::thread::Threads;

/// How many pages a crew wrote, how many writes failed, and how many answers were of no page.
fn counts<R, L>(
    rt: &R,
    alloc: Global,
    domain: &Pages<CountTable, L>,
    crew: [Rider<L>; 4],
    run: Run,
) -> Result<[u64; 3], Fault>
where
    R: Threads + Wait + Sync,
    L: Realm + Send + Sync,
    requires frames { domain.now.sizes.frames ≡ 4 }
    requires resident { (1 ≤ run.resident) × (run.resident ≤ 4) }
{
    let end = run_both(rt, alloc, domain, crew, &OpenGate, run)?;
    Ok([end.written, end.failed, end.strangers])
}

fn protected_slot<R, L>(rt: &R, alloc: Global, seed: Seed) -> Result<(), Fail>
where
    R: Threads + Wait + Abort + Sync,
    L: Realm + Send + Sync,
    requires seed { IsSeedOf L.name L.parts L.table seed }
    requires named { (seed.sizes ≡ L.sizes) × (STAMP ≡ L.stamp) × (100 ≡ L.limit) }
    requires frames { seed.sizes.frames ≡ 4 }
{
    let (domain, mut riders) = Pages::<CountTable, L>::open(alloc, seed, 100, STAMP)?;
    let rider = riders.pop().ok_or("five riders")?;
    protect_and_place(rt, &domain, rider)?;
    goes_on(rt, alloc, &domain, four(&mut riders)?)
}

// A slot allocates three pages whole, and stays protected.
fn protect_and_place<R: Wait, L: Realm>(
    rt: &R,
    domain: &Pages<CountTable, L>,
    rider: Rider<L>,
) -> Result<(), Fault> {
    match domain.acquire(rt, 0, rider) {
        Ok(mut pass) => place_three(rt, domain, &mut pass),
        Err((fault, _)) => Err(fault),
    }
}

fn goes_on<R, L>(
    rt: &R,
    alloc: Global,
    domain: &Pages<CountTable, L>,
    crew: [Rider<L>; 4],
) -> Result<(), Fail>
where
    R: Threads + Wait + Abort + Sync,
    L: Realm + Send + Sync,
    requires frames { domain.now.sizes.frames ≡ 4 }
{
    let run = Run {
        turns: 3,
        cut: true,
        ..ONE_TURN
    };
    assert_eq!(rt; counts(rt, alloc, domain, crew, run)?, [0, 0, 0]);
    // An acquire, three records, a raise and a settle, which waits for the slot.
    let (now, kept, cut) = domain.snapshot(rt);
    assert!(rt; kept == 0 && cut == 6 && now.pending == 1 && now.taken == 0);
    assert!(rt; now.six.read_only == 8 && now.six.safe_read_only == 0);
    Ok(())
}

/// A settle isn't ready, since a slot doesn't move on: the flusher makes its other turns, and cuts in each.
#[test]
fn a_crew_goes_on_where_no_action_is_ready(rt: HostRuntime) -> Result<(), Fail> {
    protected_slot::<_, Brand>(&rt, rt.alloc(), seed_of(rt.alloc(), 5)?)
}

fn taken_elsewhere<R, L>(rt: &R, alloc: Global, seed: Seed) -> Result<(), Fail>
where
    R: Threads + Wait + Abort + Sync,
    L: Realm + Send + Sync,
    requires seed { IsSeedOf L.name L.parts L.table seed }
    requires named { (seed.sizes ≡ L.sizes) × (STAMP ≡ L.stamp) × (100 ≡ L.limit) }
    requires frames { seed.sizes.frames ≡ 4 }
{
    let (domain, mut riders) = Pages::<CountTable, L>::open(alloc, seed, 100, STAMP)?;
    let mut rider = allocate_pages(rt, &domain, riders.pop().ok_or("five riders")?)?;
    run_beside(rt, alloc, &domain, four(&mut riders)?, &mut rider)
}

// A settle is taken by a rider, and done once the crew has ended.
fn run_beside<R, L>(
    rt: &R,
    alloc: Global,
    domain: &Pages<CountTable, L>,
    crew: [Rider<L>; 4],
    rider: &mut Rider<L>,
) -> Result<(), Fail>
where
    R: Threads + Wait + Abort + Sync,
    L: Realm + Send + Sync,
    requires frames { domain.now.sizes.frames ≡ 4 }
{
    let run = Run {
        turns: 3,
        ..ONE_TURN
    };
    let ready = settle(rt, domain, rider)?;
    let end = counts(rt, alloc, domain, crew, run);
    let (now, _, _) = domain.snapshot(rt);
    assert!(rt; is_done(rt, domain, rider, ready.run()));
    assert!(rt; end.is_ok() && now.taken == 1);
    assert!(rt; now.pending == 0 && now.six.read_only == 0);
    Ok(())
}

/// An action that somebody else has taken isn't done yet: the flusher leaves the offsets where they are.
#[test]
fn a_crew_leaves_the_offsets_while_an_action_runs(rt: HostRuntime) -> Result<(), Fail> {
    taken_elsewhere::<_, Brand>(&rt, rt.alloc(), seed_of(rt.alloc(), 5)?)
}

fn own_order<R, L>(rt: &R, alloc: Global, seed: Seed) -> Result<(), Fail>
where
    R: Threads + Wait + Abort + Sync,
    L: Realm + Send + Sync,
    requires seed { IsSeedOf L.name L.parts L.table seed }
    requires named { (seed.sizes ≡ L.sizes) × (STAMP ≡ L.stamp) × (100 ≡ L.limit) }
    requires frames { seed.sizes.frames ≡ 4 }
{
    let (domain, mut riders) = Pages::<CountTable, L>::open(alloc, seed, 100, STAMP)?;
    let mut crew = four(&mut riders)?;
    let rider = allocate_pages(rt, &domain, riders.pop().ok_or("five riders")?)?;
    for (rider, steps) in crew.iter_mut().zip([0, 1, 2, 3]) {
        for _ in 0..steps {
            domain.bare(rt, rider)?;
        }
    }
    let run = Run {
        bytes: [40, 39],
        ..ONE_TURN
    };
    let end = run_both(rt, alloc, &domain, crew, &HoldsFirst::new(), run)?;
    check_order(rt, end);
    assert_eq!(rt; rider.share(), 5);
    Ok(())
}

// The second writer alone failed, and the first rider alone entered steps besides those that it had entered before.
fn check_order<L: Realm>(rt: &impl Abort, end: CrewEnd<L, MemoryWriter>) {
    let CrewEnd {
        riders,
        writers,
        written,
        failed,
        ..
    } = end;
    assert!(rt; written == 1 && failed == 1);
    for (writer, failures) in writers.iter().zip([0, 1]) {
        assert_eq!(rt; writer.failures(), failures);
    }
    // A raise, a settle, its take and its done, and two pages taken and ended.
    for (rider, share) in riders.iter().zip([8, 1, 2, 3]) {
        assert_eq!(rt; rider.share(), share);
    }
}

/// Each writer has a page, and one of them fails: riders and writers come back in the order in which they went in.
#[test]
fn a_crew_hands_back_in_order(rt: HostRuntime) -> Result<(), Fail> {
    own_order::<_, Brand>(&rt, rt.alloc(), seed_of(rt.alloc(), 5)?)
}
