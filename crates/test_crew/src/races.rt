//! How a race ends at a full journal, that its riders make all their rounds, and that its audit sees an ending that isn't
//! the race's.
ghost use Rattle.std.specs.Prelude.{◌≡◌};
ghost use Rattle.hl_words.specs.States.{IsSeedOf};

use crate::crew::{Anything, Pages, STAMP, Ticket, allocate_pages, seed};
use hl_counts::CountTable;
use hl_domain::Ending;
use hl_model::{Fault, Params};
use hl_race::{Race, agrees_from_the_base, agrees_from_the_start, run_race_within};
use hl_words::{Realm, Seed};
use std::alloc::Global;
use std::marker::Brand;
use std::sync::Wait;
use std::test::Fail;

#[test]
fn full_journals_end_a_race(rt: HostRuntime) -> Result<(), Fail> {
    for journal in [0, 1, 40, 500] {
        let race = Race::checked(4, 200, false).ok_or("a race in range")?;
        let raced = run_race_within(&rt, rt.alloc(), race, journal)?;
        assert!(rt; raced.agrees && raced.has_images);
    }
    Ok(())
}

/// Two riders make ten rounds each. All they allocate is 20 words, which two pages of 16 hold, so no allocation is refused:
/// each round is a record, a store, a load and a refresh. A load is no step, so a rider enters 3 steps a round, and besides
/// its acquire and its release: 64 in all. What the crew enters comes on top.
#[test]
fn a_race_makes_all_its_rounds(rt: HostRuntime) -> Result<(), Fail> {
    for cut in [false, true] {
        let race = Race::checked(2, 10, cut).ok_or("a race in range")?;
        let raced = run_race_within(&rt, rt.alloc(), race, 1_000)?;
        assert!(rt; raced.agrees && raced.has_images && raced.steps >= 64 && raced.loads == 20);
    }
    Ok(())
}

/// What is changed of an ending, of which all the rest is as it was.
#[derive(Clone, Copy, PartialEq, Eq)]
enum Change {
    Nothing,
    Snapshot,
    StepLeftOut,
    StepDoubled,
    Share,
}

// Changes an ending of five steps, of which the last is a release; how many steps the riders are then told to have entered.
// But for a share that is changed they are as many as the journal has, so that its length alone tells nothing.
fn changed(ending: &mut Ending<Ticket, Anything>, change: Change) -> Result<u64, Fault> {
    match change {
        Change::Nothing => {}
        Change::Snapshot => ending.snapshot.taken = 1,
        Change::StepLeftOut => drop(ending.journal.pop()),
        Change::StepDoubled => {
            if let Some(step) = ending.journal.pop() {
                ending.journal.push(step).map_err(|_| Fault::OutOfMemory)?;
                ending.journal.push(step).map_err(|_| Fault::OutOfMemory)?;
            }
        }
        Change::Share => return Ok(6),
    }
    Ok(ending.journal.len() as u64)
}

// What both audits say of five steps, an acquire, three records and a release, once this was changed of their ending.
fn audited<R: Wait, L: Realm>(
    rt: &R,
    alloc: Global,
    seed: Seed,
    change: Change,
) -> Result<[bool; 2], Fault>
    requires seed { IsSeedOf L.name L.parts L.table seed }
    requires named { (seed.sizes ≡ L.sizes) × (STAMP ≡ L.stamp) × (100 ≡ L.limit) }
{
    let params = seed.params();
    let (domain, mut riders) = Pages::<CountTable, L>::open(alloc, seed, 100, STAMP)?;
    let rider = allocate_pages(rt, &domain, riders.pop().ok_or(Fault::Size)?)?;
    riders.push(rider).map_err(|_| Fault::OutOfMemory)?;
    let mut ending = match domain.close(riders) {
        Ok(ending) => ending,
        Err((fault, ..)) => return Err(fault),
    };
    let shares = changed(&mut ending, change)?;
    Ok([
        agrees_from_the_start(alloc, params, &ending, shares)?,
        agrees_from_the_base(alloc, &ending, shares)?,
    ])
}

#[test]
fn an_audit_sees_what_was_changed(rt: HostRuntime) -> Result<(), Fail> {
    for change in [
        Change::Nothing,
        Change::Snapshot,
        Change::StepLeftOut,
        Change::StepDoubled,
        Change::Share,
    ] {
        let agrees = audited::<_, Brand>(&rt, rt.alloc(), seed(rt.alloc())?, change)?;
        assert_eq!(rt; agrees, [change == Change::Nothing; 2]);
    }
    Ok(())
}
