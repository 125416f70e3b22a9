//! A crew that cuts ends whatever its journal holds.
ghost use Rattle.std.specs.Prelude.{◌≡◌, ◌≤◌};
ghost use Rattle.hl_keeper.specs.Keepers.{steps_most};
ghost use Rattle.hl_words.specs.States.{IsSeedOf};

use crate::crew::{Pages, STAMP, seed_of};
use crate::serves::serve_out;
use hl_counts::CountTable;
use hl_crew::{CrewRiders, Duty};
use hl_model::Fault;
use hl_words::{Realm, Rider, Seed};
use std::alloc::Global;
use std::marker::Brand;
use std::sync::Wait;
use std::test::Fail;
use std::thread::Threads;

// A slot acquires, allocates three pages whole, and leaves. Before each call but the first it cuts.
fn place_by_cuts<R: Wait, L: Realm>(
    rt: &R,
    domain: &Pages<CountTable, L>,
    rider: Rider<L>,
) -> Result<Rider<L>, Fault> {
    let mut pass = domain.acquire(rt, 0, rider).map_err(|(fault, _)| fault)?;
    for _ in 0..3 {
        domain.cut(rt, pass.rider_mut());
        domain.allocate(rt, &mut pass, 4)?;
    }
    domain.cut(rt, pass.rider_mut());
    domain.release(rt, pass).map_err(|(fault, _)| fault)
}

// How many steps there are once a crew has ended that had its stop before it began. Its journal has room for so many, and
// it cuts a full one.
fn steps_by<R, L>(rt: &R, alloc: Global, seed: Seed, journal: u64) -> Result<u64, Fault>
where
    R: Threads + Wait + Sync,
    L: Realm + Send + Sync,
    requires seed { IsSeedOf L.name L.parts L.table seed }
    requires named { (seed.sizes ≡ L.sizes) × (STAMP ≡ L.stamp) × (journal ≡ L.limit) }
    requires most { journal ≤ steps_most }
{
    let (domain, mut riders) = Pages::<CountTable, L>::open(alloc, seed, journal, STAMP)?;
    let _ = place_by_cuts(rt, &domain, riders.pop().ok_or(Fault::Size)?);
    let duty = Duty::checked(domain.params(), 1, 3).ok_or(Fault::Size)?;
    let crew = CrewRiders::take_from(&mut riders).ok_or(Fault::Size)?;
    serve_out(rt, alloc, &domain, crew, duty.cutting_above(100))?;
    let (_, kept, cut) = domain.snapshot(rt);
    Ok(kept.saturating_add(cut))
}

/// An acquire, three records and a release, and the crew's raise, settle, take, done, and two pages taken and ended: 13
/// steps, if the journal has room for one. Without that no step is made, and the crew ends all the same: a test that
/// takes a minute is ended.
#[test]
fn a_crew_ends_whatever_its_journal_holds(rt: HostRuntime) -> Result<(), Fail> {
    for (journal, steps) in [(0, 0), (1, 13), (2, 13), (8, 13), (32, 13), (33, 13)] {
        let seed = seed_of(rt.alloc(), 5)?;
        assert_eq!(rt;
            steps_by::<_, Brand>(&rt, rt.alloc(), seed, journal)?,
            steps
        );
    }
    Ok(())
}
