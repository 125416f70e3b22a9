//! A domain whose riders aren't all there, and one whose journal is full.
ghost use Rattle.std.specs.Prelude.{◌≡◌};
ghost use Rattle.hl_words.specs.States.{IsSeedOf};

use crate::jobs::{Pages, job, passed, released, small_seed, ticket_of, view};
use hl_counts::CountTable;
use hl_domain::Pass;
use hl_drain::Ask;
use hl_epoch::{Epochs, ScanTable};
use hl_model::{Fault, Tagged};
use hl_words::{Realm, Rider, Seed};
use std::alloc::Global;
use std::marker::Brand;
use std::process::Abort;
use std::sync::Wait;
use std::test::Fail;

fn held_pass<E: Epochs + Drop, L: Realm>(
    rt: &(impl Wait + Abort),
    alloc: Global,
    seed: Seed,
) -> Result<(), Fail>
    requires seed { IsSeedOf L.name L.parts L.table seed }
    requires named { (seed.sizes ≡ L.sizes) × (2000 ≡ L.stamp) × (100 ≡ L.limit) }
{
    let (domain, mut riders) = Pages::<E, L>::open(alloc, seed, 100, 2000)?;
    let rider = riders.pop().ok_or("a rider")?;
    let pass = start(rt, &domain, rider)?;
    refuse_and_close(rt, domain, riders, pass)
}

fn start<E: Epochs + Drop, L: Realm>(
    rt: &(impl Wait + Abort),
    domain: &Pages<E, L>,
    rider: Rider<L>,
) -> Result<Pass<L>, Fault> {
    let mut pass = passed(domain.acquire(rt, 0, rider))?;
    let place = domain.allocate(rt, &mut pass, 4);
    assert_eq!(rt; place, Ok(0));
    Ok(pass)
}

// The close is refused and all comes back; once the pass is released, the domain is closed.
fn refuse_and_close<E: Epochs + Drop, L: Realm>(
    rt: &(impl Wait + Abort),
    domain: Pages<E, L>,
    riders: Vec<Rider<L>>,
    pass: Pass<L>,
) -> Result<(), Fail> {
    let before = domain.snapshot(rt);
    let Err((fault, domain, mut riders)) = domain.close(riders) else {
        panic!(rt; "a rider is missing")
    };
    let as_before = riders.len() == 1 && domain.snapshot(rt) == before;
    riders.push(go_on(rt, &domain, pass)?)?;
    let closed = domain.close(riders).is_ok();
    assert!(rt; fault == Fault::Stranger { stamp: 2000 } && as_before && closed);
    Ok(())
}

// The pass stores and loads, and is released.
fn go_on<E: Epochs + Drop, L: Realm>(
    rt: &(impl Wait + Abort),
    domain: &Pages<E, L>,
    mut pass: Pass<L>,
) -> Result<Rider<L>, Fault> {
    assert_eq!(rt; domain.store(&mut pass, 3, 7), Ok(()));
    assert_eq!(rt; domain.refresh(rt, &mut pass), Ok(view(0, 0, 4)));
    assert_eq!(rt; domain.load(&mut pass, 3), Ok(7));
    released(domain.release(rt, pass))
}

/// A pass is held, or a rider was let go: a domain is closed by all its riders alone.
#[test]
fn close_with_a_rider_missing(rt: HostRuntime) -> Result<(), Fail> {
    held_pass::<ScanTable, Brand>(&rt, rt.alloc(), small_seed(rt.alloc(), 2)?)?;
    held_pass::<CountTable, Brand>(&rt, rt.alloc(), small_seed(rt.alloc(), 2)?)
}

fn full_journal<E: Epochs + Drop, L: Realm>(
    rt: &(impl Wait + Abort),
    alloc: Global,
    seed: Seed,
) -> Result<(), Fail>
    requires seed { IsSeedOf L.name L.parts L.table seed }
    requires named { (seed.sizes ≡ L.sizes) × (2000 ≡ L.stamp) × (1 ≡ L.limit) }
{
    let (domain, mut riders) = Pages::<E, L>::open(alloc, seed, 1, 2000)?;
    let rider = riders.last_mut().ok_or("a rider")?;
    bump_again(rt, &domain, rider);
    assert!(rt; domain.close(riders).is_ok());
    Ok(())
}

// There is no room behind the first step. What comes back is stored once the journal is cut.
fn bump_again<E: Epochs + Drop, L: Realm>(
    rt: &(impl Wait + Abort),
    domain: &Pages<E, L>,
    rider: &mut Rider<L>,
) {
    assert_eq!(rt; domain.bare(rt, rider), Ok(1));
    let before = domain.snapshot(rt);
    let Err((fault, back)) = domain.bump(rt, rider, job(7, 10)) else {
        panic!(rt; "the journal is full")
    };
    assert!(rt; fault == Fault::JournalFull && domain.snapshot(rt) == before);
    assert!(rt; matches!(&back, Ask::User(kept) if kept.tag() == 7));
    assert_eq!(rt; domain.cut(rt, rider), 1);
    assert_eq!(rt; ticket_of(domain.bump(rt, rider, back)), Ok(2));
}

/// A bump without room hands its job back.
#[test]
fn a_bump_without_room(rt: HostRuntime) -> Result<(), Fail> {
    full_journal::<ScanTable, Brand>(&rt, rt.alloc(), small_seed(rt.alloc(), 2)?)?;
    full_journal::<CountTable, Brand>(&rt, rt.alloc(), small_seed(rt.alloc(), 2)?)
}
