ghost use Rattle.std.specs.Prelude.{◌≡◌, ◌+◌, ◌<◌, ◌≤◌};
ghost use Rattle.hl_words.specs.States.{IsSeedOf, new_master};

use hl_model::Params;
use hl_words::{Master, Realm, Rider, Seed, Which, Words};
use std::alloc::Global;
use std::marker::Brand;
use std::process::Abort;
use std::test::*;
use std::thread::{Threads, join};

/// Two frames of four words, and two riders.
#[test]
fn shared_words(rt: HostRuntime) -> Result<(), Fail> {
    let params = Params::checked(4, 2, 2, 4).ok_or("sizes in range")?;
    let seed = Seed::make(rt.alloc(), params, 2)?;
    two_riders::<Brand, _>(&rt, rt.alloc(), seed)
}

fn two_riders<L: Realm + Send + Sync, R: Threads + Abort + Sync>(
    rt: &R,
    alloc: Global,
    seed: Seed,
) -> Result<(), Fail>
    requires seed { IsSeedOf L.name L.parts L.table seed }
    requires sizes { seed.cells ≡ 8 }
{
    let (words, mut master, mut riders) = Words::<L>::open(alloc, seed)?;
    let other = use_words(rt, &words, &mut master, &mut riders)?;
    let Err((words, master, mut riders)) = words.close(master, riders) else {
        panic!(rt; "closed without a rider")
    };
    riders.push(other)?;
    let Ok(last) = words.close(master, riders) else {
        panic!(rt; "a rider is missing")
    };
    assert!(rt; last.cell(0) == 0 && last.cell(1) == 6);
    assert!(rt; last.offset(Which::ReadOnly) == 8 && last.offset(Which::Head) == 0);
    Ok(())
}

// Both riders store and load, offsets are raised, and steps are entered. Leaves the first rider among them, and gives
// the second one.
fn use_words<L: Realm + Send + Sync, R: Threads + Abort + Sync>(
    rt: &R,
    words: &Words<L>,
    master: &mut Master<L>,
    riders: &mut Vec<Rider<L>>,
) -> Result<Rider<L>, Fail>
    requires cells { words.now.cells ≡ 8 }
    requires master { master.old ≡ new_master }
{
    let mut other = riders.pop().ok_or("a rider")?;
    let mut rider = riders.pop().ok_or("a rider")?;
    store_and_see(rt, words, &mut rider, &mut other);
    words.store_offset(master, Which::ReadOnly, 4);
    words.store_offset(master, Which::ReadOnly, 4);
    words.store_offset(master, Which::ReadOnly, 8);
    see_offsets(rt, words, &mut other);
    master.enter(&mut rider, 3);
    assert!(rt; rider.share() == 3 && master.total() == 3);
    let (first, second) = both(rt, words, rider, other);
    assert!(rt; first.1 && second.1);
    riders.push(first.0)?;
    Ok(second.0)
}

// What one stores both load.
fn store_and_see<L: Realm>(
    rt: &impl Abort,
    words: &Words<L>,
    rider: &mut Rider<L>,
    other: &mut Rider<L>,
)
    requires { words.now.cells ≡ 8 }
{
    words.store_cell(rider, 1, 5);
    words.store_cell(rider, 1, 6);
    assert_eq!(rt; words.load_cell(other, 1), 6);
    assert_eq!(rt; words.load_cell(rider, 1), 6);
}

// An offset that was raised is told, and another that wasn't.
fn see_offsets<L: Realm>(rt: &impl Abort, words: &Words<L>, rider: &mut Rider<L>) {
    assert_eq!(rt; words.load_offset(rider, Which::ReadOnly), 8);
    assert_eq!(rt; words.load_offset(rider, Which::Head), 0);
}

// Each stores and loads in a thread of its own.
fn both<L: Realm + Send + Sync, R: Threads + Sync>(
    rt: &R,
    words: &Words<L>,
    rider: Rider<L>,
    other: Rider<L>,
) -> ((Rider<L>, bool), (Rider<L>, bool))
    requires { 2 < words.now.cells }
{
    join(
        rt,
        || -> (Rider<L>, bool)
            requires { 2 < words.now.cells }
        { store_and_load(words, rider, 1000, 2000) },
        || -> (Rider<L>, bool)
            requires { 2 < words.now.cells }
        { store_and_load(words, other, 2000, 1000) },
    )
}

// Stores 1,000 numbers from `own` on into cell 2 and loads after each: whether each load is of its own last store, or
// of one of the 1,000 numbers from `other` on.
fn store_and_load<L: Realm>(
    words: &Words<L>,
    mut rider: Rider<L>,
    own: u64,
    other: u64,
) -> (Rider<L>, bool)
    requires { (2 < words.now.cells) × (own ≤ 2000) × (other ≤ 2000) }
{
    let mut lawful = true;
    for i in 0..1000 {
        words.store_cell(&mut rider, 2, own + i);
        let loaded = words.load_cell(&mut rider, 2);
        lawful &= loaded == own + i || (other <= loaded && loaded < other + 1000);
    }
    (rider, lawful)
}
