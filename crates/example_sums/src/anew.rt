//! Two threads that add to a counter of a new domain of their own.
ghost use Rattle.std.specs.Prelude.{ℕ, ◌≡◌, IfSome};
ghost use Rattle.hl_words.specs.States.{IsSeedOf};
ghost use Rattle.hl_model.specs.Sizes.{Sizes as SIZES};
ghost use Rattle.example_sums.specs.Adding.{AddsNothing, AddedUp};

use crate::adder::leave;
use crate::{Adds, Sums, add_by_two};
use hl_domain::{
    AnyAnswer, CountTable, Domain, Epochs, NoJob, Params, Promise, Realm, Rider, Seed, Task,
};
use std::alloc::Global;
use std::marker::Brand;
use std::sync::Wait;
use std::thread::Threads;

/// How many steps the domain's journal may have: an acquire and a release for each of three passes, the counter's
/// allocation, and the 32 touches that a thread's pass has room for.
const JOURNAL: u64 = 71;

/// The domain's stamp.
const STAMP: u64 = 2000;

/// Opens a small domain, places a counter there, and lets each of two threads add its numbers to it, as [`add_by_two`]
/// tells. A thread adds 32 of its numbers at most. That the counter is placed, and that none of these adds is refused,
/// is not proved: a test sees it.
///
/// `None` if memory was refused, or the counter was.
pub fn add_anew<R: Threads + Wait + Sync>(
    rt: &R,
    alloc: Global,
    first: &[u64],
    second: &[u64],
) -> Option<Sums<NoJob, AnyAnswer>>
    ensures { IfSome result (λ sums. (sizes : SIZES) × (cell : ℕ) × AddedUp sizes cell sums) }
{
    let params = Params::checked(4, 2, 2, 1)?;
    let seed = Seed::make(alloc, params, 2).ok()?;
    add_over::<R, Brand>(rt, alloc, seed, first, second)
}

// The same over the words of a seed.
fn add_over<R, L>(
    rt: &R,
    alloc: Global,
    seed: Seed,
    first: &[u64],
    second: &[u64],
) -> Option<Sums<NoJob, AnyAnswer>>
where
    R: Threads + Wait + Sync,
    L: Realm + Send + Sync,
    requires seed { IsSeedOf L.name L.parts L.table seed }
    requires both { seed.riders ≡ 2 }
    requires named { (seed.sizes ≡ L.sizes) × (2000 ≡ L.stamp) × (71 ≡ L.limit) }
    ensures { IfSome result (λ sums. (sizes : SIZES) × (cell : ℕ) × AddedUp sizes cell sums) }
{
    let (domain, mut riders) = Domain::<CountTable, NoJob, AnyAnswer, L>::open(
        alloc, seed, JOURNAL, STAMP,
    ).ok()?;
    let two = riders.pop()?;
    let one = riders.pop()?;
    let (counter, one) = place(rt, &domain, one)?;
    let adds = Adds {
        counter,
        first,
        second,
    };
    add_by_two(rt, alloc, domain, one, two, adds)
}

// Places a record of one word, and returns its address beside the rider. `None` if a call was refused.
fn place<E: Epochs + Drop, F: Task, P: Promise, L: Realm>(
    rt: &impl Wait,
    domain: &Domain<E, F, P, L>,
    rider: Rider<L>,
) -> Option<(u64, Rider<L>)>
    ensures { IfSome result (λ placed. AddsNothing rider.view.touches placed.1.view.touches) }
{
    let mut pass = domain.enter(rt, rider).ok()?;
    let placed = domain.allocate(rt, &mut pass, 1);
    let rider = leave(rt, domain, pass);
    Some((placed.ok()?, rider))
}
