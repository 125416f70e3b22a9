//! A bump of which another thread was told: that one's own bump has a greater number.
ghost use Rattle.std.specs.Prelude.{◌≡◌, IfSome, length};
ghost use Rattle.hl_words.specs.States.{IsSeedOf, new_rider};
ghost use Rattle.hl_model.specs.Sizes.{Sizes as SIZES};
ghost use Rattle.example_turns.specs.After.{BumpedFirst, BumpedTold, InOrder};

use hl_counts::CountTable;
use hl_domain::laws::told_calls_begin;
use hl_domain::{
    AnyAnswer, Domain, Ending, Epochs, NoJob, Params, Past, Promise, Realm, Rider, Seed, Task,
};
use std::alloc::Global;
use std::marker::Brand;
use std::sync::{Mutex, Wait};
use std::thread::{Threads, join};

/// What two riders were answered, of whom the second was told of the first one's bump, and what is left of their domain.
#[derive(Drop)]
pub struct Numbers<F: Task, P: Promise> {
    /// The number of the epoch that the first rider ended.
    pub first: u64,
    /// The number of the epoch that the second rider ended.
    pub second: u64,
    /// What is left of the domain.
    pub ending: Ending<F, P>,
}

/// How many steps the domain's journal may have: one for each thread.
const JOURNAL: u64 = 2;

/// The domain's stamp.
const STAMP: u64 = 2001;

/// Opens a small domain, and lets two threads end an epoch there one after the other, as [`bump_after`] tells.
///
/// `None` if no past was there yet, or memory was refused.
pub fn bump_after_anew<R: Threads + Wait + Sync>(
    rt: &R,
    alloc: Global,
) -> Option<Numbers<NoJob, AnyAnswer>>
    ensures { IfSome result (λ numbers. (sizes : SIZES) × InOrder sizes numbers) }
{
    let params = Params::checked(4, 2, 1, 1)?;
    let seed = Seed::make(alloc, params, 2).ok()?;
    bump_over::<R, Brand>(rt, alloc, seed)
}

// The same over the words of a seed.
fn bump_over<R, L>(rt: &R, alloc: Global, seed: Seed) -> Option<Numbers<NoJob, AnyAnswer>>
where
    R: Threads + Wait + Sync,
    L: Realm + Send + Sync,
    requires seed { IsSeedOf L.name L.parts L.table seed }
    requires two { seed.riders ≡ 2 }
    requires named { (seed.sizes ≡ L.sizes) × (2001 ≡ L.stamp) × (2 ≡ L.limit) }
    ensures { IfSome result (λ numbers. (sizes : SIZES) × InOrder sizes numbers) }
{
    let (domain, mut riders) = Domain::<CountTable, NoJob, AnyAnswer, L>::open(
        alloc, seed, JOURNAL, STAMP,
    ).ok()?;
    let two = riders.pop()?;
    let one = riders.pop()?;
    bump_after(rt, alloc, domain, one, two)
}

// The past of the rider of the name 0, which has one touch.
#[derive(Drop)]
struct Sent<L: Realm> {
    past: Past<L>,
    ghost first: { (past.name ≡ 0) × (length past.touches ≡ 1) },
}

/// One thread ends an epoch and leaves its past under a plain lock; the other ends one if it finds that past, and closes
/// the domain. Neither does anything else. The number of the first one's epoch is below that of the other's.
///
/// `None` if a call was refused, if no past was there yet, if memory was refused, or if the domain has a rider that is
/// none of these two; then the domain is given up.
pub fn bump_after<R, E, F, P, L>(
    rt: &R,
    alloc: Global,
    domain: Domain<E, F, P, L>,
    one: Rider<L>,
    two: Rider<L>,
) -> Option<Numbers<F, P>>
where
    R: Threads + Wait + Sync,
    E: Epochs + Drop + Send,
    F: Task + Send,
    P: Promise + Send,
    L: Realm + Send + Sync,
    requires new { (one ≡ new_rider 0) × (two ≡ new_rider 1) }
    ensures { IfSome result (InOrder domain.sizes) }
{
    told_calls_begin::<F>();
    let lock: Mutex<Option<Sent<L>>> = Mutex::new(None);
    let (shared, post) = (&domain, &lock);
    let ((first, one), (second, two)) = join(
        rt,
        move || -> (Option<u64>, Rider<L>)
            requires { one ≡ new_rider 0 }
            ensures { IfSome result.0 (λ number. BumpedFirst number result.1) }
        { bump_and_tell(rt, shared, one, post) },
        move || -> (Option<u64>, Rider<L>)
            requires { two ≡ new_rider 1 }
            ensures { IfSome result.0 (λ number. BumpedTold number result.1) }
        { bump_told(rt, shared, two, post) },
    );
    let mut riders = Vec::new(alloc);
    riders.push(one).ok()?;
    riders.push(two).ok()?;
    let ending = domain.close(riders).ok()?;
    let (first, second) = (first?, second?);
    Some(Numbers {
        first,
        second,
        ending,
    })
}

// Ends the current epoch, and leaves the rider's past under the lock.
fn bump_and_tell<E: Epochs + Drop, F: Task, P: Promise, L: Realm>(
    rt: &impl Wait,
    domain: &Domain<E, F, P, L>,
    mut rider: Rider<L>,
    post: &Mutex<Option<Sent<L>>>,
) -> (Option<u64>, Rider<L>)
    requires { rider ≡ new_rider 0 }
    ensures { IfSome result.0 (λ number. BumpedFirst number result.1) }
{
    match domain.bare(rt, &mut rider) {
        Ok(number) => {
            let past = domain.past(&mut rider);
            *post.lock(rt) = Some(Sent { past });
            (Some(number), rider)
        }
        Err(_) => (None, rider),
    }
}

// Ends the current epoch, if a past lies under the lock, of which the rider is told before.
fn bump_told<E: Epochs + Drop, F: Task, P: Promise, L: Realm>(
    rt: &impl Wait,
    domain: &Domain<E, F, P, L>,
    mut rider: Rider<L>,
    post: &Mutex<Option<Sent<L>>>,
) -> (Option<u64>, Rider<L>)
    requires { rider ≡ new_rider 1 }
    ensures { IfSome result.0 (λ number. BumpedTold number result.1) }
{
    let Some(sent) = post.lock(rt).take() else {
        return (None, rider);
    };
    let Sent { past } = sent;
    domain.tell_past(&mut rider, past);
    match domain.bare(rt, &mut rider) {
        Ok(number) => (Some(number), rider),
        Err(_) => (None, rider),
    }
}
