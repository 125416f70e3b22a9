//! Two threads that bump a new domain of their own.
ghost use Rattle.std.specs.Prelude.{◌≡◌, IfSome};
ghost use Rattle.hl_words.specs.States.{IsSeedOf};
ghost use Rattle.hl_model.specs.Sizes.{Sizes as SIZES};
ghost use Rattle.example_turns.specs.Turns.{IsInTurn};

use crate::{Turns, bump_in_turn};
use hl_counts::CountTable;
use hl_domain::{AnyAnswer, Domain, NoJob, Params, Realm, Seed};
use std::alloc::Global;
use std::marker::Brand;
use std::sync::Wait;
use std::thread::Threads;

/// How many steps the domain's journal may have: one for each thread.
const JOURNAL: u64 = 2;

/// The domain's stamp.
const STAMP: u64 = 2000;

/// Opens a small domain, and lets each of two threads end an epoch there, as [`bump_in_turn`] tells. That neither is
/// refused is not proved: a test sees it.
///
/// `None` if memory was refused.
pub fn bump_anew<R: Threads + Wait + Sync>(rt: &R, alloc: Global) -> Option<Turns<NoJob, AnyAnswer>>
    ensures { IfSome result (λ turns. (sizes : SIZES) × IsInTurn sizes turns) }
{
    let params = Params::checked(4, 2, 1, 1)?;
    let seed = Seed::make(alloc, params, 2).ok()?;
    bump_over::<R, Brand>(rt, alloc, seed)
}

// The same over the words of a seed.
fn bump_over<R, L>(rt: &R, alloc: Global, seed: Seed) -> Option<Turns<NoJob, AnyAnswer>>
where
    R: Threads + Wait + Sync,
    L: Realm + Send + Sync,
    requires seed { IsSeedOf L.name L.parts L.table seed }
    requires named { (seed.sizes ≡ L.sizes) × (2000 ≡ L.stamp) × (2 ≡ L.limit) }
    ensures { IfSome result (λ turns. (sizes : SIZES) × IsInTurn sizes turns) }
{
    let (domain, mut riders) = Domain::<CountTable, NoJob, AnyAnswer, L>::open(
        alloc, seed, JOURNAL, STAMP,
    ).ok()?;
    let two = riders.pop()?;
    let one = riders.pop()?;
    bump_in_turn(rt, alloc, domain, one, two)
}
