//! A value that is passed in words of its own.
ghost use Rattle.std.specs.Prelude.{ℕ, ◌≡◌, ◌<◌, IfSome};
ghost use Rattle.hl_words.specs.States.{IsSeedOf};
ghost use Rattle.example_passing.specs.Passes.{IsPassed};

use crate::{Letter, Opened, Passed, pass_value};
use hl_model::Params;
use hl_words::{Realm, Seed, Words};
use std::alloc::Global;
use std::marker::Brand;
use std::sync::Wait;
use std::thread::Threads;

/// Opens eight words, and passes a value from one thread to another, as [`pass_value`] tells.
///
/// `None` if no past was there yet, or memory was refused.
pub fn pass_anew<R: Threads + Wait + Sync>(rt: &R, alloc: Global, value: u64) -> Option<Passed>
    ensures { IfSome result (λ passed. (cells : ℕ) × IsPassed cells 0 value passed) }
{
    let params = Params::checked(4, 2, 1, 1)?;
    let seed = Seed::make(alloc, params, 2).ok()?;
    pass_over::<R, Brand>(rt, alloc, seed, value)
}

// The same over the words of a seed.
fn pass_over<R, L>(rt: &R, alloc: Global, seed: Seed, value: u64) -> Option<Passed>
where
    R: Threads + Wait + Sync,
    L: Realm + Send + Sync,
    requires seed { IsSeedOf L.name L.parts L.table seed }
    requires two { (seed.riders ≡ 2) × (0 < seed.cells) }
    ensures { IfSome result (λ passed. (cells : ℕ) × IsPassed cells 0 value passed) }
{
    let (words, master, mut riders) = Words::<L>::open(alloc, seed).ok()?;
    let two = riders.pop()?;
    let one = riders.pop()?;
    let opened = Opened {
        words,
        master,
        one,
        two,
    };
    pass_value(rt, alloc, opened, Letter { cell: 0, value })
}
