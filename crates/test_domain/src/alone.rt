//! A keeper that stands alone, with its words, as what an example asks.
ghost use Rattle.std.specs.Prelude.{◌≡◌, ◌*◌, ◌≤◌};
ghost use Rattle.hl_words.specs.States.{IsSeedOf};
ghost use Rattle.hl_keeper.specs.Keepers.{steps_most};

use crate::asked::{Either, NO_CALL, Out};
use crate::jobs::{Anything, Tells};
use crate::play::Play;
use hl_domain::unlocked::{load, look, store, sweep};
use hl_domain::{Keeper, Pass};
use hl_epoch::Epochs;
use hl_model::{Fault, Reply, Sizes, Step};
use hl_words::{Realm, Rider, Seed, Words};
use std::alloc::Global;
use std::test::Fail;

/// A keeper with its words.
#[derive(Drop)]
pub(crate) struct Alone<E: Epochs, L: Realm> {
    pub(crate) keeper: Keeper<E, Tells, Anything, L>,
    pub(crate) words: Words<L>,
    params: Sizes,
    stamp: u64,
    ghost cells: { words.cells ≡ params.frames * params.page_size },
}

/// A keeper where nothing was done yet.
pub(crate) fn open_alone<E: Epochs + Drop, L: Realm>(
    alloc: Global,
    seed: Seed,
    journal: u64,
    stamp: u64,
) -> Result<Play<E, L>, Fail>
    requires seed { IsSeedOf L.name L.parts L.table seed }
    requires most { (journal ≤ steps_most) × (stamp ≤ steps_most) }
    requires named { (seed.sizes ≡ L.sizes) × (stamp ≡ L.stamp) }
{
    let params = seed.params();
    let (keeper, words, riders) = Keeper::open(alloc, seed, journal, stamp)?;
    let alone = Alone {
        keeper,
        words,
        params,
        stamp,
    };
    Play::of(alloc, Either::Alone(alone), riders)
}

impl<E: Epochs + Drop, L: Realm> Alone<E, L> {
    pub(crate) fn of_pass(&mut self, pass: &mut Pass<L>, step: Step) -> Result<Reply, Fault> {
        let Alone {
            keeper,
            words,
            params,
            ..
        } = self;
        match step {
            Step::Refresh { .. } => Ok(Reply::Looked(keeper.refresh(words, pass)?)),
            Step::Look { .. } => Ok(Reply::Looked(look(words, pass)?)),
            Step::Allocate { n, .. } => Ok(Reply::At(keeper.allocate(words, pass, n)?)),
            Step::Read { a, .. } => Ok(Reply::Value(load(words, *params, pass, a)?)),
            Step::Write { a, v, .. } => {
                store(words, *params, pass, a, v)?;
                Ok(Reply::Written)
            }
            _ => Err(NO_CALL),
        }
    }

    pub(crate) fn of_rider(&mut self, rider: &mut Rider<L>, step: Step) -> Result<Reply, Fault> {
        let Alone { keeper, words, .. } = self;
        match step {
            Step::Bare => Ok(Reply::Bumped(keeper.bare(words, rider)?)),
            Step::Raise { x } => Ok(Reply::Raised(keeper.raise(words, rider, x)?)),
            Step::Shift { x } => Ok(Reply::Shifted(keeper.shift(words, rider, x)?)),
            _ => Err(NO_CALL),
        }
    }

    pub(crate) fn take(&mut self, rider: &mut Rider<L>, step: Step) -> Result<Out, Fault> {
        let Alone {
            keeper,
            words,
            params,
            stamp,
        } = self;
        match step {
            Step::Take => Ok(Out::Action(keeper.take(words, rider)?.run())),
            Step::FlushTake => Ok(Out::Load(keeper.flush_take(words, rider)?)),
            Step::CleanTake => {
                let mut broom = keeper.clean_take(words, rider)?;
                if let Err(fault) = sweep(words, *params, *stamp, &mut broom, rider) {
                    broom.forsake();
                    return Err(fault);
                }
                Ok(Out::Broom(broom))
            }
            _ => Err(NO_CALL),
        }
    }

    pub(crate) fn done(
        &mut self,
        rider: &mut Rider<L>,
        out: Out,
        ok: bool,
    ) -> Result<Reply, (Fault, Out)> {
        let Alone { keeper, words, .. } = self;
        match out {
            Out::Action(ran) => match keeper.done(words, rider, ran) {
                Ok(reply) => Ok(reply),
                Err((fault, ran)) => Err((fault, Out::Action(ran))),
            },
            Out::Load(load) => match keeper.flush_done(words, rider, load, ok) {
                Ok(flushed) => Ok(Reply::Flushed(flushed)),
                Err((fault, load)) => Err((fault, Out::Load(load))),
            },
            Out::Broom(broom) if broom.swept() == keeper.params().page_size() => {
                match keeper.clean_done(words, rider, broom) {
                    Ok(page) => Ok(Reply::Freed(page)),
                    Err((fault, broom)) => Err((fault, Out::Broom(broom))),
                }
            }
            out => Err((Fault::Size, out)),
        }
    }
}
