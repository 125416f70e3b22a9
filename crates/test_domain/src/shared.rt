//! A domain as what an example asks.
ghost use Rattle.std.specs.Prelude.{◌≡◌, ◌≤◌};
ghost use Rattle.hl_words.specs.States.{IsSeedOf};
ghost use Rattle.hl_keeper.specs.Keepers.{steps_most};

use crate::asked::{Either, NO_CALL, Out};
use crate::jobs::Pages;
use crate::play::Play;
use hl_domain::Pass;
use hl_epoch::Epochs;
use hl_model::{Fault, Reply, Step};
use hl_words::{Realm, Rider, Seed};
use std::alloc::Global;
use std::sync::Wait;
use std::test::Fail;

/// A domain where nothing was done yet.
pub(crate) fn open_shared<E: Epochs + Drop, L: Realm>(
    alloc: Global,
    seed: Seed,
    journal: u64,
    stamp: u64,
) -> Result<Play<E, L>, Fail>
    requires seed { IsSeedOf L.name L.parts L.table seed }
    requires most { (journal ≤ steps_most) × (stamp ≤ steps_most) }
    requires named { (seed.sizes ≡ L.sizes) × (stamp ≡ L.stamp) × (journal ≡ L.limit) }
{
    let (domain, riders) = Pages::<E, L>::open(alloc, seed, journal, stamp)?;
    Play::of(alloc, Either::Shared(domain), riders)
}

pub(crate) fn of_pass<E: Epochs + Drop, L: Realm>(
    domain: &Pages<E, L>,
    rt: &impl Wait,
    pass: &mut Pass<L>,
    step: Step,
) -> Result<Reply, Fault> {
    match step {
        Step::Refresh { .. } => Ok(Reply::Looked(domain.refresh(rt, pass)?)),
        Step::Look { .. } => Ok(Reply::Looked(domain.look(pass)?)),
        Step::Allocate { n, .. } => Ok(Reply::At(domain.allocate(rt, pass, n)?)),
        Step::Read { a, .. } => Ok(Reply::Value(domain.load(pass, a)?)),
        Step::Write { a, v, .. } => {
            domain.store(pass, a, v)?;
            Ok(Reply::Written)
        }
        _ => Err(NO_CALL),
    }
}

pub(crate) fn of_rider<E: Epochs + Drop, L: Realm>(
    domain: &Pages<E, L>,
    rt: &impl Wait,
    rider: &mut Rider<L>,
    step: Step,
) -> Result<Reply, Fault> {
    match step {
        Step::Bare => Ok(Reply::Bumped(domain.bare(rt, rider)?)),
        Step::Raise { x } => Ok(Reply::Raised(domain.raise(rt, rider, x)?)),
        Step::Shift { x } => Ok(Reply::Shifted(domain.shift(rt, rider, x)?)),
        _ => Err(NO_CALL),
    }
}

pub(crate) fn take<E: Epochs + Drop, L: Realm>(
    domain: &Pages<E, L>,
    rt: &impl Wait,
    rider: &mut Rider<L>,
    step: Step,
) -> Result<Out, Fault> {
    match step {
        Step::Take => Ok(Out::Action(domain.take(rt, rider)?.run())),
        Step::FlushTake => Ok(Out::Load(domain.flush_take(rt, rider)?)),
        Step::CleanTake => {
            let mut broom = domain.clean_take(rt, rider)?;
            if let Err(fault) = domain.sweep(&mut broom, rider) {
                broom.forsake();
                return Err(fault);
            }
            Ok(Out::Broom(broom))
        }
        _ => Err(NO_CALL),
    }
}

pub(crate) fn done<E: Epochs + Drop, L: Realm>(
    domain: &Pages<E, L>,
    rt: &impl Wait,
    rider: &mut Rider<L>,
    out: Out,
    ok: bool,
) -> Result<Reply, (Fault, Out)> {
    match out {
        Out::Action(ran) => match domain.done(rt, rider, ran) {
            Ok(reply) => Ok(reply),
            Err((fault, ran)) => Err((fault, Out::Action(ran))),
        },
        Out::Load(load) => match domain.flush_done(rt, rider, load, ok) {
            Ok(flushed) => Ok(Reply::Flushed(flushed)),
            Err((fault, load)) => Err((fault, Out::Load(load))),
        },
        Out::Broom(broom) if broom.swept() == domain.params().page_size() => {
            match domain.clean_done(rt, rider, broom) {
                Ok(page) => Ok(Reply::Freed(page)),
                Err((fault, broom)) => Err((fault, Out::Broom(broom))),
            }
        }
        out => Err((Fault::Size, out)),
    }
}
