//! A keeper or a domain, so that a line of an example can ask either; and what is taken from them.
use crate::alone::Alone;
use crate::jobs::{Anything, Asked, Pages, Tells};
use crate::shared;
use hl_action::Ran;
use hl_domain::{Broom, Ending, Load, Pass};
use hl_epoch::Epochs;
use hl_model::{Fault, Reply, Snapshot, Step};
use hl_words::{Realm, Rider};
use std::sync::Wait;

/// What was taken and isn't done: an action that ran, a page in flight, or a page that was swept.
pub(crate) enum Out {
    Action(Ran),
    Load(Load),
    Broom(Broom),
}

impl Out {
    /// Whether this line is done with it.
    pub(crate) fn is_of(&self, step: Step) -> bool {
        match (self, step) {
            (Out::Action(ran), Step::Done { ticket }) => ran.ticket() == ticket,
            (Out::Load(load), Step::FlushDone { page, .. }) => load.job().page == page,
            (Out::Broom(broom), Step::CleanDone { page }) => broom.page() == page,
            _ => false,
        }
    }

    /// The stamp of the domain that it was taken from.
    pub(crate) fn origin(&self) -> u64 {
        match self {
            Out::Action(ran) => ran.origin(),
            Out::Load(load) => load.job().stamp,
            Out::Broom(broom) => broom.stamp(),
        }
    }

    /// What a take of it replies.
    pub(crate) fn reply(&self) -> Reply {
        match self {
            Out::Action(ran) => Reply::Taken(ran.ticket()),
            Out::Load(load) => Reply::Page(load.job().page),
            Out::Broom(broom) => Reply::Page(broom.page()),
        }
    }
}

/// What is out, and is given up where it is let go.
pub(crate) struct Taken {
    pub(crate) out: Out,
}

impl Taken {
    pub(crate) fn into_out(self) -> Out {
        let Taken { out } = self;
        out
    }
}

impl Drop for Taken {
    fn drop(self) {
        let Taken { out } = self;
        match out {
            Out::Action(ran) => ran.forsake(),
            Out::Load(load) => load.forsake(),
            Out::Broom(broom) => broom.forsake(),
        }
    }
}

/// No call: such a line is a mistake of its example.
pub(crate) const NO_CALL: Fault = Fault::BadLine { n: 0 };

/// A keeper with its words, or a domain.
#[derive(Drop)]
pub(crate) enum Either<E: Epochs, L: Realm> {
    Alone(Alone<E, L>),
    Shared(Pages<E, L>),
}

impl<E: Epochs + Drop, L: Realm> Either<E, L> {
    pub(crate) fn acquire(
        &mut self,
        rt: &impl Wait,
        t: u64,
        rider: Rider<L>,
    ) -> Result<Pass<L>, (Fault, Rider<L>)> {
        match self {
            Either::Alone(alone) => alone.keeper.acquire(&alone.words, t, rider),
            Either::Shared(domain) => domain.acquire(rt, t, rider),
        }
    }

    pub(crate) fn release(
        &mut self,
        rt: &impl Wait,
        pass: Pass<L>,
    ) -> Result<Rider<L>, (Fault, Pass<L>)> {
        match self {
            Either::Alone(alone) => alone.keeper.release(&alone.words, pass),
            Either::Shared(domain) => domain.release(rt, pass),
        }
    }

    /// A refresh, an allocation, a look, a write or a read. What a look sees it isn't told.
    pub(crate) fn of_pass(
        &mut self,
        rt: &impl Wait,
        pass: &mut Pass<L>,
        step: Step,
    ) -> Result<Reply, Fault> {
        match self {
            Either::Alone(alone) => alone.of_pass(pass, step),
            Either::Shared(domain) => shared::of_pass(domain, rt, pass, step),
        }
    }

    /// A bare bump, a raise or a shift.
    pub(crate) fn of_rider(
        &mut self,
        rt: &impl Wait,
        rider: &mut Rider<L>,
        step: Step,
    ) -> Result<Reply, Fault> {
        match self {
            Either::Alone(alone) => alone.of_rider(rider, step),
            Either::Shared(domain) => shared::of_rider(domain, rt, rider, step),
        }
    }

    pub(crate) fn bump(
        &mut self,
        rt: &impl Wait,
        rider: &mut Rider<L>,
        ask: Asked,
    ) -> Result<u64, (Fault, Asked)> {
        match self {
            Either::Alone(alone) => alone.keeper.bump(&alone.words, rider, ask),
            Either::Shared(domain) => domain.bump(rt, rider, ask),
        }
    }

    /// Takes an action, which is run, a page to flush, or a page to clean, which is swept.
    pub(crate) fn take(
        &mut self,
        rt: &impl Wait,
        rider: &mut Rider<L>,
        step: Step,
    ) -> Result<Out, Fault> {
        match self {
            Either::Alone(alone) => alone.take(rider, step),
            Either::Shared(domain) => shared::take(domain, rt, rider, step),
        }
    }

    /// Is done with it, well or not. `Size` where a page to clean isn't swept.
    pub(crate) fn done(
        &mut self,
        rt: &impl Wait,
        rider: &mut Rider<L>,
        out: Out,
        ok: bool,
    ) -> Result<Reply, (Fault, Out)> {
        match self {
            Either::Alone(alone) => alone.done(rider, out, ok),
            Either::Shared(domain) => shared::done(domain, rt, rider, out, ok),
        }
    }

    pub(crate) fn cut(&mut self, rt: &impl Wait, rider: &mut Rider<L>) -> u64 {
        match self {
            Either::Alone(alone) => alone.keeper.cut(&alone.words, rider),
            Either::Shared(domain) => domain.cut(rt, rider),
        }
    }

    /// What is left, where all riders are there.
    pub(crate) fn close(self, riders: Vec<Rider<L>>) -> Option<Ending<Tells, Anything>> {
        match self {
            Either::Alone(Alone { keeper, words, .. }) => keeper.close(words, riders).ok(),
            Either::Shared(domain) => domain.close(riders).ok(),
        }
    }

    pub(crate) fn snapshot(&self, rt: &impl Wait) -> (Snapshot, u64, u64) {
        match self {
            Either::Alone(alone) => alone.keeper.snapshot(),
            Either::Shared(domain) => domain.snapshot(rt),
        }
    }
}
