//! What a crew ends by a call of the domain.
ghost use Rattle.std.specs.Prelude.{◌≡◌, IfErr};
ghost use Rattle.hl_keeper.specs.Calls.{without_back};
ghost use Rattle.hl_crew.specs.Overs.{makes_room};
ghost use Rattle.hl_crew.specs.Tries.{EndsAction, EndsClean, EndsFlush, Tries, TriesFor};

use crate::cutting::make_room;
use crate::messages::Over;
use crate::run::Run;
use hl_action::{Promise, Ran, Task};
use hl_domain::{Broom, Domain, Load};
use hl_epoch::Epochs;
use hl_model::{Fault, Reply};
use hl_words::{Realm, Rider};
use std::sync::Wait;

/// How often what ends something is tried again, or a leave, while the journal is full and is cut.
pub const ATTEMPTS: u64 = 1_000;

/// That what was taken was ended, and the domain accepted it. Only [`Run::end_by`] makes one.
#[derive(Drop)]
pub(crate) struct Accepted {
    made: (),
}

/// What a call of the domain ends: one that refuses returns it.
pub trait Ends<E: Epochs + Drop, F: Task, P: Promise, L: Realm>: Sized {
    ghost use Rattle.std.specs.Prelude.{Result, ⊤};
    ghost use Rattle.hl_model.specs.declared.fault.Fault.{Fault};
    ghost use Rattle.hl_words.specs.States.{RiderState};
    ghost use Rattle.hl_domain.specs.Domains.{DomainState};

    /// What the call returns.
    type Answer: Drop;

    ghost can_end: { Self → DomainState → Type 0 } = { λ _ _. ⊤ };

    ghost ends: { Self → DomainState → Result Self.Answer Fault → RiderState → RiderState → Type 0 };

    /// Makes the call.
    fn end<R: Wait>(
        self,
        rt: &R,
        domain: &Domain<E, F, P, L>,
        rider: &mut Rider<L>,
    ) -> Result<Self::Answer, (Fault, Self)>
        requires { can_end self domain.now }
        ensures met { ends self domain.now (without_back result) rider.old rider.new }
        ensures refused { IfErr result (λ back. back.1 ≡ self) };

    /// Gives it up.
    fn forsake(self);
}

/// An action that was run.
impl<E: Epochs + Drop, F: Task, P: Promise, L: Realm> Ends<E, F, P, L> for Ran {
    type Answer = Reply;

    ghost ends = { λ ran domain. EndsAction F domain ran.origin ran.ticket };

    fn end<R: Wait>(
        self,
        rt: &R,
        domain: &Domain<E, F, P, L>,
        rider: &mut Rider<L>,
    ) -> Result<Reply, (Fault, Ran)> {
        domain.done(rt, rider, self)
    }

    fn forsake(self) {
        Ran::forsake(self);
    }
}

/// A page that was swept.
impl<E: Epochs + Drop, F: Task, P: Promise, L: Realm> Ends<E, F, P, L> for Broom {
    type Answer = u64;

    ghost can_end = { λ broom domain. broom.swept ≡ domain.sizes.page_size };

    ghost ends = { λ broom domain. EndsClean F domain broom };

    fn end<R: Wait>(
        self,
        rt: &R,
        domain: &Domain<E, F, P, L>,
        rider: &mut Rider<L>,
    ) -> Result<u64, (Fault, Broom)> {
        domain.clean_done(rt, rider, self)
    }

    fn forsake(self) {
        Broom::forsake(self);
    }
}

/// A page whose write ended, well or not.
pub(crate) struct Flush {
    pub(crate) load: Load,
    pub(crate) ok: bool,
}

impl<E: Epochs + Drop, F: Task, P: Promise, L: Realm> Ends<E, F, P, L> for Flush {
    type Answer = u64;

    ghost ends = { λ flush domain. EndsFlush F domain flush.load.page flush.ok flush.load.stamp };

    fn end<R: Wait>(
        self,
        rt: &R,
        domain: &Domain<E, F, P, L>,
        rider: &mut Rider<L>,
    ) -> Result<u64, (Fault, Flush)> {
        let Flush { load, ok } = self;
        match domain.flush_done(rt, rider, load, ok) {
            Ok(flushed) => Ok(flushed),
            Err((fault, load)) => Err((fault, Flush { load, ok })),
        }
    }

    fn forsake(self) {
        let Flush { load, ok: _ } = self;
        load.forsake();
    }
}

/// Ends it; and again, up to 1,000 times, while the journal is full and may be cut, after a cut. Nothing else is cut.
///
/// Faults, with what was to be ended: those of its call.
pub fn end_by_tries<R: Wait, E: Epochs + Drop, F: Task, P: Promise, L: Realm, X: Ends<E, F, P, L>>(
    rt: &R,
    domain: &Domain<E, F, P, L>,
    rider: &mut Rider<L>,
    may_cut: bool,
    what: X,
) -> Result<X::Answer, (Fault, X)>
    requires { X.can_end what domain.now }
    ensures met { Tries F domain.now may_cut (X.ends what domain.now) (without_back result)
        rider.old rider.new }
    ensures refused { IfErr result (λ back. back.1 ≡ what) }
{
    let mut what = what;
    for _ in 0..ATTEMPTS {
        match what.end(rt, domain, rider) {
            Ok(answer) => return Ok(answer),
            Err((fault, back)) => {
                if !make_room(rt, domain, rider, may_cut, &fault) {
                    return Err((fault, back));
                }
                what = back;
            }
        }
    }
    what.end(rt, domain, rider)
}

impl<R: Wait, E: Epochs + Drop, F: Task, P: Promise, L: Realm, G> Run<'_, R, E, F, P, L, G> {
    /// Ends it, by as many tries as that takes; a full journal is cut, if the limits say so. What is refused is given up.
    pub(crate) fn end_by<X: Ends<E, F, P, L>>(
        &self,
        rider: &mut Rider<L>,
        what: X,
    ) -> Result<Accepted, Over>
        requires { X.can_end what self.now.domain.now }
        ensures { TriesFor F self.now.domain.now (makes_room self.now.limits.cuts)
            (X.ends what self.now.domain.now) result rider.old rider.new }
    {
        match end_by_tries(self.rt, self.domain, rider, self.limits.makes_room(), what) {
            Ok(_) => Ok(Accepted { made: () }),
            Err((fault, what)) => {
                what.forsake();
                Err(Over::of(&fault))
            }
        }
    }
}
