//! A rider that is away from its slot for a closure's time: it leaves, the closure is called, and it enters again. The
//! closure is called with what only the leave makes, and only what the call makes can enter.
ghost use Rattle.std.specs.Prelude.{◌≡◌, Ok, Err, MatchResult};
ghost use Rattle.hl_keeper.specs.Passes.{with_rider};
ghost use Rattle.hl_traces.specs.Traces.{RiderTraces};
ghost use Rattle.hl.specs.Openings.{was_refused};
ghost use Rattle.hl.specs.Rests.{by_pass, Reenters};
ghost use Rattle.hl.specs.Sessions.{Left};
ghost use Rattle.hl.specs.Traces.{PassMeets};

use super::tries::nap;
use crate::log::Log;
use hl_action::{Promise, Task};
use hl_crew::{Cuts, cut_if_due};
use hl_domain::Pass;
use hl_epoch::Epochs;
use hl_model::Fault;
use hl_words::{Realm, Rider};
use std::sync::Wait;

/// That a session left its slot, and hasn't entered again: what [`Session::rest`](super::Session::rest) calls its closure
/// with. Only a release makes one, and an entry ends it.
#[derive(Drop)]
pub struct Away {
    _made: (),
}

/// A rider that left its slot, and for which no closure was called since. Only [`Gone::leave`] makes one.
pub(super) struct Gone<L: Realm> {
    rider: Rider<L>,
    away: Away,
}

/// The same, and what the closure returned since. Only [`Gone::call`] makes one.
pub(super) struct Called<L: Realm, X> {
    rider: Rider<L>,
    answer: X,
}

impl<L: Realm> Gone<L> {
    /// Releases the slot of a pass. It comes back if that is refused.
    pub(super) fn leave<R: Wait, F: Task, P: Promise, E: Epochs + Drop>(
        rt: &R,
        log: &Log<L, F, P, E>,
        pass: Pass<L>,
    ) -> Result<Gone<L>, (Fault, Pass<L>)>
        ensures left { let old = by_pass log.now pass
            in MatchResult result (λ gone. Left F old (Ok gone.rider))
            (λ back. Left F old (Err (was_refused back.0 (by_pass log.now back.1)))
            × (back.1 ≡ with_rider back.1.rider pass)) }
    {
        match log.release(rt, pass) {
            Ok(rider) => Ok(Gone {
                rider,
                away: Away { _made: () },
            }),
            Err(back) => Err(back),
        }
    }

    /// Calls a closure.
    pub(super) fn call<X, C: FnOnce(&Away) -> X>(self, idle: C) -> Called<L, X>
        requires { C.IsAlwaysCallable idle }
        ensures rider { result.rider ≡ self.rider }
        ensures answer { (away : _) × C.post idle away result.answer }
    {
        let Gone { rider, away } = self;
        let answer = idle(&away);
        Called { rider, answer }
    }
}

impl<L: Realm, X> Called<L, X> {
    /// Enters the log again. Returns what the closure returned, too.
    pub(super) fn enter<R: Wait, F: Task, P: Promise, E: Epochs + Drop>(
        self,
        rt: &R,
        log: &Log<L, F, P, E>,
        cuts: Cuts,
    ) -> (Pass<L>, X)
        ensures again { Reenters F log.now cuts self.rider result.0 }
        ensures did { RiderTraces log.now.sizes self.rider → PassMeets log.now self.rider result.0 }
        ensures answer { result.1 ≡ self.answer }
    {
        let Called { rider, answer } = self;
        (enter_again(rt, log, cuts, rider), answer)
    }
}

// Enters the log, by as many tries as that takes, and after each that is refused cuts the journal as is due.
fn enter_again<R: Wait, L: Realm, F: Task, P: Promise, E: Epochs + Drop>(
    rt: &R,
    log: &Log<L, F, P, E>,
    cuts: Cuts,
    rider: Rider<L>,
) -> Pass<L>
    ensures again { Reenters F log.now cuts rider result }
    ensures did { RiderTraces log.now.sizes rider → PassMeets log.now rider result }
{
    let mut rider = rider;
    for _ in rt.forever() {
        match log.enter(rt, rider) {
            Ok(pass) => return pass,
            Err((fault, back)) => {
                rider = back;
                cut_if_due(rt, log, &mut rider, cuts);
                let _ = nap(rt, &Err(fault));
            }
        }
    }
    unreachable!()
}
