//! A rider's time between two sessions (FASTER's `Suspend` and `Resume`).
ghost use Rattle.std.specs.Prelude.{◌≡◌, IfOk, IfErr};
ghost use Rattle.hl_keeper.specs.Passes.{with_rider};
ghost use Rattle.hl_traces.specs.Traces.{RiderTraces};
ghost use Rattle.hl.specs.Rests.{entered_session, left_rider, Resumed, Suspended};
ghost use Rattle.hl.specs.Sessions.{with_pass};
ghost use Rattle.hl.specs.Traces.{EntersBy, LeavesBy};

use super::{Beside, Session};
use crate::log::Log;
use crate::refused::Refused;
use hl_action::{AnyAnswer, NoJob, Promise, Task};
use hl_counts::CountTable;
use hl_epoch::Epochs;
use hl_words::{Realm, Rider};
use std::marker::Model;
use std::sync::Wait;

/// A rider that has left its slot for a while, with the log that it enters again: no action waits for it, and it holds
/// no page. [`Session::suspend`] makes it, and [`resume`](Resting::resume) ends it.
pub struct Resting<
    'a,
    R,
    L: Realm,
    F: Task = NoJob,
    P: Promise = AnyAnswer,
    E: Epochs = CountTable,
> {
    rt: &'a R,
    log: &'a Log<L, F, P, E>,
    rider: Rider<L>,
    beside: Beside<'a>,
}

impl<'a, R, L: Realm, F: Task, P: Promise, E: Epochs> Model for Resting<'a, R, L, F, P, E> {
    ghost use Rattle.hl_traces.specs.Traces.{RiderTraces};
    ghost use Rattle.hl.specs.Rests.{RestState};
    ghost use Rattle.hl.specs.Sessions.{beside_of};

    ghost Value = { RestState };

    ghost view = { λ r. record {
      log = r.log.now;
      rider = r.rider;
      beside = beside_of r.beside.bell r.beside.cuts;
    } };

    // It has a trace.
    ghost invariant = { λ r. RiderTraces r.log.now.sizes r.rider };
}

impl<'a, R: Wait, L: Realm, F: Task, P: Promise, E: Epochs + Drop> Session<'a, R, L, F, P, E> {
    /// Releases the slot for a time in which the thread does something else, as waits for a device. What it saw of the
    /// log is gone then: what it looked up before must be looked up anew.
    ///
    /// Faults, with the session handed back: `JournalFull`.
    pub fn suspend(self) -> Result<Resting<'a, R, L, F, P, E>, Refused<Session<'a, R, L, F, P, E>>>
        ensures met { Suspended F self.entry result }
        ensures did { LeavesBy self.entry (left_rider result) }
        ensures back { IfErr result (λ refused. refused.back
            ≡ with_pass (with_rider refused.back.pass.rider self.entry.pass) self.entry) }
        ensures log { IfOk result (λ resting. resting.log ≡ self.entry.log) }
        ensures beside { IfOk result (λ resting. resting.beside ≡ self.entry.beside) }
    {
        let (rt, log, beside) = (self.rt, self.log, self.beside);
        match self.leave() {
            Ok(rider) => Ok(Resting {
                rt,
                log,
                rider,
                beside,
            }),
            Err(refused) => Err(refused),
        }
    }
}

impl<'a, R: Wait, L: Realm, F: Task, P: Promise, E: Epochs + Drop> Resting<'a, R, L, F, P, E> {
    /// Protects the least slot that is free, maybe another than before. The session sees the log as it is then, and has
    /// the same rider.
    ///
    /// Faults, with what rests handed back: `JournalFull`, `NoSlot` if each slot is protected.
    pub fn resume(self) -> Result<Session<'a, R, L, F, P, E>, Refused<Resting<'a, R, L, F, P, E>>>
        ensures met { Resumed F self.entry result }
        ensures did { EntersBy self.entry.log self.entry.rider (entered_session result) }
        ensures log { IfOk result (λ session. session.log ≡ self.entry.log) }
        ensures beside { IfOk result (λ session. session.beside ≡ self.entry.beside) }
        ensures back { IfErr result (λ refused. refused.back
            ≡ record self.entry { rider = refused.back.rider }) }
    {
        let Resting {
            rt,
            log,
            rider,
            beside,
        } = self;
        match Session::enter_beside(rt, log, rider, beside) {
            Ok(session) => Ok(session),
            Err(Refused { fault, back }) => Err(Refused {
                fault,
                back: Resting {
                    rt,
                    log,
                    rider: back,
                    beside,
                },
            }),
        }
    }
}

impl<'a, R, L: Realm, F: Task, P: Promise, E: Epochs + Drop> Resting<'a, R, L, F, P, E> {
    /// Ends the rest without a session. Returns the rider.
    pub fn into_rider(self) -> Rider<L>
        ensures rider { result ≡ self.entry.rider }
        ensures traces { RiderTraces self.entry.log.sizes result }
    {
        let Resting {
            rt: _,
            log: _,
            rider,
            beside: _,
        } = self;
        rider
    }
}
