//! A session's rest: its slot is left for a time.
ghost use Rattle.std.specs.Prelude.{◌≡◌};
ghost use Rattle.hl_traces.specs.Traces.{PassTraces};
ghost use Rattle.hl.specs.Rests.{Rests, RestsOf};
ghost use Rattle.hl.specs.Traces.{OnlyMeets, PassMeets};

use super::Session;
use super::away::{Away, Gone};
use crate::log::Log;
use core::mem::replace_with;
use hl_action::{Promise, Task};
use hl_crew::{Cuts, cut_if_due};
use hl_domain::Pass;
use hl_epoch::Epochs;
use hl_model::Fault;
use hl_words::Realm;
use std::sync::Wait;

impl<'a, R: Wait, L: Realm, F: Task, P: Promise, E: Epochs + Drop> Session<'a, R, L, F, P, E> {
    /// Leaves the slot for the time of a closure, and then enters again, maybe at another slot (FASTER's `Suspend` and
    /// `Resume`): for what takes long, as a read of the device. Meanwhile no action waits for the session, and it holds no
    /// page. What it saw of the log is gone then: what it looked up before must be looked up anew.
    ///
    /// Returns what the closure returned, which is called between the release and the entry. If an entry is refused, it is tried again after a short nap: so this waits for
    /// good if the journal stays full, or each slot protected.
    ///
    /// In [`Work::finish`](crate::Work::finish), where no crew serves any more, the journal is cut before the release
    /// and after each refused entry, if it is longer than the crew's duty lets it be. In another session this cuts
    /// nothing.
    ///
    /// `JournalFull` of the release: then the closure isn't called, and the session stays in its slot.
    pub fn rest<X, C: FnOnce(&Away) -> X>(&mut self, idle: C) -> Result<X, Fault>
        requires { C.IsAlwaysCallable idle }
        ensures rests { Rests F (λ x. (away : _) × C.post idle away x) result self.old self.new }
        ensures did { OnlyMeets self.old self.new }
        ensures log { self.new.log ≡ self.old.log }
        ensures beside { self.new.beside ≡ self.old.beside }
    {
        let (rt, log, cuts) = (self.rt, self.log, self.beside.cuts);
        replace_with(
            &mut self.pass,
            idle,
            |pass: Pass<L>, idle: C| -> (Pass<L>, Result<X, Fault>)
                requires { C.IsAlwaysCallable idle }
                ensures { RestsOf F log.entry.now cuts (λ x. (away : _) × C.post idle away x) result.1 pass result.0
                    × (PassTraces log.entry.now.sizes pass → PassMeets log.entry.now pass.rider result.0) }
            { rest_of(rt, log, cuts, pass, idle) },
        )
    }
}

// Leaves a pass's slot for the time of a closure, and enters again. The journal is cut as is due before.
fn rest_of<R: Wait, L: Realm, F: Task, P: Promise, E: Epochs + Drop, X, C: FnOnce(&Away) -> X>(
    rt: &R,
    log: &Log<L, F, P, E>,
    cuts: Cuts,
    pass: Pass<L>,
    idle: C,
) -> (Pass<L>, Result<X, Fault>)
    requires { C.IsAlwaysCallable idle }
    ensures rests { RestsOf F log.now cuts (λ x. (away : _) × C.post idle away x) result.1 pass result.0 }
    ensures did { PassTraces log.now.sizes pass → PassMeets log.now pass.rider result.0 }
{
    let mut pass = pass;
    cut_if_due(rt, log, pass.rider_mut(), cuts);
    match Gone::leave(rt, log, pass) {
        Ok(gone) => {
            let (pass, answer) = gone.call(idle).enter(rt, log, cuts);
            (pass, Ok(answer))
        }
        Err((fault, pass)) => (pass, Err(fault)),
    }
}
