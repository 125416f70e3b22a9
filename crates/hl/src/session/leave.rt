//! A session leaves its slot where others fill the journal.
ghost use Rattle.std.specs.Prelude.{◌≡◌, ◌&&◌, IfErr};
ghost use Rattle.hl_keeper.specs.Passes.{with_rider};
ghost use Rattle.hl_crew.specs.Cutting.{MakesRoom};
ghost use Rattle.hl_crew.specs.Overs.{is_full};
ghost use Rattle.hl.specs.Leaves.{LeftByTries};
ghost use Rattle.hl.specs.Sessions.{with_pass, KeepsAllButRider};
ghost use Rattle.hl.specs.Traces.{LeavesByCalls, OnlyMeets};

use super::Session;
use crate::refused::Refused;
use hl_action::{Promise, Task};
use hl_crew::{ATTEMPTS, make_room};
use hl_epoch::Epochs;
use hl_model::Fault;
use hl_words::{Realm, Rider};
use std::sync::Wait;

impl<'a, R: Wait, L: Realm, F: Task, P: Promise, E: Epochs + Drop> Session<'a, R, L, F, P, E> {
    /// Releases the slot as [`leave`](Session::leave) does; and again, up to 1,000 times, while the journal is full and may
    /// be cut, after a cut: others may fill it between a cut and the next try. Nothing else is cut. Returns the rider.
    ///
    /// Faults, with the session handed back: those of `leave`.
    pub fn leave_by_tries(
        self,
        may_cut: bool,
    ) -> Result<Rider<L>, Refused<Session<'a, R, L, F, P, E>>>
        ensures met { LeftByTries F may_cut self.entry result }
        ensures did { LeavesByCalls self.entry result }
        ensures back { IfErr result (λ refused. refused.back
            ≡ with_pass (with_rider refused.back.pass.rider self.entry.pass) self.entry) }
    {
        let mut session = self;
        for _ in 0..ATTEMPTS {
            match session.leave() {
                Ok(rider) => return Ok(rider),
                Err(refused) => {
                    session = refused.back;
                    if !session.make_room(may_cut, &refused.fault) {
                        return Err(Refused {
                            fault: refused.fault,
                            back: session,
                        });
                    }
                }
            }
        }
        session.leave()
    }

    // Whether a leave that met this fault is to be tried again: the journal was full, and was cut, as it may be.
    fn make_room(&mut self, may_cut: bool, fault: &Fault) -> bool
        ensures room { MakesRoom F self.old.log result self.old.pass.rider self.new.pass.rider }
        ensures answer { result ≡ (may_cut && is_full fault.now) }
        ensures did { OnlyMeets self.old self.new }
        ensures kept { KeepsAllButRider self.old self.new }
    {
        make_room(self.rt, self.log, self.pass.rider_mut(), may_cut, fault)
    }
}
