//! Waiting for an action.
ghost use Rattle.std.specs.Prelude.{◌≡◌, []};
ghost use Rattle.hl.specs.Overs.{LooksAtOver, WaitsUntilOver};
ghost use Rattle.hl.specs.Sessions.{KeepsAllButRider};
ghost use Rattle.hl.specs.Traces.{Meets, OnlyMeets};

use super::Session;
use hl_action::{Promise, Task};
use hl_epoch::Epochs;
use hl_model::Fault;
use hl_words::Realm;
use std::sync::Wait;

impl<'a, R: Wait, L: Realm, F: Task, P: Promise, E: Epochs + Drop> Session<'a, R, L, F, P, E> {
    /// Whether the action of this ticket is over: it was taken, and is done
    /// ([`over_were_done`](crate::laws::over_were_done)). So it is of a ticket under which no action was stored, once
    /// all before it were taken. It takes the lock, and is never refused.
    pub fn is_over(&mut self, ticket: u64) -> bool
        ensures met { LooksAtOver F self.old.log ticket result self.old.pass.rider self.new.pass.rider }
        ensures did { Meets [] self.old self.new }
        ensures kept { KeepsAllButRider self.old self.new }
    {
        self.log.is_over_by(self.rt, self.pass.rider_mut(), ticket)
    }

    /// Waits until the action of a ticket is over: as for a page's close, or for what a job does. The session makes a round
    /// of [`help`](Session::help) again and again meanwhile, which may take the action itself.
    ///
    /// It waits for good if somebody never refreshes, or takes the action and never answers it done. Faults: those of
    /// `help`.
    pub fn wait_until_over(&mut self, ticket: u64) -> Result<(), Fault>
        ensures waits { WaitsUntilOver F self.old.log self.old.beside.cuts F.gives P.keeps ticket result
            self.old.pass self.new.pass }
        ensures did { OnlyMeets self.old self.new }
        ensures slot { self.new.pass.slot ≡ self.old.pass.slot }
        ensures log { self.new.log ≡ self.old.log }
        ensures beside { self.new.beside ≡ self.old.beside }
    {
        let rt = self.rt;
        for _ in rt.forever() {
            if self.is_over(ticket) {
                return Ok(());
            }
            match self.help_or_nap() {
                Ok(_) => {}
                Err(fault) => return Err(fault),
            }
        }
        unreachable!()
    }
}
