//! What a session does for the log between two tries of its own work.
ghost use Rattle.std.specs.Prelude.{◌≡◌, true, Result, Ok, Err, IfOk, MatchResult};
ghost use Rattle.hl_model.specs.declared.fault.Fault.{Fault as FAULT};
ghost use Rattle.hl_model.specs.declared.step.Reply.{Reply as REPLY};
ghost use Rattle.hl_crew.specs.Cutting.{EndsTurn};
ghost use Rattle.hl_crew.specs.Tries.{EndsAction, Tries};
ghost use Rattle.hl.specs.Helps.{Enters, Helps, RunsOldest};
ghost use Rattle.hl.specs.Sessions.{KeepsAllButRider};
ghost use Rattle.hl.specs.Traces.{OnlyMeets};

use super::Session;
use super::bell::Rung;
use hl_action::{Promise, Ran, Task};
use hl_crew::{cut_if_due, end_by_tries};
use hl_epoch::Epochs;
use hl_model::Fault;
use hl_words::Realm;
use std::sync::Wait;

impl<'a, R: Wait, L: Realm, F: Task, P: Promise, E: Epochs + Drop> Session<'a, R, L, F, P, E> {
    /// Helps the log on, as a thread wants to between two tries: wakes the crew, if there is one beside the session;
    /// takes the oldest action, if it is ready, runs it and answers it done; then refreshes. Returns whether it ran an
    /// action.
    ///
    /// In [`Work::finish`](crate::Work::finish), where no crew serves any more, it first cuts the journal if that is
    /// longer than the crew's duty lets it be, as the crew would at a turn's end. Beside a crew, and in a session that
    /// was entered by hand, it doesn't: there the crew cuts, or whoever calls [`cut`](Session::cut).
    ///
    /// A done that finds the journal full is tried again after a cut, at most 1,000 times: an action that stayed taken
    /// would stop the log. Nothing else is cut.
    ///
    /// Faults: `JournalFull` of a take, a done or the refresh; `Stranger` of the refresh; those of a done
    /// ([`done`](Session::done)), by which the action stays taken. No more is done then.
    pub fn help(&mut self) -> Result<bool, Fault>
        ensures helped { Helps F self.old.log self.old.beside.cuts F.gives P.keeps result
            self.old.pass self.new.pass }
        ensures steps { IfOk result (λ did. Enters did self.old.pass self.new.pass) }
        ensures did { OnlyMeets self.old self.new }
        ensures slot { self.new.pass.slot ≡ self.old.pass.slot }
        ensures log { self.new.log ≡ self.old.log }
        ensures beside { self.new.beside ≡ self.old.beside }
    {
        self.cut_as_is_due();
        let did = self.run_oldest(self.rung())?;
        self.refresh()?;
        Ok(did)
    }

    // Cuts the journal as is due, where no crew does.
    fn cut_as_is_due(&mut self)
        ensures cut { EndsTurn F self.old.log self.old.beside.cuts self.old.pass.rider self.new.pass.rider }
        ensures did { OnlyMeets self.old self.new }
        ensures kept { KeepsAllButRider self.old self.new }
    {
        cut_if_due(self.rt, self.log, self.pass.rider_mut(), self.beside.cuts);
    }

    // Takes the oldest action, runs it and answers it done. False if none is ready.
    fn run_oldest(&mut self, _rung: Rung) -> Result<bool, Fault>
        ensures ran { RunsOldest F self.old.log F.gives P.keeps result
            self.old.pass.rider self.new.pass.rider }
        ensures did { OnlyMeets self.old self.new }
        ensures kept { KeepsAllButRider self.old self.new }
    {
        match self.take() {
            Ok(ready) => self.end(ready.run()),
            Err(fault) => match fault {
                Fault::Empty | Fault::NotReady { .. } => Ok(false),
                _ => Err(fault),
            },
        }
    }

    // Answers an action done that was run, by as many tries as that takes; it is forsaken if that is refused.
    fn end(&mut self, ran: Ran) -> Result<bool, Fault>
        ensures ends { (answer : Result REPLY FAULT)
            × Tries F self.old.log true (EndsAction F self.old.log ran.origin ran.ticket) answer
            self.old.pass.rider self.new.pass.rider × MatchResult answer
            (λ _. result ≡ Ok true) (λ fault. result ≡ Err fault) }
        ensures did { OnlyMeets self.old self.new }
        ensures kept { KeepsAllButRider self.old self.new }
    {
        match end_by_tries(self.rt, self.log, self.pass.rider_mut(), true, ran) {
            Ok(_) => Ok(true),
            Err((fault, ran)) => {
                ran.forsake();
                Err(fault)
            }
        }
    }
}
