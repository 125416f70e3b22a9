ghost use Rattle.std.specs.Prelude.{◌≡◌, List, OnErr, IfOk, IfErr};
ghost use Rattle.hl_model.specs.declared.step.Step.{Step as STEP};
ghost use Rattle.hl_model.specs.declared.step.Reply.TheVariants.{Ticket as TICKET, Bumped as BUMPED, Taken as TAKEN};
ghost use Rattle.hl_model.specs.declared.step.Step.TheVariants.{Bump as BUMP, Settle as SETTLE, Close as CLOSE, Bare as BARE, Take as TAKE, Done as DONE};
ghost use Rattle.hl_core.specs.Steps.{as_reply};
ghost use Rattle.hl_cells.specs.Engines.{EngineStands, IsEngine};
ghost use Rattle.hl_cells.specs.EngineSteps.{Moves, ticket_told};
ghost use Rattle.hl_cells.specs.Jobs.{JobStored, JobsStay, JobsKept, RunsItsJob};

use crate::engine::Engine;
use hl_action::{Kept, Promise, Ready, Task};
use hl_drain::Ask;
use hl_epoch::Epochs;
use hl_model::{Fault, Reply};

// What names the origin of a taken action. An engine has one drain list alone.
const ORIGIN: u64 = 0;

impl<E: Epochs + Drop, F: Task, P: Promise> Engine<E, F, P> {
    /// Ends the current epoch, and stores a job under it; returns the ticket, the epoch that ended. The job
    /// lies under this ticket until the done of its action runs it.
    ///
    /// Faults, with the job handed back: `DrainFull` if the drain list has no room, `EpochsSpent` if the
    /// current epoch is the last, `WindowFull` if 4,096 epochs have ended and aren't safe.
    pub fn bump(&mut self, kept: Kept<F, P>) -> Result<u64, (Fault, Kept<F, P>)>
        ensures moved { Moves P.keeps self.old (BUMP kept.tag) self.new (ticket_told result) }
        ensures jobs { IfOk result (JobStored kept self.old self.new) }
        ensures refused { IfErr result (λ back. (back.1 ≡ kept) × (self.new ≡ self.old)) }
        ensures valid { IsEngine self.old }
    {
        match self.core.bump(Ask::User(kept)) {
            Ok(ticket) => Ok(ticket),
            Err((fault, Ask::User(kept))) => Err((fault, kept)),
            // What was asked for comes back.
            Err((_, Ask::Settle | Ask::Close)) => unreachable!(),
        }
    }

    /// Ends the current epoch, and stores under it an action that settles the read-only offset as it stands;
    /// returns the ticket, the epoch that ended.
    ///
    /// Faults: as [`bump`](Engine::bump).
    pub fn settle(&mut self) -> Result<u64, Fault>
        ensures moved { Moves P.keeps self.old SETTLE self.new (as_reply TICKET result) }
        ensures jobs { JobsStay self.old self.new }
        ensures refused { OnErr result (self.new ≡ self.old) }
        ensures valid { IsEngine self.old }
    {
        self.core.settle()
    }

    /// Ends the current epoch, and stores under it an action that closes the pages below the head as it
    /// stands; returns the ticket, the epoch that ended.
    ///
    /// Faults: as [`bump`](Engine::bump).
    pub fn close(&mut self) -> Result<u64, Fault>
        ensures moved { Moves P.keeps self.old CLOSE self.new (as_reply TICKET result) }
        ensures jobs { JobsStay self.old self.new }
        ensures refused { OnErr result (self.new ≡ self.old) }
        ensures valid { IsEngine self.old }
    {
        self.core.close()
    }

    /// Ends the current epoch, and stores nothing; returns the epoch that ended. It needs no place in the
    /// drain list.
    ///
    /// Faults, in their order: `EpochsSpent` if the current epoch is the last, `WindowFull` if 4,096 epochs
    /// have ended and aren't safe.
    pub fn bare(&mut self) -> Result<u64, Fault>
        ensures moved { Moves P.keeps self.old BARE self.new (as_reply BUMPED result) }
        ensures jobs { JobsStay self.old self.new }
        ensures refused { OnErr result (self.new ≡ self.old) }
        ensures valid { IsEngine self.old }
    {
        self.core.bare()
    }

    /// Takes the oldest pending action, and holds it with its firing until it is done; returns its ticket.
    ///
    /// Faults, in their order: `Empty` if none is pending, `NotReady` if its ticket is above the safe epoch.
    pub fn take(&mut self) -> Result<u64, Fault>
        ensures moved { Moves P.keeps self.old TAKE self.new (as_reply TAKEN result) }
        ensures jobs { JobsStay self.old self.new }
        ensures refused { OnErr result (self.new ≡ self.old) }
        ensures valid { IsEngine self.old }
    {
        let (firing, kept) = self.core.take()?;
        self.held.push(Ready::of(ORIGIN, firing, kept));
        Ok(firing.ticket())
    }

    /// A taken action is carried out. A job is run, once, under the firing of its take: returns `Answer` with
    /// what it returned. A settle and a close raise their offset to what they stored, if it is below: returns
    /// `Settled` with the safe read-only offset after it, `Closed` with the closed one.
    ///
    /// Fault: `NotTaken` if the ticket isn't that of an action that was taken and isn't done.
    pub fn done(&mut self, ticket: u64) -> Result<Reply, Fault>
        ensures moved { Moves P.keeps self.old (DONE ticket) self.new result }
        ensures jobs { JobsKept self.old (DONE ticket) self.new result }
        ensures ran { (A : List STEP) → EngineStands self.old A
            → RunsItsJob F.gives self.old A (DONE ticket) result }
        ensures refused { OnErr result (self.new ≡ self.old) }
        ensures valid { IsEngine self.old }
    {
        let reply = self.core.done(ticket)?;
        match self.held.run(ticket) {
            Some(answer) => Ok(Reply::Answer(answer)),
            None => Ok(reply),
        }
    }
}
