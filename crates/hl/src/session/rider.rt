//! What a thread does in its slot as a rider: bumps, takes, dones, cuts, and how long the one list is. The session's own
//! touches stay, and enter at its next locked call.
ghost use Rattle.std.specs.Prelude.{◌≡◌, [], ◌∷◌, IfErr};
ghost use Rattle.hl_domain.specs.Riders.{Bumps, Cuts, LooksAtSteps, Takes};
ghost use Rattle.hl_crew.specs.Tries.{EndsAction};
ghost use Rattle.hl_traces.specs.declared.act.Act.TheVariants.{Met};
ghost use Rattle.hl.specs.Sessions.{fault_alone, KeepsAllButRider};
ghost use Rattle.hl.specs.Traces.{Does, Meets};

use super::Session;
use crate::refused::Refused;
use hl_action::{Kept, Promise, Ran, Ready, Task};
use hl_drain::Ask;
use hl_epoch::Epochs;
use hl_model::{Fault, Reply};
use hl_words::Realm;
use std::sync::Wait;

impl<'a, R: Wait, L: Realm, F: Task, P: Promise, E: Epochs + Drop> Session<'a, R, L, F, P, E> {
    /// Ends the current epoch, and stores what is asked for under it (a settle, a close, a job).
    /// Returns the ticket, the epoch that ended.
    ///
    /// Faults, with what was asked for handed back: `JournalFull`, `DrainFull`, `EpochsSpent`, `WindowFull`.
    pub fn bump(&mut self, ask: Ask<Kept<F, P>>) -> Result<u64, Refused<Ask<Kept<F, P>>>>
        ensures met { Bumps F self.old.log ask fault_alone result self.old.pass.rider self.new.pass.rider }
        ensures back { IfErr result (λ refused. refused.back ≡ ask) }
        ensures did { Meets [] self.old self.new }
        ensures kept { KeepsAllButRider self.old self.new }
    {
        Ok(self.log.bump(self.rt, self.pass.rider_mut(), ask)?)
    }

    /// Takes the oldest pending action, once its ticket is safe. Returns it, ready to be run.
    ///
    /// Faults: `JournalFull`, `Empty`, `NotReady`. If the session's own slot holds the action up,
    /// refresh first.
    pub fn take(&mut self) -> Result<Ready<F, P>, Fault>
        ensures met { Takes F self.old.log result self.old.pass.rider self.new.pass.rider }
        ensures did { Meets [] self.old self.new }
        ensures kept { KeepsAllButRider self.old self.new }
    {
        self.log.take(self.rt, self.pass.rider_mut())
    }

    /// Tells that a taken action was run: it is then done.
    ///
    /// Faults, with it handed back: `Stranger` if it is of another log, `JournalFull`, `NotTaken`.
    pub fn done(&mut self, ran: Ran) -> Result<Reply, Refused<Ran>>
        ensures met { EndsAction F self.old.log ran.origin ran.ticket (fault_alone result)
            self.old.pass.rider self.new.pass.rider }
        ensures back { IfErr result (λ refused. refused.back ≡ ran) }
        ensures did { Meets [] self.old self.new }
        ensures kept { KeepsAllButRider self.old self.new }
    {
        Ok(self.log.done(self.rt, self.pass.rider_mut(), ran)?)
    }

    /// Drops the steps since the last cut. Returns how many were dropped. It is never refused, and
    /// makes room after a `JournalFull`.
    pub fn cut(&mut self) -> u64
        ensures met { Cuts F self.old.log result self.old.pass.rider self.new.pass.rider }
        ensures did { Meets [] self.old self.new }
        ensures kept { KeepsAllButRider self.old self.new }
    {
        self.log.cut(self.rt, self.pass.rider_mut())
    }

    /// How many steps the one list has now. It is never refused.
    ///
    /// The number carries the order of calls to another thread, by any message. One thread sends it after what it did. The
    /// other asks for the number itself, and if that is no less, each later call of its session meets a list that begins
    /// with what the first one's calls left (`hl_domain::laws::later_calls_begin`), and once it has refreshed, its loads
    /// find what was stored there, or what was stored since (`hl_words::past_laws::loads_after_called`). It never is less,
    /// but no clause can know that.
    pub fn steps(&mut self) -> u64
        ensures met { LooksAtSteps F self.old.log result self.old.pass.rider self.new.pass.rider }
        ensures did { Does (Met result ∷ []) self.old self.new }
        ensures kept { KeepsAllButRider self.old self.new }
    {
        self.log.steps_by(self.rt, self.pass.rider_mut())
    }
}
