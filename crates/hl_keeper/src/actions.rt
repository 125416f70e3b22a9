//! The locked calls by which a job goes in or comes out.
ghost use Rattle.std.specs.Prelude.{◌≡◌, ◌+◌, List, [], ◌∷◌, ◌++◌, OnErr, IfOk, IfErr, MatchResult};
ghost use Rattle.hl_model.specs.declared.step.Step.TheVariants.{Take as TAKE};
ghost use Rattle.hl_model.specs.Actions.{bumps};
ghost use Rattle.hl_core.specs.Steps.{asking, stored, CameOut};
ghost use Rattle.hl_keeper.specs.Passes.{Shares};
ghost use Rattle.hl_keeper.specs.Keepers.{job_tag};
ghost use Rattle.hl_keeper.specs.Calls.{without_back, Makes, Stays, SameStamps};
ghost use Rattle.hl_keeper.specs.Taking.{taken_from, ready_reply};

use crate::call::note;
use crate::keeper::Keeper;
use hl_action::{Kept, Promise, Ready, Task};
use hl_drain::Ask;
use hl_epoch::Epochs;
use hl_model::{Fault, Step, Tagged};
use hl_words::{Realm, Rider, Which, Words};

impl<E: Epochs + Drop, F: Task, P: Promise, L: Realm> Keeper<E, F, P, L> {
    /// Ends the current epoch, and stores what is asked for under it, and the word of the last epoch
    /// that ended; returns the ticket, that epoch.
    ///
    /// Faults, with what was asked for handed back: `JournalFull`, `DrainFull`, `EpochsSpent`, `WindowFull`.
    pub fn bump(
        &mut self,
        words: &Words<L>,
        rider: &mut Rider<L>,
        ask: Ask<Kept<F, P>>,
    ) -> Result<u64, (Fault, Ask<Kept<F, P>>)>
        ensures made { Makes self.old (asking job_tag ask)
            (λ A. bumps (A ++ asking job_tag ask ∷ [])) self.new (without_back result) }
        ensures refused { IfErr result (λ back. (back.1 ≡ ask) × (self.new ≡ self.old)) }
        ensures stays { Stays self.old self.new }
        ensures stamps { SameStamps self.old self.new }
        ensures jobs { let old = self.old.core
            in IfOk result (λ ticket.
            self.new.core.drain.pending ≡ old.drain.pending ++ (ticket, stored old.offsets ask) ∷ []) }
        ensures rider { Shares 1 result rider.old rider.new }
    {
        if let Err(fault) = self.room(1) {
            return Err((fault, ask));
        }
        let step = step_of(&ask);
        match self.core.bump(ask) {
            Ok(ticket) => {
                words.store_offset(&mut self.master, Which::Ended, ticket);
                note(&mut self.journal, &mut self.master, rider, step);
                Ok(ticket)
            }
            Err(refused) => Err(refused),
        }
    }

    /// Takes the oldest pending action, once its ticket is safe; what it returns is ready to be
    /// run, under its ticket and the present safe epoch.
    ///
    /// Faults: `JournalFull`, `Empty`, `NotReady`.
    pub fn take(&mut self, _words: &Words<L>, rider: &mut Rider<L>) -> Result<Ready<F, P>, Fault>
        ensures made { Makes self.old TAKE (taken_from self.old) self.new (ready_reply result) }
        ensures refused { OnErr result (self.new ≡ self.old) }
        ensures stays { Stays self.old self.new }
        ensures stamps { SameStamps self.old self.new }
        ensures out { IfOk result (λ ready.
            CameOut job_tag self.old.core self.new.core ready.firing.ticket ready.kept) }
        ensures rider { Shares 1 result rider.old rider.new }
    {
        self.room(1)?;
        let (firing, kept) = self.core.take()?;
        note(&mut self.journal, &mut self.master, rider, Step::Take);
        Ok(Ready::of(self.stamps.own(), firing, kept))
    }
}

// The step by which this is asked for.
fn step_of<J: Tagged>(ask: &Ask<J>) -> Step
    ensures { result ≡ asking J.tag ask.now }
{
    match ask {
        Ask::Settle => Step::Settle,
        Ask::Close => Step::Close,
        Ask::User(job) => Step::Bump { tag: job.tag() },
    }
}
