ghost use Rattle.std.specs.Prelude.{◌≡◌, true, is_none, length, All};
ghost use Rattle.hl_keeper.specs.Calls.{without_back};
ghost use Rattle.hl_crew.specs.Goes.{UpTo};
ghost use Rattle.hl_crew.specs.Lags.{is_wanted, is_lag_step, lag_end, MakesStep, MakesIf, MakesNext, KeepsLag};

use crate::flusher::{Asked, FlusherState};
use crate::messages::Over;
use crate::run::Run;
use crate::woken::Woken;
use hl_action::{Promise, Task};
use hl_drain::Ask;
use hl_epoch::Epochs;
use hl_lag::lag_steps;
use hl_model::{Fault, Snapshot, Step};
use hl_words::{Realm, Rider};
use std::sync::Wait;

impl<R: Wait, E: Epochs + Drop, F: Task, P: Promise, L: Realm, G> Run<'_, R, E, F, P, L, G> {
    /// Wakes who looks for pages if there are some, and makes the lag's steps that it wants, up to the first that is
    /// refused. A crew that serves waits for its own settle and close alone; another wants none while any action waits or
    /// is taken.
    ///
    /// With as many resident pages as frames, the head never passes page N - F, N being the number
    /// of pages up to the tail, and page N needs that page's frame: then no frame comes free.
    #[tactic(auto, using(crate::proofs::LagLaws::lag_kinds))]
    pub(crate) fn keep_lag(&self, own: &mut FlusherState<L>) -> Result<(), Over>
        ensures { let limits = self.now.limits
            in KeepsLag F self.now.domain.now (is_none self.now.channels)
            limits.mutable limits.resident result own.old own.new }
    {
        let (now, _, _) = self.domain.snapshot(self.rt);
        self.sleepers.wake(Woken::by(now.frames));
        let limits = self.limits;
        let lag = lag_steps(
            self.domain.params(),
            now.six,
            limits.mutable(),
            limits.resident(),
        );
        own.asked = own.asked.at(now.six);
        end_of(self.make_all(own, &now, lag.as_slice()))
    }

    // Makes those of these steps that it wants at these quantities, up to the first that is refused.
    #[tactic(auto, using(crate::proofs::GoesLaws::going))]
    fn make_all(
        &self,
        own: &mut FlusherState<L>,
        now: &Snapshot,
        steps: &[Step],
    ) -> Result<(), Fault>
        requires { All (λ step. is_lag_step step ≡ true) steps.now }
        ensures { UpTo (MakesNext F self.now.domain.now (is_none self.now.channels) now.now
            steps.now) (length steps.now) result own.old own.new }
    {
        for step in steps {
            self.make_if_wanted(own, now, *step)?;
        }
        Ok(())
    }

    // Makes a step of the lag, if it wants that.
    fn make_if_wanted(
        &self,
        own: &mut FlusherState<L>,
        now: &Snapshot,
        step: Step,
    ) -> Result<(), Fault>
        requires { is_lag_step step ≡ true }
        ensures { MakesIf F self.now.domain.now
            (is_wanted (is_none self.now.channels) now.now own.old.asked step) step
            result own.old own.new }
    {
        if !is_wanted(self.serves(), now, own.asked, step) {
            return Ok(());
        }
        self.make(&mut own.rider, step)?;
        own.asked = own.asked.after(step);
        Ok(())
    }

    // Makes a step of the lag.
    fn make(&self, rider: &mut Rider<L>, step: Step) -> Result<u64, Fault>
        requires { is_lag_step step ≡ true }
        ensures { MakesStep F self.now.domain.now step result rider.old rider.new }
    {
        match step {
            Step::Raise { x } => self.domain.raise(self.rt, rider, x),
            Step::Shift { x } => self.domain.shift(self.rt, rider, x),
            Step::Settle => ticket_of(self.domain.bump(self.rt, rider, Ask::Settle)),
            Step::Close => ticket_of(self.domain.bump(self.rt, rider, Ask::Close)),
            _ => unreachable!(),
        }
    }
}

// Returns the answer of a bump, without what comes back with a refusal.
fn ticket_of<J: Drop>(bumped: Result<u64, (Fault, Ask<J>)>) -> Result<u64, Fault>
    ensures { result ≡ without_back bumped }
{
    match bumped {
        Ok(ticket) => Ok(ticket),
        Err((fault, _)) => Err(fault),
    }
}

// Returns how the lag's part of a turn ends: a full journal ends the turn, another refusal the lag alone.
fn end_of(made: Result<(), Fault>) -> Result<(), Over>
    ensures { result ≡ lag_end made }
{
    match made {
        Err(Fault::JournalFull) => Err(Over::Full),
        _ => Ok(()),
    }
}

// Whether a crew wants a step of the lag: one that serves if that doesn't wait for its own settle or close; another if no
// action waits and none is taken.
fn is_wanted(serves: bool, now: &Snapshot, asked: Asked, step: Step) -> bool
    ensures { result ≡ is_wanted serves now.now asked step }
{
    if serves {
        !asked.waits_for(now.six, step)
    } else {
        now.pending == 0 && now.taken == 0
    }
}
