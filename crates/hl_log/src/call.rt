//! The calls of a pass under the lock.
ghost use Rattle.std.specs.Prelude.{◌≡◌, true, List, OnOk, OnErr};
ghost use Rattle.hl_model.specs.declared.step.Step.{Step as STEP};
ghost use Rattle.hl_model.specs.declared.step.Step.TheVariants.{Refresh as REFRESH};
ghost use Rattle.hl_core.specs.Steps.{is_acted, as_reply, entered_reply};
ghost use Rattle.hl_model.specs.Replies.{unless_fault};
ghost use Rattle.hl_pass.specs.Calls.{looked, stranger_fault};
ghost use Rattle.hl_log.specs.Logs.{StandsAt, IsBeside};
ghost use Rattle.hl_log.specs.Calls.{by_slot, Calls, IsCall};
ghost use Rattle.hl_log.specs.Passes.{epoch_told};

use crate::log::Log;
use crate::pass::Pass;
use hl_model::{Fault, Reply, Slot, Step};
use hl_pass::{PassView, catch_up};

impl Log {
    /// The pass's slot moves on, behind what the pass saw; returns its epoch and its view from now on.
    ///
    /// `Stranger`, with the slot's stamp, if the slot isn't the pass's: nothing is changed then.
    #[inline(always)]
    pub fn refresh(&mut self, pass: &mut Pass) -> Result<Slot, Fault>
        ensures { Calls self.old pass.old (REFRESH pass.old.own.slot) self.new pass.new
            (as_reply entered_reply result) }
    {
        self.begin(&pass.own)?;
        let t = pass.own.slot;
        match self.core.refresh(t) {
            Ok(slot) => {
                pass.own.rest(slot.epoch, slot.view);
                Ok(slot)
            }
            // The slot of a pass that is known is protected, so this isn't met.
            Err(fault) => {
                let epoch = pass.own.epoch;
                pass.own.rest_in(epoch, self.core.view(t));
                Err(fault)
            }
        }
    }

    /// Makes a release or an allocation of a pass, whose slot takes the place of the step's, behind what the
    /// pass saw. While its slot is protected, the pass then has its view, and is no stranger at its next call.
    ///
    /// `Stranger`, with the slot's stamp, if the slot isn't the pass's: nothing is changed then. Else the
    /// faults of the step; what the pass saw is entered with these too.
    #[inline(always)]
    pub fn call(&mut self, pass: &mut Pass, step: &Step) -> Result<Reply, Fault>
        requires { IsCall step.now }
        ensures { Calls self.old pass.old (by_slot pass.old.own.slot step.now) self.new pass.new result }
    {
        self.begin(&pass.own)?;
        let slot = pass.own.slot;
        let reply = self.core.act(&by_slot(slot, *step));
        let epoch = epoch_told(reply, pass.own.epoch);
        pass.own.rest_in(epoch, self.core.view(slot));
        reply
    }

    /// Begins a call of a pass: what it saw is entered, if it is known.
    #[inline(always)]
    pub(crate) fn begin(&mut self, pass: &PassView) -> Result<(), Fault>
        ensures test { (A : List STEP) → StandsAt self.old A → result ≡ unless_fault
            (stranger_fault self.old.core.sizes self.old.stamps.row.items A pass.now) tt }
        ensures refused { OnErr result (self.new ≡ self.old) }
        ensures standing { (A : List STEP) → StandsAt self.old A
            → OnOk result (StandsAt self.new (looked self.old.core.sizes A pass.now)) }
        ensures sizes { self.new.core.sizes ≡ self.old.core.sizes }
        ensures beside { IsBeside self.old self.new }
    {
        self.stamps.known(&self.core, pass)?;
        catch_up(&mut self.core, pass);
        Ok(())
    }
}

/// The step for a slot, of those that a slot makes.
#[inline(always)]
fn by_slot(t: u64, step: Step) -> Step
    requires { IsCall step }
    ensures value { result ≡ by_slot t step }
    ensures acted { is_acted result ≡ true }
{
    match step {
        Step::Refresh { .. } => Step::Refresh { t },
        Step::Release { .. } => Step::Release { t },
        Step::Allocate { n, .. } => Step::Allocate { t, n },
        _ => step,
    }
}

/// The epoch of a slot that entered, else this one.
#[inline(always)]
pub(crate) fn epoch_told(reply: Result<Reply, Fault>, epoch: u64) -> u64
    ensures { result ≡ epoch_told reply epoch }
{
    match reply {
        Ok(Reply::Entered { epoch, .. }) => epoch,
        _ => epoch,
    }
}
