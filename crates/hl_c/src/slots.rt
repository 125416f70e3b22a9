ghost use Rattle.std.specs.Prelude.{◌≡◌};
ghost use Rattle.hl_model.specs.declared.step.Step.TheVariants.{Acquire as ACQUIRE, Refresh as REFRESH, Release as RELEASE};
ghost use Rattle.hl_core.specs.Steps.{entered_reply};
ghost use Rattle.hl_c.specs.Doors.{Answers, AnswersBriefly};

use crate::handle::Handle;
use hl_answers::{Brief, Outcome};
use hl_model::{Reply, Slot, Step};

/// The thread of a slot becomes protected: its epoch, and its view.
#[unsafe(no_mangle)]
pub extern "C" fn hl_acquire(handle: &mut Handle, slot: u64) -> Outcome
    ensures { Answers handle.old.slot.value (ACQUIRE slot) handle.new.slot.value result }
{
    let step = Step::Acquire { t: slot };
    handle.step(step, |core| core.acquire(slot).map(entered))
}

/// The thread of a protected slot moves on: its epoch, and its view.
#[unsafe(no_mangle)]
pub extern "C" fn hl_refresh(handle: &mut Handle, slot: u64) -> Outcome
    ensures { Answers handle.old.slot.value (REFRESH slot) handle.new.slot.value result }
{
    let step = Step::Refresh { t: slot };
    handle.step(step, |core| core.refresh(slot).map(entered))
}

/// The thread of a slot is protected no longer.
#[unsafe(no_mangle)]
pub extern "C" fn hl_release(handle: &mut Handle, slot: u64) -> Brief
    ensures { AnswersBriefly handle.old.slot.value (RELEASE slot) handle.new.slot.value result }
{
    let step = Step::Release { t: slot };
    handle.step_briefly(step, |core| {
        core.release(slot)?;
        Ok(Reply::Left)
    })
}

/// What a slot has, as the reply to the step by which it entered.
#[inline(always)]
fn entered(slot: Slot) -> Reply
    ensures { result ≡ entered_reply slot }
{
    let Slot { epoch, view } = slot;
    Reply::Entered { epoch, view }
}
