ghost use Rattle.std.specs.Prelude.{◌≡◌, Result};
ghost use Rattle.hl_model.specs.declared.step.Step.TheVariants.{Refresh as REFRESH};
ghost use Rattle.hl_core.specs.Steps.{as_reply, entered_reply};
ghost use Rattle.hl_answers.specs.Outcomes.{outcome_of};
ghost use Rattle.hl_c_log.specs.Passes.{CallsBy, stays};

use crate::log_handle::LogHandle;
use crate::pass_handle::PassHandle;
use hl_answers::Outcome;
use hl_model::{Fault, Slot};

/// The pass's slot moves on: its epoch, and its view.
#[unsafe(no_mangle)]
pub extern "C" fn hl_log_refresh(log: &mut LogHandle, pass: &mut PassHandle) -> Outcome
    ensures { CallsBy stays (REFRESH 0) log.old.slot.value pass.old.slot.value
        log.new.slot.value pass.new.slot.value result }
{
    let Some(mut held) = log.take() else {
        return Outcome::no_core();
    };
    let Some(mut own) = pass.take() else {
        log.put(held);
        return Outcome::no_core();
    };
    let entered = held.refresh(&mut own);
    pass.put(own);
    log.put(held);
    told(entered)
}

/// What is told of a slot that entered, or of the fault in its place.
#[inline(always)]
fn told(entered: Result<Slot, Fault>) -> Outcome
    ensures { result ≡ outcome_of (as_reply entered_reply entered) }
{
    match entered {
        Ok(Slot { epoch, view }) => {
            Outcome::accepted(epoch, view.read_only, view.head, view.tail)
        }
        Err(fault) => Outcome::of_fault(fault),
    }
}
