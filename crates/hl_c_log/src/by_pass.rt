//! The calls of a pass under the caller's lock, but for its refresh.
ghost use Rattle.hl_model.specs.declared.step.Step.TheVariants.{Release as RELEASE, Allocate as ALLOCATE};
ghost use Rattle.hl_log.specs.Calls.{IsCall};
ghost use Rattle.hl_c_log.specs.Passes.{CallsBy, CallsBriefly, stays, leaves};

use crate::log_handle::LogHandle;
use crate::pass_handle::PassHandle;
use hl_answers::{Brief, Outcome};
use hl_model::Step;

/// Places a record of so many words for the pass's slot: its address.
#[unsafe(no_mangle)]
pub extern "C" fn hl_log_allocate(log: &mut LogHandle, pass: &mut PassHandle, words: u64) -> Brief
    ensures { CallsBriefly stays (ALLOCATE 0 words) log.old.slot.value pass.old.slot.value
        log.new.slot.value pass.new.slot.value result }
{
    by_pass(log, pass, Step::Allocate { t: 0, n: words }).brief()
}

/// The pass's slot is protected no longer, and the pass is given back.
#[unsafe(no_mangle)]
pub extern "C" fn hl_log_release(log: &mut LogHandle, pass: &mut PassHandle) -> Brief
    ensures { CallsBriefly leaves (RELEASE 0) log.old.slot.value pass.old.slot.value
        log.new.slot.value pass.new.slot.value result }
{
    released(log, pass).brief()
}

/// The same, told at length.
fn released(log: &mut LogHandle, pass: &mut PassHandle) -> Outcome
    ensures { CallsBy leaves (RELEASE 0) log.old.slot.value pass.old.slot.value
        log.new.slot.value pass.new.slot.value result }
{
    let outcome = by_pass(log, pass, Step::Release { t: 0 });
    let accepted = outcome.number == 0;
    if accepted {
        let released = pass.take();
        drop(released);
    }
    outcome
}

/// Makes a step of a pass, whose slot takes the place of the step's, if both handles have what they are for.
#[inline(always)]
fn by_pass(log: &mut LogHandle, pass: &mut PassHandle, step: Step) -> Outcome
    requires { IsCall step }
    ensures { CallsBy stays step log.old.slot.value pass.old.slot.value
        log.new.slot.value pass.new.slot.value result }
{
    let Some(mut held) = log.take() else {
        return Outcome::no_core();
    };
    let Some(mut own) = pass.take() else {
        log.put(held);
        return Outcome::no_core();
    };
    let outcome = Outcome::of(held.call(&mut own, &step));
    pass.put(own);
    log.put(held);
    outcome
}
