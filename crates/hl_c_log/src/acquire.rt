//! Passes, made under the caller's lock.
ghost use Rattle.std.specs.Prelude.{◌≡◌, None, IfSome, MatchOption};
ghost use Rattle.hl_log.specs.Logs.{DealsOne};
ghost use Rattle.hl_log.specs.Passes.{IsVacant};
ghost use Rattle.hl_c_log.specs.Logs.{free_number, StaysOrDeals};
ghost use Rattle.hl_c_log.specs.Passes.{Acquires, AcquiresOf};

use crate::log_handle::LogHandle;
use crate::pass_handle::PassHandle;
use hl_answers::Outcome;
use hl_log::{Log, Pass};
use hl_model::{Fault, Step};
use std::alloc::Global;

/// A slot becomes protected, and the pass acts for it; returns its epoch, and its view, or 255 if there is a
/// pass already.
#[unsafe(no_mangle)]
pub extern "C" fn hl_log_acquire(
    alloc: Global,
    log: &mut LogHandle,
    pass: &mut PassHandle,
    slot: u64,
) -> Outcome
    ensures { Acquires slot log.old.slot.value pass.old.slot.value
        log.new.slot.value pass.new.slot.value result }
{
    if pass.live != 0 {
        return Outcome::no_core();
    }
    match log.take() {
        Some(mut held) => {
            let outcome = acquired(alloc, &mut held, pass, slot);
            log.put(held);
            outcome
        }
        None => Outcome::no_core(),
    }
}

/// The same for a log and a handle with no pass.
fn acquired(alloc: Global, log: &mut Log, pass: &mut PassHandle, slot: u64) -> Outcome
    requires { pass.old.slot.value ≡ None }
    ensures { AcquiresOf slot log.old log.new pass.new.slot.value result }
{
    // Asked first, so that a refused acquire takes no rider.
    if let Some(fault) = log.fault_of(&Step::Acquire { t: slot }) {
        return Outcome::of_fault(fault);
    }
    let Some(mut own) = vacant(alloc, log, slot) else {
        return Outcome::of_fault(Fault::OutOfMemory);
    };
    match log.acquire(&mut own) {
        Ok(reply) => {
            pass.put(own);
            Outcome::of(Ok(reply))
        }
        // The step has no fault, so this isn't met.
        Err(fault) => Outcome::of_fault(fault),
    }
}

/// Returns a pass on the heap that acts for no slot yet, or None if memory is refused.
fn vacant(alloc: Global, log: &mut Log, slot: u64) -> Option<Box<Pass>>
    ensures pass { IfSome result (λ pass. IsVacant log.old slot pass.value) }
    ensures log { MatchOption result (StaysOrDeals log.old log.new) (λ _. DealsOne log.old log.new) }
{
    let pass = log.vacant(slot)?;
    Box::new(alloc, pass).ok()
}

/// Gives a pass back, whose slot stays protected if it wasn't released. Returns 0, or 255 if there is none.
#[unsafe(no_mangle)]
pub extern "C" fn hl_pass_abandon(pass: &mut PassHandle) -> u64
    ensures number { result ≡ free_number pass.old.slot.value }
    ensures none { pass.new.slot.value ≡ None }
{
    match pass.take() {
        Some(own) => {
            drop(own);
            0
        }
        None => 255,
    }
}
