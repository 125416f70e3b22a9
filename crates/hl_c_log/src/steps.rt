//! The steps of a log, under the caller's lock.
ghost use Rattle.hl_model.specs.declared.step.Step.TheVariants.{Bump as BUMP, Settle as SETTLE, Close as CLOSE, Bare as BARE, Done as DONE, Raise as RAISE, Shift as SHIFT};
ghost use Rattle.hl_c_log.specs.Logs.{Answers, AnswersBriefly, Takes};

use crate::log_handle::LogHandle;
use hl_answers::{Brief, Outcome};
use hl_model::Step;

/// Moves the read-only offset up to an address.
#[unsafe(no_mangle)]
pub extern "C" fn hl_log_raise(log: &mut LogHandle, address: u64) -> Brief
    ensures { AnswersBriefly log.old.slot.value (RAISE address) log.new.slot.value result }
{
    log.step_briefly(Step::Raise { x: address })
}

/// Moves the head up to an address.
#[unsafe(no_mangle)]
pub extern "C" fn hl_log_shift(log: &mut LogHandle, address: u64) -> Brief
    ensures { AnswersBriefly log.old.slot.value (SHIFT address) log.new.slot.value result }
{
    log.step_briefly(Step::Shift { x: address })
}

/// Ends the current epoch, and stores a job of this tag: its ticket.
#[unsafe(no_mangle)]
pub extern "C" fn hl_log_bump(log: &mut LogHandle, tag: u64) -> Brief
    ensures { AnswersBriefly log.old.slot.value (BUMP tag) log.new.slot.value result }
{
    log.step_briefly(Step::Bump { tag })
}

/// Ends the current epoch, and stores a settle: its ticket.
#[unsafe(no_mangle)]
pub extern "C" fn hl_log_settle(log: &mut LogHandle) -> Brief
    ensures { AnswersBriefly log.old.slot.value SETTLE log.new.slot.value result }
{
    log.step_briefly(Step::Settle)
}

/// Ends the current epoch, and stores a close: its ticket.
#[unsafe(no_mangle)]
pub extern "C" fn hl_log_close(log: &mut LogHandle) -> Brief
    ensures { AnswersBriefly log.old.slot.value CLOSE log.new.slot.value result }
{
    log.step_briefly(Step::Close)
}

/// Ends the current epoch, and stores nothing: the epoch that ended.
#[unsafe(no_mangle)]
pub extern "C" fn hl_log_bare(log: &mut LogHandle) -> Brief
    ensures { AnswersBriefly log.old.slot.value BARE log.new.slot.value result }
{
    log.step_briefly(Step::Bare)
}

/// A taken action was carried out: its job's tag, or the offset after it, and which.
#[unsafe(no_mangle)]
pub extern "C" fn hl_log_done(log: &mut LogHandle, ticket: u64) -> Outcome
    ensures { Answers log.old.slot.value (DONE ticket) log.new.slot.value result }
{
    log.step(Step::Done { ticket })
}

/// Takes the oldest pending action; returns its ticket, and 1 with its tag if it is a job's.
#[unsafe(no_mangle)]
pub extern "C" fn hl_log_take(log: &mut LogHandle) -> Outcome
    ensures { Takes log.old.slot.value log.new.slot.value result }
{
    match log.take() {
        Some(mut held) => {
            let outcome = Outcome::of_taken(held.take());
            log.put(held);
            outcome
        }
        None => Outcome::no_core(),
    }
}
