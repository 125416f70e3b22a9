ghost use Rattle.hl_model.specs.declared.step.Step.TheVariants.{Bump as BUMP, Settle as SETTLE, Close as CLOSE, Bare as BARE, Done as DONE};
ghost use Rattle.hl_c.specs.Doors.{Answers, AnswersBriefly, Takes};

use crate::handle::Handle;
use hl_answers::{Brief, Outcome};
use hl_drain::Ask;
use hl_model::{Reply, Step, Tag};

/// Ends the current epoch, and stores a job of this tag: its ticket.
#[unsafe(no_mangle)]
pub extern "C" fn hl_bump(handle: &mut Handle, tag: u64) -> Brief
    ensures { AnswersBriefly handle.old.slot.value (BUMP tag) handle.new.slot.value result }
{
    handle.step_briefly(
        Step::Bump { tag },
        |core| match core.bump(Ask::User(Tag(tag))) {
            Ok(ticket) => Ok(Reply::Ticket(ticket)),
            Err((fault, _)) => Err(fault),
        },
    )
}

/// Ends the current epoch, and stores a settle: its ticket.
#[unsafe(no_mangle)]
pub extern "C" fn hl_settle(handle: &mut Handle) -> Brief
    ensures { AnswersBriefly handle.old.slot.value SETTLE handle.new.slot.value result }
{
    handle.step_briefly(Step::Settle, |core| core.settle().map(Reply::Ticket))
}

/// Ends the current epoch, and stores a close: its ticket.
#[unsafe(no_mangle)]
pub extern "C" fn hl_close(handle: &mut Handle) -> Brief
    ensures { AnswersBriefly handle.old.slot.value CLOSE handle.new.slot.value result }
{
    handle.step_briefly(Step::Close, |core| core.close().map(Reply::Ticket))
}

/// Ends the current epoch, and stores nothing: the epoch that ended.
#[unsafe(no_mangle)]
pub extern "C" fn hl_bare(handle: &mut Handle) -> Brief
    ensures { AnswersBriefly handle.old.slot.value BARE handle.new.slot.value result }
{
    handle.step_briefly(Step::Bare, |core| core.bare().map(Reply::Bumped))
}

/// A taken action was carried out: its job's tag, or the offset after it, and which.
#[unsafe(no_mangle)]
pub extern "C" fn hl_done(handle: &mut Handle, ticket: u64) -> Outcome
    ensures { Answers handle.old.slot.value (DONE ticket) handle.new.slot.value result }
{
    handle.step(Step::Done { ticket }, |core| core.done(ticket))
}

/// Takes the oldest pending action; returns its ticket, and 1 with its tag if it is a job's.
#[unsafe(no_mangle)]
pub extern "C" fn hl_take(handle: &mut Handle) -> Outcome
    ensures { Takes handle.old.slot.value handle.new.slot.value result }
{
    match handle.take_core() {
        Some(mut core) => {
            let outcome = Outcome::of_taken(core.take());
            handle.put_core(core);
            outcome
        }
        None => Outcome::no_core(),
    }
}
