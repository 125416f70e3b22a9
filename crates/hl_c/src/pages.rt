ghost use Rattle.hl_model.specs.declared.step.Step.TheVariants.{FlushTake as FLUSH_TAKE, FlushDone as FLUSH_DONE, CleanTake as CLEAN_TAKE, CleanDone as CLEAN_DONE};
ghost use Rattle.hl_c.specs.Doors.{Answers, AnswersBriefly};

use crate::handle::Handle;
use hl_answers::Brief;
use hl_model::{Reply, Step};

/// Takes the least sealed page that is neither flushed nor in flight.
#[unsafe(no_mangle)]
pub extern "C" fn hl_flush_take(handle: &mut Handle) -> Brief
    ensures { AnswersBriefly handle.old.slot.value FLUSH_TAKE handle.new.slot.value result }
{
    handle.step_briefly(Step::FlushTake, |core| core.flush_take().map(Reply::Page))
}

/// The flush of a page ended, well or not: the flushed offset.
#[unsafe(no_mangle)]
pub extern "C" fn hl_flush_done(handle: &mut Handle, page: u64, ok: bool) -> Brief
    ensures { AnswersBriefly handle.old.slot.value (FLUSH_DONE page ok) handle.new.slot.value result }
{
    let step = Step::FlushDone { page, ok };
    handle.step_briefly(step, |core| core.flush_done(page, ok).map(Reply::Flushed))
}

/// Takes the least closed page that is neither freed nor being cleaned.
#[unsafe(no_mangle)]
pub extern "C" fn hl_clean_take(handle: &mut Handle) -> Brief
    ensures { AnswersBriefly handle.old.slot.value CLEAN_TAKE handle.new.slot.value result }
{
    handle.step_briefly(Step::CleanTake, |core| core.clean_take().map(Reply::Page))
}

/// The words of a page are zeroed: its frame is free.
#[unsafe(no_mangle)]
pub extern "C" fn hl_clean_done(handle: &mut Handle, page: u64) -> Brief
    ensures { AnswersBriefly handle.old.slot.value (CLEAN_DONE page) handle.new.slot.value result }
{
    let step = Step::CleanDone { page };
    handle.step_briefly(step, |core| core.clean_done(page).map(Reply::Freed))
}
