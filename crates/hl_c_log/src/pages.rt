//! Pages that are taken from a log, under the caller's lock.
ghost use Rattle.std.specs.Prelude.{◌≡◌, true, false, ◌==◌, if◌then◌else◌, IfSome, MatchOption};
ghost use Rattle.std.specs.declared.option.Option.TheVariants.{None, Some};
ghost use Rattle.hl_model.specs.declared.step.Step.TheVariants.{FlushDone as FLUSH_DONE, CleanDone as CLEAN_DONE};
ghost use Rattle.hl_answers.specs.Outcomes.{brief_of, no_core};
ghost use Rattle.hl_log.specs.Logs.{DealsOne};
ghost use Rattle.hl_log.specs.Taken.{origin_fault, taking, unswept_fault, IsFresh};
ghost use Rattle.hl_c_log.specs.Logs.{StaysOrDeals};
ghost use Rattle.hl_c_log.specs.Pages.{Gives, GivesOf, Ends};

use crate::log_handle::LogHandle;
use crate::page_handle::PageHandle;
use hl_answers::{Brief, Outcome};
use hl_log::{Log, Taken};
use hl_model::{Fault, Reply, Step};
use std::alloc::Global;

/// Takes the least sealed page that is neither flushed nor in flight; returns its number, or 255 if there is
/// a page already.
#[unsafe(no_mangle)]
pub extern "C" fn hl_log_flush_take(
    alloc: Global,
    log: &mut LogHandle,
    page: &mut PageHandle,
) -> Brief
    ensures { Gives false log.old.slot.value page.old.slot.value
        log.new.slot.value page.new.slot.value result }
{
    take_page(alloc, log, page, false)
}

/// Takes the least closed page that is neither freed nor being cleaned; returns its number, or 255 if there
/// is a page already.
#[unsafe(no_mangle)]
pub extern "C" fn hl_log_clean_take(
    alloc: Global,
    log: &mut LogHandle,
    page: &mut PageHandle,
) -> Brief
    ensures { Gives true log.old.slot.value page.old.slot.value
        log.new.slot.value page.new.slot.value result }
{
    take_page(alloc, log, page, true)
}

/// Takes a page, to be cleaned or else to be flushed.
#[inline(always)]
fn take_page(alloc: Global, log: &mut LogHandle, page: &mut PageHandle, cleans: bool) -> Brief
    ensures { Gives cleans log.old.slot.value page.old.slot.value
        log.new.slot.value page.new.slot.value result }
{
    if page.live != 0 {
        return Outcome::no_core().brief();
    }
    match log.take() {
        Some(mut held) => {
            let brief = taken(alloc, &mut held, page, cleans);
            log.put(held);
            brief
        }
        None => Outcome::no_core().brief(),
    }
}

/// The same for a log and a handle with no page.
fn taken(alloc: Global, log: &mut Log, page: &mut PageHandle, cleans: bool) -> Brief
    requires { page.old.slot.value ≡ None }
    ensures { GivesOf cleans log.old log.new page.new.slot.value result }
{
    // Asked first, so that a refused take takes no rider.
    if let Some(fault) = log.fault_of(&taking(cleans)) {
        return Outcome::of_fault(fault).brief();
    }
    let Some(mut own) = vacant(alloc, log, cleans) else {
        return Outcome::of_fault(Fault::OutOfMemory).brief();
    };
    match log.take_page(&mut own) {
        Ok(number) => {
            page.put(own);
            Outcome::of(Ok(Reply::Page(number))).brief()
        }
        // The step has no fault, so this isn't met.
        Err(fault) => Outcome::of_fault(fault).brief(),
    }
}

/// The step that takes a page.
#[inline(always)]
fn taking(cleans: bool) -> Step
    ensures { result ≡ taking cleans }
{
    if cleans {
        Step::CleanTake
    } else {
        Step::FlushTake
    }
}

/// Returns a page on the heap that is to be taken, or None if memory is refused.
fn vacant(alloc: Global, log: &mut Log, cleans: bool) -> Option<Box<Taken>>
    ensures page { IfSome result (λ page. IsFresh log.old cleans page.value) }
    ensures log { MatchOption result (StaysOrDeals log.old log.new) (λ _. DealsOne log.old log.new) }
{
    let page = log.vacant_page(cleans)?;
    Box::new(alloc, page).ok()
}

/// The flush of a page ended, well or not; returns the flushed offset. The page is given back if this was
/// accepted.
#[unsafe(no_mangle)]
pub extern "C" fn hl_log_flush_done(log: &mut LogHandle, page: &mut PageHandle, ok: bool) -> Brief
    ensures { Ends origin_fault (λ number. FLUSH_DONE number ok) log.old.slot.value page.old.slot.value
        log.new.slot.value page.new.slot.value result }
{
    let Some(mut held) = log.take() else {
        return Outcome::no_core().brief();
    };
    let Some(own) = page.take() else {
        log.put(held);
        return Outcome::no_core().brief();
    };
    let brief = Outcome::of(held.flush_done(&own, ok)).brief();
    log.put(held);
    give_back(page, own, brief.number);
    brief
}

/// The words of a page are zeroed: its frame is free. The page is given back if this was accepted.
#[unsafe(no_mangle)]
pub extern "C" fn hl_log_clean_done(log: &mut LogHandle, page: &mut PageHandle) -> Brief
    ensures { Ends unswept_fault CLEAN_DONE log.old.slot.value page.old.slot.value
        log.new.slot.value page.new.slot.value result }
{
    let Some(mut held) = log.take() else {
        return Outcome::no_core().brief();
    };
    let Some(own) = page.take() else {
        log.put(held);
        return Outcome::no_core().brief();
    };
    let brief = Outcome::of(held.clean_done(&own)).brief();
    log.put(held);
    give_back(page, own, brief.number);
    brief
}

/// Puts a page back, unless its work ended.
#[inline(always)]
fn give_back(handle: &mut PageHandle, page: Box<Taken>, number: u64)
    requires { handle.old.slot.value ≡ None }
    ensures { handle.new.slot.value ≡ (if number == 0 then None else Some page.value) }
{
    if number == 0 {
        drop(page);
    } else {
        handle.put(page);
    }
}
