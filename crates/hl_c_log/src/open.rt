ghost use Rattle.std.specs.Prelude.{◌≡◌, ◌↔◌, None, IsSome, IfSome};
ghost use Rattle.hl_model.specs.Sizes.{AreInRange, AreNarrow};
ghost use Rattle.hl_c_log.specs.Logs.{Opens, OpensWith, IsOpened, free_number};

use crate::log_handle::LogHandle;
use hl_log::Log;
use hl_model::{Params, Sizes};
use std::alloc::Global;

/// Opens a log: so many words a page, frames, slots, places in the drain list, narrow sizes; and a stamp, by
/// which its passes and pages are told from those of other logs. Returns 0 if it did; 29 if memory was
/// refused, 254 if a size is out of range, 255 if a log is open already, which stays as it was.
#[unsafe(no_mangle)]
pub extern "C" fn hl_log_open(
    alloc: Global,
    log: &mut LogHandle,
    page_size: u64,
    frames: u64,
    slots: u64,
    drain: u64,
    stamp: u64,
) -> u64
    ensures { Opens AreNarrow log.old.slot.value
        (record { page_size = page_size; frames = frames; slots = slots; drain = drain }) stamp
        log.new.slot.value result }
{
    open_with(alloc, log, narrow(page_size, frames, slots, drain), stamp)
}

/// The same for wide sizes: a page of up to 2^20 words, up to 2^16 frames, 1,024 slots and 4,096 places in
/// the drain list.
#[unsafe(no_mangle)]
pub extern "C" fn hl_log_open_wide(
    alloc: Global,
    log: &mut LogHandle,
    page_size: u64,
    frames: u64,
    slots: u64,
    drain: u64,
    stamp: u64,
) -> u64
    ensures { Opens AreInRange log.old.slot.value
        (record { page_size = page_size; frames = frames; slots = slots; drain = drain }) stamp
        log.new.slot.value result }
{
    let sizes = Sizes::checked(page_size, frames, slots, drain);
    open_with(alloc, log, sizes, stamp)
}

/// Narrow sizes, if these are.
fn narrow(page_size: u64, frames: u64, slots: u64, drain: u64) -> Option<Sizes>
    ensures in_range { IsSome result ↔ AreNarrow
        (record { page_size = page_size; frames = frames; slots = slots; drain = drain }) }
    ensures value { IfSome result (λ sizes. sizes ≡ record {
      page_size = page_size;
      frames = frames;
      slots = slots;
      drain = drain;
    }) }
{
    let params = Params::checked(page_size, frames, slots, drain)?;
    Some(params.sizes())
}

/// Opens a log of these sizes, if they are in range.
fn open_with(alloc: Global, log: &mut LogHandle, sizes: Option<Sizes>, stamp: u64) -> u64
    ensures { OpensWith log.old.slot.value sizes stamp log.new.slot.value result }
{
    if log.live != 0 {
        return 255;
    }
    let Some(sizes) = sizes else {
        return 254;
    };
    match boxed(alloc, sizes, stamp) {
        Some(opened) => {
            log.put(opened);
            0
        }
        None => 29,
    }
}

/// Returns a log at the empty list, on the heap, or None if memory is refused.
fn boxed(alloc: Global, sizes: Sizes, stamp: u64) -> Option<Box<Log>>
    ensures { IfSome result (λ log. IsOpened sizes stamp log.value) }
{
    let log = Log::open(alloc, sizes, stamp)?;
    Box::new(alloc, log).ok()
}

/// Gives the log back. Its passes and pages stay, with the words. Returns 0, or 255 if none was open.
#[unsafe(no_mangle)]
pub extern "C" fn hl_log_free(log: &mut LogHandle) -> u64
    ensures number { result ≡ free_number log.old.slot.value }
    ensures none { log.new.slot.value ≡ None }
{
    match log.take() {
        Some(held) => {
            drop(held);
            0
        }
        None => 255,
    }
}
