ghost use Rattle.std.specs.Prelude.{◌≡◌, ◌↔◌, None, [], IsSome, IfSome};
ghost use Rattle.hl_model.specs.Sizes.{AreInRange, AreNarrow};
ghost use Rattle.hl_c.specs.Doors.{Opens, OpensWith, StandsAt, free_number};

use crate::door::Door;
use crate::handle::Handle;
use hl_model::{Params, Sizes};
use std::alloc::Global;

/// Opens a core: so many words a page, frames, slots, places in the drain list, narrow sizes. Returns 0 if it
/// did; 29 if memory was refused, 254 if a size is out of range, 255 if a core is open already, which stays
/// as it was.
#[unsafe(no_mangle)]
pub extern "C" fn hl_open(
    alloc: Global,
    handle: &mut Handle,
    page_size: u64,
    frames: u64,
    slots: u64,
    drain: u64,
) -> u64
    ensures { Opens AreNarrow handle.old.slot.value
        (record { page_size = page_size; frames = frames; slots = slots; drain = drain })
        handle.new.slot.value result }
{
    open_with(alloc, handle, narrow(page_size, frames, slots, drain))
}

/// Opens a core of wide sizes: a page of up to 2^20 words, up to 2^16 frames, 1,024 slots and 4,096 places in
/// the drain list. Returns what `hl_open` does.
#[unsafe(no_mangle)]
pub extern "C" fn hl_open_wide(
    alloc: Global,
    handle: &mut Handle,
    page_size: u64,
    frames: u64,
    slots: u64,
    drain: u64,
) -> u64
    ensures { Opens AreInRange handle.old.slot.value
        (record { page_size = page_size; frames = frames; slots = slots; drain = drain })
        handle.new.slot.value result }
{
    open_with(
        alloc,
        handle,
        Sizes::checked(page_size, frames, slots, drain),
    )
}

/// Narrow sizes, if these are.
fn narrow(page_size: u64, frames: u64, slots: u64, drain: u64) -> Option<Sizes>
    ensures in_range { IsSome result ↔ AreNarrow
        (record { page_size = page_size; frames = frames; slots = slots; drain = drain }) }
    ensures value { IfSome result (λ sizes. sizes ≡ record {
      page_size = page_size;
      frames = frames;
      slots = slots;
      drain = drain;
    }) }
{
    let params = Params::checked(page_size, frames, slots, drain)?;
    Some(params.sizes())
}

/// Opens a core of these sizes, if they are in range.
fn open_with(alloc: Global, handle: &mut Handle, params: Option<Sizes>) -> u64
    ensures { OpensWith handle.old.slot.value params handle.new.slot.value result }
{
    if handle.live != 0 {
        return 255;
    }
    let Some(params) = params else {
        return 254;
    };
    match boxed(alloc, params) {
        Some(core) => {
            handle.put_core(core);
            0
        }
        None => 29,
    }
}

/// Gives the core back with its memory; the handle then has none. Returns 0, or 255 if none was open.
#[unsafe(no_mangle)]
pub extern "C" fn hl_free(handle: &mut Handle) -> u64
    ensures number { result ≡ free_number handle.old.slot.value }
    ensures none { handle.new.slot.value ≡ None }
{
    match handle.take_core() {
        Some(core) => {
            drop(core);
            0
        }
        None => 255,
    }
}

/// Returns a core at the empty list, on the heap, or None if memory is refused.
fn boxed(alloc: Global, params: Sizes) -> Option<Box<Door>>
    ensures { IfSome result (λ core. StandsAt core.value [] × (core.value.sizes ≡ params)) }
{
    let core = Door::open(alloc, params).ok()?;
    Box::new(alloc, core).ok()
}
