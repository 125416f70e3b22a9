ghost use Rattle.std.specs.Prelude.{◌≡◌, IsSome, MatchOption};
ghost use Rattle.std.specs.declared.option.Option.TheVariants.{None, Some};
ghost use Rattle.hl_answers.specs.Slots.{is_live};

use crate::page_slot::PageSlot;
use core::mem::{replace, replace_with};
use hl_answers::Loose;
use hl_log::Taken;
use std::alloc::Global;

/// What C keeps of a page: a slot, and 1 if there is one. All bytes zero is a handle with none.
#[repr(C)]
pub struct PageHandle {
    pub(crate) slot: PageSlot,
    pub(crate) live: u64,
    ghost agrees: { live ≡ is_live slot.value },
}

impl PageHandle {
    /// With none.
    pub(crate) fn empty(alloc: Global) -> PageHandle
        ensures { result.slot.value ≡ None }
    {
        PageHandle {
            slot: PageSlot::empty(alloc),
            live: 0,
        }
    }

    /// With this one.
    pub(crate) fn of(value: Box<Taken>) -> PageHandle
        ensures { result.slot.value ≡ Some value.value }
    {
        PageHandle {
            slot: PageSlot::of(Loose::of(value)),
            live: 1,
        }
    }

    /// Takes out what it has, if it has one; it then has none.
    #[inline(always)]
    pub(crate) fn take(&mut self) -> Option<Box<Taken>>
        ensures value { MatchOption result (self.old.slot.value ≡ None)
            (λ value. self.old.slot.value ≡ Some value.value) }
        ensures none { self.new.slot.value ≡ None }
    {
        if self.live == 0 {
            return None;
        }
        Some(replace_with(self, (), emptied))
    }

    /// Puts one in if it has none.
    #[inline(always)]
    pub(crate) fn put(&mut self, value: Box<Taken>)
        requires { self.old.slot.value ≡ None }
        ensures { self.new.slot.value ≡ Some value.value }
    {
        let PageHandle { slot, live: _ } = replace(self, PageHandle::of(value));
        slot.give_up();
    }
}

/// A handle with none, and what was there.
#[inline(always)]
fn emptied(handle: PageHandle, _nothing: ()) -> (PageHandle, Box<Taken>)
    requires { IsSome handle.slot.value }
    ensures value { handle.slot.value ≡ Some result.1.value }
    ensures none { result.0.slot.value ≡ None }
{
    let PageHandle { slot, live: _ } = handle;
    let value = slot.into_loose().into_box();
    let alloc = *Box::allocator(&value);
    (PageHandle::empty(alloc), value)
}
