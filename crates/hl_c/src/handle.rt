ghost use Rattle.std.specs.Prelude.{◌≡◌, IsSome, MatchOption};
ghost use Rattle.std.specs.declared.option.Option.TheVariants.{None, Some};
ghost use Rattle.hl_answers.specs.Slots.{is_live};

use crate::door::Door;
use crate::slot::Slot;
use core::mem::{replace, replace_with};
use hl_answers::Loose;
use std::alloc::Global;

/// What C keeps: a slot, and 1 if a core is open there. All bytes zero is a handle with none.
#[repr(C)]
pub struct Handle {
    pub(crate) slot: Slot,
    pub(crate) live: u64,
    ghost agrees: { live ≡ is_live slot.value },
}

impl Handle {
    /// With no core.
    pub(crate) fn empty(alloc: Global) -> Handle
        ensures { result.slot.value ≡ None }
    {
        Handle {
            slot: Slot::empty(alloc),
            live: 0,
        }
    }

    /// With this core.
    pub(crate) fn of(core: Box<Door>) -> Handle
        ensures { result.slot.value ≡ Some core.value }
    {
        Handle {
            slot: Slot::of(Loose::of(core)),
            live: 1,
        }
    }

    /// Takes its core out, if it has one; it then has none.
    #[inline(always)]
    pub(crate) fn take_core(&mut self) -> Option<Box<Door>>
        ensures core { MatchOption result (self.old.slot.value ≡ None)
            (λ core. self.old.slot.value ≡ Some core.value) }
        ensures none { self.new.slot.value ≡ None }
    {
        if self.live == 0 {
            return None;
        }
        Some(replace_with(self, (), emptied))
    }

    /// Puts a core in if it has none.
    #[inline(always)]
    pub(crate) fn put_core(&mut self, core: Box<Door>)
        requires { self.old.slot.value ≡ None }
        ensures { self.new.slot.value ≡ Some core.value }
    {
        let Handle { slot, live: _ } = replace(self, Handle::of(core));
        slot.give_up();
    }
}

/// A handle with no core, and the core that was there.
#[inline(always)]
fn emptied(handle: Handle, _nothing: ()) -> (Handle, Box<Door>)
    requires { IsSome handle.slot.value }
    ensures core { handle.slot.value ≡ Some result.1.value }
    ensures none { result.0.slot.value ≡ None }
{
    let Handle { slot, live: _ } = handle;
    let core = slot.into_loose().into_box();
    let alloc = *Box::allocator(&core);
    (Handle::empty(alloc), core)
}
