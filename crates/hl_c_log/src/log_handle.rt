ghost use Rattle.std.specs.Prelude.{◌≡◌, IsSome, MatchOption};
ghost use Rattle.std.specs.declared.option.Option.TheVariants.{None, Some};
ghost use Rattle.hl_answers.specs.Slots.{is_live};

use crate::log_slot::LogSlot;
use core::mem::{replace, replace_with};
use hl_answers::Loose;
use hl_log::Log;
use std::alloc::Global;

/// What C keeps of a log: a slot, and 1 if there is one. All bytes zero is a handle with none.
#[repr(C)]
pub struct LogHandle {
    pub(crate) slot: LogSlot,
    pub(crate) live: u64,
    ghost agrees: { live ≡ is_live slot.value },
}

impl LogHandle {
    /// With none.
    pub(crate) fn empty(alloc: Global) -> LogHandle
        ensures { result.slot.value ≡ None }
    {
        LogHandle {
            slot: LogSlot::empty(alloc),
            live: 0,
        }
    }

    /// With this one.
    pub(crate) fn of(value: Box<Log>) -> LogHandle
        ensures { result.slot.value ≡ Some value.value }
    {
        LogHandle {
            slot: LogSlot::of(Loose::of(value)),
            live: 1,
        }
    }

    /// Takes out what it has, if it has one; it then has none.
    #[inline(always)]
    pub(crate) fn take(&mut self) -> Option<Box<Log>>
        ensures value { MatchOption result (self.old.slot.value ≡ None)
            (λ value. self.old.slot.value ≡ Some value.value) }
        ensures none { self.new.slot.value ≡ None }
    {
        if self.live == 0 {
            return None;
        }
        Some(replace_with(self, (), emptied))
    }

    /// Puts one in if it has none.
    #[inline(always)]
    pub(crate) fn put(&mut self, value: Box<Log>)
        requires { self.old.slot.value ≡ None }
        ensures { self.new.slot.value ≡ Some value.value }
    {
        let LogHandle { slot, live: _ } = replace(self, LogHandle::of(value));
        slot.give_up();
    }
}

/// A handle with none, and what was there.
#[inline(always)]
fn emptied(handle: LogHandle, _nothing: ()) -> (LogHandle, Box<Log>)
    requires { IsSome handle.slot.value }
    ensures value { handle.slot.value ≡ Some result.1.value }
    ensures none { result.0.slot.value ≡ None }
{
    let LogHandle { slot, live: _ } = handle;
    let value = slot.into_loose().into_box();
    let alloc = *Box::allocator(&value);
    (LogHandle::empty(alloc), value)
}
