ghost use Rattle.std.specs.Prelude.{◌≡◌, IsSome, IfSome, MatchOption};
ghost use Rattle.std.specs.declared.option.Option.TheVariants.{None, Some};
ghost use Rattle.hl_answers.specs.Slots.{is_live};
ghost use Rattle.std.proofs.Props.{props};
ghost use Rattle.hl_log.specs.Passes.{IsRisen};

use crate::pass_slot::PassSlot;
use core::mem::{replace, replace_with};
use hl_answers::Loose;
use hl_log::Pass;
use std::alloc::Global;

/// What C keeps of a pass: a slot, and 1 if there is one. All bytes zero is a handle with none. The pass saw
/// nothing below what its slot did: that is in the type.
#[repr(C)]
pub struct PassHandle {
    pub(crate) slot: PassSlot,
    pub(crate) live: u64,
    ghost agrees: { live ≡ is_live slot.value },
    ghost risen: { IfSome slot.value IsRisen } by { Prim.hlevel props },
}

impl PassHandle {
    /// With none.
    pub(crate) fn empty(alloc: Global) -> PassHandle
        ensures { result.slot.value ≡ None }
    {
        PassHandle {
            slot: PassSlot::empty(alloc),
            live: 0,
        }
    }

    /// With this one, which saw nothing below what its slot did.
    pub(crate) fn of(value: Box<Pass>) -> PassHandle
        requires { IsRisen value.value }
        ensures { result.slot.value ≡ Some value.value }
    {
        PassHandle {
            slot: PassSlot::of(Loose::of(value)),
            live: 1,
        }
    }

    /// Takes out what it has, if it has one; it then has none.
    #[inline(always)]
    pub(crate) fn take(&mut self) -> Option<Box<Pass>>
        ensures value { MatchOption result (self.old.slot.value ≡ None)
            (λ value. self.old.slot.value ≡ Some value.value) }
        ensures none { self.new.slot.value ≡ None }
        ensures risen { IfSome result (λ value. IsRisen value.value) }
    {
        if self.live == 0 {
            return None;
        }
        Some(replace_with(self, (), emptied))
    }

    /// Puts one in if it has none.
    #[inline(always)]
    pub(crate) fn put(&mut self, value: Box<Pass>)
        requires none { self.old.slot.value ≡ None }
        requires risen { IsRisen value.value }
        ensures { self.new.slot.value ≡ Some value.value }
    {
        let PassHandle { slot, live: _ } = replace(self, PassHandle::of(value));
        slot.give_up();
    }
}

/// A handle with none, and what was there.
#[inline(always)]
fn emptied(handle: PassHandle, _nothing: ()) -> (PassHandle, Box<Pass>)
    requires { IsSome handle.slot.value }
    ensures value { handle.slot.value ≡ Some result.1.value }
    ensures none { result.0.slot.value ≡ None }
    ensures risen { IsRisen result.1.value }
{
    let PassHandle { slot, live: _ } = handle;
    let value = slot.into_loose().into_box();
    let alloc = *Box::allocator(&value);
    (PassHandle::empty(alloc), value)
}
