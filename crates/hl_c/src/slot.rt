ghost use Rattle.std.specs.Prelude.{◌≡◌, IsSome};
ghost use Rattle.std.specs.declared.option.Option.{Option};
ghost use Rattle.std.specs.declared.option.Option.TheVariants.{None, Some};
ghost use Rattle.std.specs.Coded.{coded_option};
ghost use Rattle.hl_answers.specs.Slots.{kept};
ghost use Rattle.hl_c.specs.Slots.{DoorRow};

use crate::door::Door;
use hl_answers::Loose;
use std::alloc::Global;
use std::marker::Model;
use std::ptr::null_mut;

/// A place for a core on the heap, known by where it lies. The value says which core, if there is one.
#[repr(C)]
pub struct Slot {
    pub(crate) at: *mut u8,
    pub(crate) alloc: Global,
    pub(crate) ghost value: { Option DoorRow.Denot } by { coded_option DoorRow.coded },
}

impl Model for Slot {
    ghost also_owns = { λ s. kept DoorRow s.alloc s.at s.value };
}

impl Slot {
    /// With no core.
    pub(crate) fn empty(alloc: Global) -> Slot
        ensures { result.value ≡ None }
    {
        Slot {
            at: null_mut(),
            alloc,
        }
    }

    /// With this core.
    pub(crate) fn of(core: Loose<Door, Global>) -> Slot
        ensures { result.value ≡ Some core.value }
    {
        let Loose { at, alloc } = core;
        Slot {
            at: at as *mut u8,
            alloc,
        }
    }

    /// Its core.
    pub(crate) fn into_loose(self) -> Loose<Door, Global>
        requires { IsSome self.value }
        ensures { self.value ≡ Some result.value }
    {
        let Slot { at, alloc } = self;
        Loose {
            at: at as *mut Door,
            alloc,
        }
    }

    /// A slot with no core is let go.
    pub(crate) fn give_up(self)
        requires { self.value ≡ None }
    {
        let Slot { at: _, alloc: _ } = self;
    }
}

// Its core may go to another thread, and its block may be freed there.
unsafe impl Send for Slot {}
