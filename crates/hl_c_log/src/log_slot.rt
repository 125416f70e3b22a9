ghost use Rattle.std.specs.Prelude.{◌≡◌, IsSome};
ghost use Rattle.std.specs.declared.option.Option.{Option};
ghost use Rattle.std.specs.declared.option.Option.TheVariants.{None, Some};
ghost use Rattle.std.specs.Coded.{coded_option};
ghost use Rattle.hl_answers.specs.Slots.{kept};
ghost use Rattle.hl_c_log.specs.Rows.{LogRow};

use hl_answers::Loose;
use hl_log::Log;
use std::alloc::Global;
use std::marker::Model;
use std::ptr::null_mut;

/// A place for a log on the heap, known by where it lies. The value says which, if there is one.
#[repr(C)]
pub struct LogSlot {
    pub(crate) at: *mut u8,
    pub(crate) alloc: Global,
    pub(crate) ghost value: { Option LogRow.Denot } by { coded_option LogRow.coded },
}

impl Model for LogSlot {
    ghost also_owns = { λ s. kept LogRow s.alloc s.at s.value };
}

impl LogSlot {
    /// With none.
    pub(crate) fn empty(alloc: Global) -> LogSlot
        ensures { result.value ≡ None }
    {
        LogSlot {
            at: null_mut(),
            alloc,
        }
    }

    /// With this one.
    pub(crate) fn of(value: Loose<Log, Global>) -> LogSlot
        ensures { result.value ≡ Some value.value }
    {
        let Loose { at, alloc } = value;
        LogSlot {
            at: at as *mut u8,
            alloc,
        }
    }

    /// What it has.
    pub(crate) fn into_loose(self) -> Loose<Log, Global>
        requires { IsSome self.value }
        ensures { self.value ≡ Some result.value }
    {
        let LogSlot { at, alloc } = self;
        Loose {
            at: at as *mut Log,
            alloc,
        }
    }

    /// An empty slot is let go.
    pub(crate) fn give_up(self)
        requires { self.value ≡ None }
    {
        let LogSlot { at: _, alloc: _ } = self;
    }
}

// What it has may go to another thread, and its block may be freed there.
unsafe impl Send for LogSlot {}
