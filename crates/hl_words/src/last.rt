ghost use Rattle.std.specs.Prelude.{◌≡◌, ◌+◌, ◌^◌, ◌<◌, ◌≤◌, drop, slice_index};
ghost use Rattle.std.specs.Slots.{slots_items, slots_len, IsFull};
ghost use Rattle.hl_words.specs.States.{LastState};
ghost use Rattle.hl_words.specs.Views.{place_of};

use crate::which::{ENDED_AT, FIRST, HEAD_AT, READ_ONLY_AT, SAFE_READ_ONLY_AT, Which};
use atomic_table::Closed;
use std::alloc::Global;
use std::marker::Model;

/// The words at their end, when nobody can store into them any more. Contracts see what each one holds, but
/// not the unused ones before the cells.
pub struct LastWords {
    closed: Closed<(), Global>,
    cells: usize,
}

impl Model for LastWords {
    ghost use Rattle.std.specs.Prelude.{◌≡◌, ◌+◌, ◌^◌, ◌≤◌, drop};
    ghost use Rattle.std.specs.Slots.{slots_items, slots_len, IsFull};
    ghost use Rattle.hl_words.specs.States.{LastState};

    ghost Value = { LastState };

    ghost view = { λ l. record { cells = l.cells; words = drop 8 (slots_items l.closed.words) } };

    ghost invariant = { λ l. IsFull l.closed.words × (slots_len l.closed.words ≡ l.cells + 27)
        × (slots_len l.closed.slots ≡ 0) × (l.cells ≤ 2 ^ 36) };
}

impl Drop for LastWords {
    fn drop(self) {
        let LastWords { closed, cells: _ } = self;
        closed.free();
    }
}

impl LastWords {
    /// The words of a table that was closed.
    pub(crate) fn of(closed: Closed<(), Global>, cells: usize) -> LastWords
        requires full { IsFull closed.words }
        requires words { slots_len closed.words ≡ cells + 27 }
        requires no_slot { slots_len closed.slots ≡ 0 }
        requires few { cells ≤ 2 ^ 36 }
        ensures { result ≡ record { cells = cells; words = drop 8 (slots_items closed.words) } }
    {
        LastWords { closed, cells }
    }

    /// What a cell holds.
    pub fn cell(&self, cell: u64) -> u64
        requires { cell < self.now.cells }
        ensures { result ≡ slice_index self.now.words cell }
    {
        self.closed.word(FIRST + cell as usize)
    }

    /// What one of the master's words holds: an offset in words of the log, or an epoch.
    pub fn offset(&self, which: Which) -> u64
        ensures { result ≡ slice_index self.now.words (place_of which self.now.cells) }
    {
        match which {
            Which::ReadOnly => self.closed.word(self.cells + READ_ONLY_AT),
            Which::Head => self.closed.word(self.cells + HEAD_AT),
            Which::Ended => self.closed.word(self.cells + ENDED_AT),
            Which::SafeReadOnly => self.closed.word(self.cells + SAFE_READ_ONLY_AT),
        }
    }
}
