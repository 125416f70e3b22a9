//! What is present, in the form that a base is renewed from.

ghost use Rattle.std.specs.Prelude.{◌≡◌};

use crate::present::Present;
use crate::snapshots::six;
use arrayvec::ArrayVec;
use hl_laws::Quantities;
use hl_model::{Held, Six, Slot, Waiting};

/// What is present, with its offsets and its two rows of actions, each looked up once.
#[derive(Drop)]
pub struct Gathered<'a> {
    present: Present<'a>,
    six: Six,
    waiting: ArrayVec<Waiting, 64>,
    taken: ArrayVec<Waiting, 64>,
    ghost six_is: { six ≡ present.six },
    ghost waiting_is: { waiting.items ≡ present.waiting },
    ghost taken_is: { taken.items ≡ present.taken },
}

impl<'a> Gathered<'a> {
    /// With the offsets and the rows of what is present.
    pub fn of(present: Present<'a>) -> Gathered<'a>
        ensures { result.present ≡ present.entry }
    {
        let six = six(&present);
        let waiting = present.waiting();
        let taken = present.taken();
        Gathered {
            present,
            six,
            waiting,
            taken,
        }
    }
}

impl<'a> Quantities for Gathered<'a> {
    ghost tells = { λ gathered. gathered.present };

    fn epoch(&self) -> u64 {
        self.present.epoch()
    }

    fn slot(&self, t: u64) -> Option<Slot> {
        self.present.slot(t)
    }

    fn waiting_count(&self) -> u64 {
        self.waiting.len() as u64
    }

    fn waiting_at(&self, n: u64) -> Option<Waiting> {
        self.waiting.get(n as usize).copied()
    }

    fn taken_row(&self) -> &[Waiting] {
        self.taken.as_slice()
    }

    fn offsets(&self) -> Six {
        self.six
    }

    fn held(&self, f: u64) -> Option<Held> {
        self.present.held_below(self.six.tail, f)
    }
}
