ghost use Rattle.std.specs.Prelude.{◌≡◌, ◌↔◌, IsSome, IfSome};
ghost use Rattle.hl_model.specs.Sizes.{AreInRange, AreNarrow};

use crate::limits::{
    DRAIN_WIDE_MOST, FRAMES_LEAST, FRAMES_WIDE_MOST, PAGE_SIZE_LEAST, PAGE_SIZE_WIDE_MOST,
    SLOTS_WIDE_MOST,
};
use crate::params::Params;
use std::marker::Model;

/// The sizes of an allocator for an engine, fixed when it opens. Each is in its wide range: that is in its
/// type.
#[derive(Clone, Copy, Debug, PartialEq, Eq)]
pub struct Sizes {
    pub(crate) page_size: u64,
    pub(crate) frames: u64,
    pub(crate) slots: u64,
    pub(crate) drain: u64,
}

impl Model for Sizes {
    ghost use Rattle.hl_model.specs.Sizes.{Sizes as SizesRecord, AreInRange};

    ghost Value = { SizesRecord };

    ghost view = { λ a. record {
      page_size = a.page_size;
      frames = a.frames;
      slots = a.slots;
      drain = a.drain;
    } };

    ghost invariant = { λ a. AreInRange (record {
      page_size = a.page_size;
      frames = a.frames;
      slots = a.slots;
      drain = a.drain;
    }) };

    ghost inverse = { λ s. record {
      page_size = s.page_size;
      frames = s.frames;
      slots = s.slots;
      drain = s.drain;
    } };
}

/// Four numbers for [`Sizes::of`], by their names: so none stands in another's place.
#[derive(Clone, Copy, Debug, PartialEq, Eq)]
pub struct RawSizes {
    /// How many words a page has.
    pub page_size: u64,
    /// The number of frames.
    pub frames: u64,
    /// The number of thread slots.
    pub slots: u64,
    /// The places of the drain list.
    pub drain: u64,
}

impl Sizes {
    /// Returns these sizes, if each is in its range: a page of 4 to 2^20 words, a power of two; 2 to 2^16
    /// frames; 1 to 1,024 thread slots; 1 to 4,096 places in the drain list. Else returns `None`. All frames
    /// together have at most 2^36 words, which are 512 GiB.
    pub fn checked(page_size: u64, frames: u64, slots: u64, drain: u64) -> Option<Sizes>
        ensures in_range { IsSome result ↔ AreInRange
            (record { page_size = page_size; frames = frames; slots = slots; drain = drain }) }
        ensures value { IfSome result (λ sizes. sizes ≡ record {
          page_size = page_size;
          frames = frames;
          slots = slots;
          drain = drain;
        }) }
    {
        let pages = PAGE_SIZE_LEAST <= page_size && page_size <= PAGE_SIZE_WIDE_MOST;
        let rows = FRAMES_LEAST <= frames && frames <= FRAMES_WIDE_MOST;
        let threads = 1 <= slots && slots <= SLOTS_WIDE_MOST;
        let actions = 1 <= drain && drain <= DRAIN_WIDE_MOST;
        if pages && page_size.is_power_of_two() && rows && threads && actions {
            Some(Sizes {
                page_size,
                frames,
                slots,
                drain,
            })
        } else {
            None
        }
    }

    /// The same by names: returns `None` if one is out of its range, as [`Sizes::checked`] does.
    pub fn of(raw: RawSizes) -> Option<Sizes>
        ensures in_range { IsSome result ↔ AreInRange (record {
          page_size = raw.page_size;
          frames = raw.frames;
          slots = raw.slots;
          drain = raw.drain;
        }) }
        ensures value { IfSome result (λ sizes. sizes ≡ record {
          page_size = raw.page_size;
          frames = raw.frames;
          slots = raw.slots;
          drain = raw.drain;
        }) }
    {
        Sizes::checked(raw.page_size, raw.frames, raw.slots, raw.drain)
    }

    /// Returns the same sizes for a script or its slow form, or `None` if they are not narrow.
    pub fn params(self) -> Option<Params>
        ensures narrow { IsSome result ↔ AreNarrow self }
        ensures value { IfSome result (λ params. params ≡ self) }
    {
        Params::checked(self.page_size, self.frames, self.slots, self.drain)
    }

    /// How many words a page has, P: a power of two from 4 to 2^20.
    pub fn page_size(self) -> u64
        ensures value { result ≡ self.page_size }
        ensures valid { AreInRange self }
    {
        self.page_size
    }

    /// The number of frames, F: 2 to 2^16.
    pub fn frames(self) -> u64
        ensures value { result ≡ self.frames }
        ensures valid { AreInRange self }
    {
        self.frames
    }

    /// The number of thread slots, S: 1 to 1,024.
    pub fn slots(self) -> u64
        ensures value { result ≡ self.slots }
        ensures valid { AreInRange self }
    {
        self.slots
    }

    /// The places of the drain list, D: 1 to 4,096.
    pub fn drain(self) -> u64
        ensures value { result ≡ self.drain }
        ensures valid { AreInRange self }
    {
        self.drain
    }
}
