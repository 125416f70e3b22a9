ghost use Rattle.std.specs.Prelude.{◌≡◌, ◌↔◌, IsSome, IfSome};
ghost use Rattle.hl_model.specs.Sizes.{AreInRange, AreNarrow};

use crate::limits::{DRAIN_MOST, FRAMES_MOST, PAGE_SIZE_MOST, SLOTS_MOST};
use crate::sizes::Sizes;
use std::marker::Model;

/// The sizes of an allocator, fixed when it opens. Each is in its narrow range: that is in its type. They are
/// those that a script may ask for; whatever takes [`Sizes`] takes these too.
#[derive(Clone, Copy, Debug, PartialEq, Eq)]
pub struct Params {
    p: u64,
    f: u64,
    s: u64,
    d: u64,
}

impl Model for Params {
    ghost use Rattle.hl_model.specs.Sizes.{Sizes as SizesRecord, AreNarrow};

    ghost Value = { SizesRecord };

    ghost view = { λ a. record { page_size = a.p; frames = a.f; slots = a.s; drain = a.d } };

    ghost invariant = { λ a. AreNarrow
        (record { page_size = a.p; frames = a.f; slots = a.s; drain = a.d }) };

    ghost inverse = { λ s. record { p = s.page_size; f = s.frames; s = s.slots; d = s.drain } };
}

impl Params {
    /// Returns these sizes, if each is in its range: p words a page, a power of two from 4 to 4,096; f
    /// frames, 2 to 256; s thread slots, 1 to 64; d places in the drain list, 1 to 64. Else returns `None`.
    pub fn checked(p: u64, f: u64, s: u64, d: u64) -> Option<Params>
        ensures in_range { IsSome result ↔ AreNarrow
            (record { page_size = p; frames = f; slots = s; drain = d }) }
        ensures value { IfSome result
            (λ params. params ≡ record { page_size = p; frames = f; slots = s; drain = d }) }
    {
        let few = p <= PAGE_SIZE_MOST && f <= FRAMES_MOST && s <= SLOTS_MOST && d <= DRAIN_MOST;
        if few && Sizes::checked(p, f, s, d).is_some() {
            Some(Params { p, f, s, d })
        } else {
            None
        }
    }

    /// Returns sizes for an engine, as [`Sizes::checked`] does, of which this is the older name. The benchmark's
    /// programs use it, since they are also built in trees that have no other.
    pub fn wide(page_size: u64, frames: u64, slots: u64, drain: u64) -> Option<Sizes>
        ensures in_range { IsSome result ↔ AreInRange
            (record { page_size = page_size; frames = frames; slots = slots; drain = drain }) }
        ensures value { IfSome result (λ sizes. sizes ≡ record {
          page_size = page_size;
          frames = frames;
          slots = slots;
          drain = drain;
        }) }
    {
        Sizes::checked(page_size, frames, slots, drain)
    }

    /// The same as sizes for an engine: what is narrow is in the wide ranges.
    pub fn sizes(self) -> Sizes
        ensures value { result ≡ self }
        ensures narrow { AreNarrow self }
    {
        Sizes {
            page_size: self.p,
            frames: self.f,
            slots: self.s,
            drain: self.d,
        }
    }

    /// How many words a page has, P: a power of two from 4 to 4,096.
    pub fn page_size(self) -> u64
        ensures value { result ≡ self.page_size }
        ensures valid { AreNarrow self }
    {
        self.p
    }

    /// The number of frames, F: 2 to 256.
    pub fn frames(self) -> u64
        ensures value { result ≡ self.frames }
        ensures valid { AreNarrow self }
    {
        self.f
    }

    /// The number of thread slots, S: 1 to 64.
    pub fn slots(self) -> u64
        ensures value { result ≡ self.slots }
        ensures valid { AreNarrow self }
    {
        self.s
    }

    /// The places of the drain list, D: 1 to 64.
    pub fn drain(self) -> u64
        ensures value { result ≡ self.drain }
        ensures valid { AreNarrow self }
    {
        self.d
    }
}

impl From<Params> for Sizes {
    ghost from_gives = { λ params sizes. sizes ≡ params };

    fn from(params: Params) -> Sizes {
        params.sizes()
    }
}
