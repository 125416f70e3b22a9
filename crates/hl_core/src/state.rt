ghost use Rattle.std.specs.Prelude.{◌≡◌, [], IfOk, IfErr};

use crate::views::Views;
use hl_drain::Drain;
use hl_epoch::Epochs;
use hl_frames::Frames;
use hl_model::{EPOCH_WINDOW, Fault, HasSizes, Sizes, Tagged};
use hl_offsets::Offsets;
use std::alloc::Global;
use std::marker::Model;

/// The quantities of an allocator over the table of epochs E, with jobs J in its drain list.
#[derive(Drop)]
pub struct Core<E: Epochs, J: Tagged> {
    // First, beside what a keeper writes at each call.
    pub(crate) offsets: Offsets,
    pub(crate) params: Sizes,
    pub(crate) table: E,
    pub(crate) views: Views,
    pub(crate) frames: Frames,
    pub(crate) drain: Drain<J>,
}

impl<E: Epochs, J: Tagged> Model for Core<E, J> {
    ghost use Rattle.hl_core.specs.Standing.{State, IsStanding};

    ghost Value = { State J };

    ghost view = { λ a. record {
      sizes = a.params;
      table = E.table a.table;
      views = a.views;
      drain = a.drain;
      offsets = a.offsets;
      pages = a.frames.pages;
    } };

    ghost invariant = { λ a. IsStanding J.tag (record {
      sizes = a.params;
      table = E.table a.table;
      views = a.views;
      drain = a.drain;
      offsets = a.offsets;
      pages = a.frames.pages;
    }) };
}

impl<E: Epochs + Drop, J: Tagged + Drop> Core<E, J> {
    ghost use Rattle.hl_core.specs.Standing.{Stands};

    /// Returns a core at the empty list: epoch 1, no slot protected, no action, all offsets 0, all frames
    /// free.
    ///
    /// `OutOfMemory` if memory for its rows was refused.
    pub fn open<S: HasSizes>(alloc: Global, params: S) -> Result<Core<E, J>, Fault>
        ensures ok { IfOk result (λ core. Stands J.tag core [] × (core.sizes ≡ S.sizes_of params)) }
        ensures err { IfErr result (λ fault. fault ≡ Fault.OutOfMemory) }
    {
        Core::of_sizes(alloc, params.sizes())
    }

    // The same, of wide sizes.
    fn of_sizes(alloc: Global, params: Sizes) -> Result<Core<E, J>, Fault>
        ensures ok { IfOk result (λ core. Stands J.tag core [] × (core.sizes ≡ params)) }
        ensures err { IfErr result (λ fault. fault ≡ Fault.OutOfMemory) }
    {
        let slots = params.slots();
        let views = Views::open(alloc, slots)?;
        let frames = Frames::open(alloc, params)?;
        let table = E::make(alloc, slots, EPOCH_WINDOW)?;
        let drain = Drain::open(alloc, params.drain())?;
        Ok(Core {
            params,
            table,
            views,
            drain,
            offsets: Offsets::new(params),
            frames,
        })
    }

    /// Its drain list: the actions that were never taken are in it, and the tickets of those taken and not
    /// done.
    pub fn into_drain(self) -> Drain<J>
        ensures { result ≡ self.drain }
    {
        let Core {
            params: _,
            table: _,
            views: _,
            drain,
            offsets: _,
            frames: _,
        } = self;
        drain
    }
}
