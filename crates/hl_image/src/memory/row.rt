ghost use Rattle.std.specs.Prelude.{◌≡◌, ◌≤◌, Some, None, length, IfOk, IfErr};
ghost use Rattle.std.specs.Option.{option_copied};

use hl_model::{Fault, with_room};
use std::alloc::Global;
use std::marker::Model;

/// The place of one page: as many bytes as an image has, and whether they are one.
#[derive(Drop)]
pub(crate) struct Row {
    bytes: Vec<u8>,
    is_written: bool,
}

impl Model for Row {
    ghost use Rattle.std.specs.Prelude.{◌≡◌, length, vec_capacity};
    ghost use Rattle.hl_image.specs.Pages.{Place};

    ghost Value = { Place };

    ghost use Rattle.hl_image.specs.Places.{place_of};

    ghost view = { place_of };

    // It has no room beside its bytes.
    ghost invariant = { λ a. vec_capacity a.bytes ≡ length a.bytes.items };
}

impl Row {
    /// Returns a row for `size` bytes, without an image.
    ///
    /// Fault: `OutOfMemory` if memory is refused.
    pub(crate) fn open(alloc: Global, size: usize) -> Result<Row, Fault>
        ensures ok { IfOk result (λ row. row ≡ record { size = size; image = None }) }
        ensures err { IfErr result (λ fault. fault ≡ Fault.OutOfMemory) }
    {
        let mut bytes = with_room(alloc, size as u64)?;
        for _ in 0..size {
            bytes.push_reserved(0);
        }
        Ok(Row {
            bytes,
            is_written: false,
        })
    }

    /// Takes these bytes for its image.
    pub(crate) fn store(&mut self, bytes: &[u8])
        requires { length bytes.now ≡ self.old.size }
        ensures { self.new ≡ record { size = self.old.size; image = Some bytes.now } }
    {
        self.bytes.copy_from_slice(bytes);
        self.is_written = true;
    }

    /// Its image, once one was stored.
    pub(crate) fn image(&self) -> Option<&[u8]>
        ensures { option_copied result ≡ self.now.image }
    {
        if self.is_written {
            Some(&self.bytes)
        } else {
            None
        }
    }
}
