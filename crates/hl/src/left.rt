//! What is left at an address, once a log was closed.
ghost use Rattle.byteorder.specs.Endian.{big_number};
ghost use Rattle.std.specs.Prelude.{◌≡◌, ◌+◌, ◌*◌, ◌<◌, ◌≤◌, ◌^◌, ◌⊎◌, ℕ, Some, None, IfErr, IfOk, drop, length, slice_index};
ghost use Rattle.hl_model.specs.declared.fault.Fault.TheVariants.{Device, OutOfMemory};
ghost use Rattle.hl_keeper.specs.Passes.{cell_at};
ghost use Rattle.hl.specs.Left.{word_in, AreLeft, IsLeft};

use crate::memory::MemoryDevice;
use byteorder::{BigEndian, ByteOrder};
use hl_action::{Promise, Task};
use hl_domain::Ending;
use hl_model::{Fault, Sizes};
use std::alloc::Global;

/// The word at an address, once a log of these sizes with this device in memory was closed: from memory, or if it was closed
/// there, from the device. It is what the threads' one trace leaves at the address
/// ([`with_memory`](crate::with_memory)).
///
/// `None` at the tail and beyond; and for a closed address if the device's two writers have different images of its page:
/// that can't be, but it isn't proved.
pub fn word_left<F: Task, P: Promise>(
    sizes: Sizes,
    ending: &Ending<F, P>,
    device: &MemoryDevice,
    address: u64,
) -> Option<u64>
    requires { ending.now.words.cells ≡ sizes.frames * sizes.page_size }
    ensures left { IsLeft sizes device.now ending.now address result }
    ensures memory { ending.now.snapshot.six.closed ≤ address → address < ending.now.snapshot.six.tail
        → result ≡ Some (slice_index ending.now.words.words (cell_at sizes address)) }
    ensures beyond { ending.now.snapshot.six.tail ≤ address → result ≡ None }
{
    let six = &ending.snapshot.six;
    if address >= six.tail {
        return None;
    }
    let page = address / sizes.page_size();
    let place = address % sizes.page_size();
    if address >= six.closed {
        let frame = page % sizes.frames();
        return Some(ending.words.cell(frame * sizes.page_size() + place));
    }
    match device.image(page) {
        Some(image) => word_of(image, place as usize),
        None => None,
    }
}

/// All words of such a log, from address 0 up to the tail, each as [`word_left`] tells it. A word that lies in no record is 0.
///
/// Faults: `OutOfMemory` if memory is refused; `Device` if the device's two writers have different images of a page.
pub fn words_left<F: Task, P: Promise>(
    alloc: Global,
    sizes: Sizes,
    ending: &Ending<F, P>,
    device: &MemoryDevice,
) -> Result<Vec<u64>, Fault>
    requires { ending.now.words.cells ≡ sizes.frames * sizes.page_size }
    ensures left { IfOk result (λ words. AreLeft sizes device.now ending.now words.items) }
    ensures fault { IfErr result (λ fault. (fault ≡ OutOfMemory) ⊎ ((fault ≡ Device)
        × (a : ℕ) × (a < ending.now.snapshot.six.tail) × IsLeft sizes device.now ending.now a None)) }
{
    let mut words = Vec::new(alloc);
    for address in 0..ending.snapshot.six.tail {
        let Some(word) = word_left(sizes, ending, device, address) else {
            return Err(Fault::Device);
        };
        if words.push(word).is_err() {
            return Err(Fault::OutOfMemory);
        }
    }
    Ok(words)
}

// A word of the image of a page.
fn word_of(image: &[u8], place: usize) -> Option<u64>
    requires { place < 2 ^ 20 }
    ensures { result ≡ word_in place image.now }
{
    if image.len() < 16 + 8 * place {
        return None;
    }
    Some(BigEndian::read_u64(&image[8 + 8 * place..]))
}
