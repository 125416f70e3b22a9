ghost use Rattle.std.specs.Prelude.{◌≡◌, ◌+◌, ◌*◌, ◌/◌, ◌%◌, ◌<◌};

use crate::has_sizes::HasSizes;

/// The page of a word's address: pages are numbered from 0, and have P words each.
pub fn page_of<S: HasSizes>(sizes: S, address: u64) -> u64
    ensures { result ≡ address / (S.sizes_of sizes).page_size }
{
    address / sizes.sizes().page_size()
}

/// The place of an address among the F * P words that are kept: page p lies in frame p mod F, in order.
#[inline(always)]
pub fn cell_of<S: HasSizes>(sizes: S, address: u64) -> u64
    ensures value { let size = (S.sizes_of sizes).page_size
        in result ≡ address / size % (S.sizes_of sizes).frames * size + address % size }
    ensures in_range { result < (S.sizes_of sizes).frames * (S.sizes_of sizes).page_size }
{
    let sizes = sizes.sizes();
    // These are the remainder by F * P; if F is a power of two too, the low bits tell it.
    let cells = sizes.frames() * sizes.page_size();
    if cells.is_power_of_two() {
        address & (cells - 1)
    } else {
        address % cells
    }
}
