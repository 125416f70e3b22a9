ghost use Rattle.std.specs.Prelude.{◌≡◌, ◌+◌, ◌*◌, length};
ghost use Rattle.hl_image.specs.Image.{image};

use byteorder::{BigEndian, ByteOrder};

/// Fills `out` with the image of a page: its number, then its words, each as 8 bytes, most significant byte
/// first. `out` has 8 bytes, and 8 more for each word.
pub fn image_of(page: u64, words: &[u64], out: &mut [u8])
    requires { length out.old ≡ 8 + 8 * length words.now }
    ensures { out.new ≡ image page words.now }
{
    let (number, rest) = out.split_at_mut(8);
    BigEndian::write_u64(number, page);
    BigEndian::write_u64_into(words, rest);
}
