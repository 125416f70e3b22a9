//! The words of one record.
ghost use Rattle.std.specs.Prelude.{◌≡◌, ◌≢◌, ◌+◌, ◌-◌, ◌*◌, ◌/◌, ◌%◌, ◌<◌, ◌≤◌, ◌^◌, ◌∷◌, ℕ, List, IfOk, IfSome, IfNone, IsTrue, ◌↔◌, [], take, flat_map, length};
ghost use Rattle.example_layout.specs.Image.{eight_bytes};
ghost use Rattle.example_layout.specs.Layout.{ended, packed, row};

use byteorder::{BigEndian, ByteOrder};
use std::alloc::{AllocError, Global};

/// What stands behind a record's bytes, up to the end of a word: the first of these.
const END: [u8; 8] = [1, 0, 0, 0, 0, 0, 0, 0];

/// The words of a live record of these bytes: its header, twice their number; then the bytes, eight to a word, the most
/// significant first; behind them a byte 1, and zeros up to the end of the word.
pub fn words_of(alloc: Global, bytes: &[u8]) -> Result<Vec<u64>, AllocError>
    requires { length bytes.now < 2 ^ 63 }
    ensures { IfOk result (λ words. words.items ≡ row 0 bytes.now) }
{
    let ended = with_end(alloc, bytes)?;
    let mut words = vec![in alloc; 0; bytes.len() / 8 + 2]?;
    fill(2 * bytes.len() as u64, &ended, &mut words);
    Ok(words)
}

// The bytes, and behind them their end.
fn with_end(alloc: Global, bytes: &[u8]) -> Result<Vec<u8>, AllocError>
    ensures { IfOk result (λ all. all.items ≡ ended bytes.now) }
{
    let mut all = Vec::new(alloc);
    all.extend_from_slice(bytes)?;
    all.extend_from_slice(&END[..8 - bytes.len() % 8])?;
    Ok(all)
}

// Puts a header there, and then the words of these bytes.
fn fill(header: u64, bytes: &[u8], words: &mut [u64])
    requires { length bytes.now + 8 ≡ 8 * length words.old }
    ensures { words.new ≡ header ∷ packed (length words.old - 1) bytes.now }
{
    let (first, body) = words.split_at_mut(1);
    first[0] = header;
    BigEndian::read_u64_into(bytes, body);
}

/// The bytes of a record of so many, whose words behind the header are these; `None` if behind the bytes there isn't what ends
/// them.
pub(crate) fn bytes_of(
    alloc: Global,
    count: usize,
    body: &[u64],
) -> Result<Option<Vec<u8>>, AllocError>
    requires { (length body.now ≡ count / 8 + 1) × (count < 2 ^ 63) }
    ensures some { IfOk result (λ read. IfSome read (λ bytes. (length bytes.items ≡ count)
        × (flat_map eight_bytes body.now ≡ ended bytes.items))) }
    ensures none { IfOk result (λ read. IfNone read ((bytes : List ℕ) → length bytes ≡ count
        → flat_map eight_bytes body.now ≢ ended bytes)) }
{
    let mut bytes = vec![in alloc; 0; 8 * body.len()]?;
    BigEndian::write_u64_into(body, &mut bytes);
    if !is_end(&bytes[count..]) {
        return Ok(None);
    }
    bytes.truncate(count);
    Ok(Some(bytes))
}

// Whether these are a byte 1, and zeros behind it.
fn is_end(end: &[u8]) -> bool
    requires { length end.now ≤ 8 }
    ensures { IsTrue result ↔ (end.now ≡ take (length end.now) (1 ∷ 0 ∷ 0 ∷ 0 ∷ 0 ∷ 0 ∷ 0 ∷ 0 ∷ [])) }
{
    end == &END[..end.len()]
}
