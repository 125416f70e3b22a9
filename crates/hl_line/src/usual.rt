//! The lines that scripts have most of, read in one pass from the front of what is to be read.
ghost use Rattle.std.specs.Prelude.{ℕ, List, Some, codes, [], ◌≡◌, ◌+◌, ◌<◌, ◌≤◌, ◌^◌, ◌++◌, ◌∷◌, length, take, slice_index_or, decimal, IfSome, IfNone};
ghost use Rattle.hl_line.specs.declared.line.Line.{Line as LINE};
ghost use Rattle.hl_line.specs.Lines.{Fits, spelling};
ghost use Rattle.hl_line.specs.Usual.{IsUsual, IsNoDigit, NoDigitFirst, LacksNumber, LacksTwo, LacksThree, LacksWord, LacksFlush, Behind, StandsFirst, LacksStep};

use crate::line::Line;
use hl_model::Step;

/// Reads the line at the front of these bytes, if it is a usual one: an `alloc`, `write`, `read`, `refresh`, `look`,
/// `take`, `done`, `flush take`, `flush done` that is `ok`, `clean take` or `clean done` whose numbers are below 10^18.
/// The answer is how many bytes it has with its LF.
///
/// Such a line is always found where there are at least 7 bytes: only a `take` has fewer with its LF, and it is found if
/// enough of what follows is there too. Any other line may give None: this is for speed alone, and
/// [`read_line`](crate::read_line) reads any line.
///
/// What is found goes into the caller's `line`, which stays as it was where nothing is: with the line in the answer, each
/// way out without one would have to clear it.
#[inline(never)]
pub fn read_front(bytes: &[u8], line: &mut Line) -> Option<usize>
    ensures most { IfSome result (λ n. (0 < n) × (n ≤ length bytes.now)) }
    ensures line { IfSome result (λ n. Fits line.new × (spelling line.new ++ 10 ∷ [] ≡ take n bytes.now)) }
    ensures stays { IfNone result (line.new ≡ line.old) }
    ensures usual { (l : LINE) (rest : List ℕ) → IsUsual l → bytes.now ≡ spelling l ++ (10 ∷ rest)
        → 7 ≤ length bytes.now → result ≡ Some (length (spelling l) + 1) }
{
    let (step, rest) = usual_step(bytes)?;
    *line = Line::Step(step);
    Some(bytes.len() - rest.len())
}

// The step whose line stands at the front.
#[inline(always)]
fn usual_step(bytes: &[u8]) -> Option<(Step, &[u8])>
    ensures some { IfSome result (λ found. StandsFirst found.0 found.1.now bytes.now) }
    ensures none { IfNone result (7 ≤ length bytes.now → LacksStep bytes.now) }
{
    if bytes.len() < 7 {
        return None;
    }
    match (bytes[0], bytes[2], bytes[6]) {
        (b'a', b'l', _) => allocate(bytes),
        (b'w', b'i', _) => write(bytes),
        (b'r', b'a', _) => read(bytes),
        (b'r', b'f', _) => refresh(bytes),
        (b'l', b'o', _) => look(bytes),
        (b't', b'k', _) => take(bytes),
        (b'd', b'n', _) => done(bytes),
        (b'f', b'u', b't') => flush_take(bytes),
        (b'f', b'u', b'd') => flush_done(bytes),
        (b'c', b'e', b't') => clean_take(bytes),
        (b'c', b'e', b'd') => clean_done(bytes),
        _ => None,
    }
}

#[tactic(auto, unfolding(crate::specs::Lines::worded))]
#[inline(always)]
fn allocate(bytes: &[u8]) -> Option<(Step, &[u8])>
    ensures some { IfSome result (λ found. StandsFirst found.0 found.1.now bytes.now) }
    ensures none { IfNone result (Behind (codes "alloc ") LacksTwo bytes.now) }
{
    let [b'a', b'l', b'l', b'o', b'c', b' ', words @ ..] = bytes else {
        return None;
    };
    let (t, words) = number_before(words)?;
    let (n, rest) = last_number(words)?;
    Some((Step::Allocate { t, n }, rest))
}

#[inline(always)]
fn write(bytes: &[u8]) -> Option<(Step, &[u8])>
    ensures some { IfSome result (λ found. StandsFirst found.0 found.1.now bytes.now) }
    ensures none { IfNone result (Behind (codes "write ") LacksThree bytes.now) }
{
    let words = behind_write(bytes)?;
    let (t, a, v, rest) = three_numbers(words)?;
    Some((Step::Write { t, a, v }, rest))
}

#[tactic(auto, unfolding(crate::specs::Lines::worded))]
#[inline(always)]
fn read(bytes: &[u8]) -> Option<(Step, &[u8])>
    ensures some { IfSome result (λ found. StandsFirst found.0 found.1.now bytes.now) }
    ensures none { IfNone result (Behind (codes "read ") LacksTwo bytes.now) }
{
    let [b'r', b'e', b'a', b'd', b' ', words @ ..] = bytes else {
        return None;
    };
    let (t, words) = number_before(words)?;
    let (a, rest) = last_number(words)?;
    Some((Step::Read { t, a }, rest))
}

#[tactic(auto, unfolding(crate::specs::Lines::worded))]
#[inline(always)]
fn refresh(bytes: &[u8]) -> Option<(Step, &[u8])>
    ensures some { IfSome result (λ found. StandsFirst found.0 found.1.now bytes.now) }
    ensures none { IfNone result (Behind (codes "refresh ") (LacksNumber 10) bytes.now) }
{
    let [b'r', b'e', b'f', b'r', b'e', b's', b'h', b' ', words @ ..] = bytes else {
        return None;
    };
    let (t, rest) = last_number(words)?;
    Some((Step::Refresh { t }, rest))
}

#[tactic(auto, unfolding(crate::specs::Lines::worded), using(crate::proofs::Fronts::three_in_line))]
#[inline(always)]
fn look(bytes: &[u8]) -> Option<(Step, &[u8])>
    ensures some { IfSome result (λ found. StandsFirst found.0 found.1.now bytes.now) }
    ensures none { IfNone result (Behind (codes "look ") LacksThree bytes.now) }
{
    let [b'l', b'o', b'o', b'k', b' ', words @ ..] = bytes else {
        return None;
    };
    let (t, read_only, head, rest) = three_numbers(words)?;
    Some((Step::Look { t, read_only, head }, rest))
}

#[tactic(auto, unfolding(crate::specs::Lines::worded))]
#[inline(always)]
fn done(bytes: &[u8]) -> Option<(Step, &[u8])>
    ensures some { IfSome result (λ found. StandsFirst found.0 found.1.now bytes.now) }
    ensures none { IfNone result (Behind (codes "done ") (LacksNumber 10) bytes.now) }
{
    let [b'd', b'o', b'n', b'e', b' ', words @ ..] = bytes else {
        return None;
    };
    let (ticket, rest) = last_number(words)?;
    Some((Step::Done { ticket }, rest))
}

#[tactic(auto, unfolding(crate::specs::Lines::worded))]
#[inline(always)]
fn clean_done(bytes: &[u8]) -> Option<(Step, &[u8])>
    ensures some { IfSome result (λ found. StandsFirst found.0 found.1.now bytes.now) }
    ensures none { IfNone result (Behind (codes "clean done ") (LacksNumber 10) bytes.now) }
{
    let [
        b'c',
        b'l',
        b'e',
        b'a',
        b'n',
        b' ',
        b'd',
        b'o',
        b'n',
        b'e',
        b' ',
        words @ ..,
    ] = bytes
    else {
        return None;
    };
    let (page, rest) = last_number(words)?;
    Some((Step::CleanDone { page }, rest))
}

#[tactic(auto, unfolding(crate::specs::Lines::worded))]
#[inline(always)]
fn take(bytes: &[u8]) -> Option<(Step, &[u8])>
    ensures some { IfSome result (λ found. StandsFirst found.0 found.1.now bytes.now) }
    ensures none { IfNone result (LacksWord (codes "take\n") bytes.now) }
{
    match bytes {
        [b't', b'a', b'k', b'e', b'\n', rest @ ..] => Some((Step::Take, rest)),
        _ => None,
    }
}

#[tactic(auto, unfolding(crate::specs::Lines::worded))]
#[inline(always)]
fn flush_take(bytes: &[u8]) -> Option<(Step, &[u8])>
    ensures some { IfSome result (λ found. StandsFirst found.0 found.1.now bytes.now) }
    ensures none { IfNone result (LacksWord (codes "flush take\n") bytes.now) }
{
    match bytes {
        [
            b'f',
            b'l',
            b'u',
            b's',
            b'h',
            b' ',
            b't',
            b'a',
            b'k',
            b'e',
            b'\n',
            rest @ ..,
        ] => Some((Step::FlushTake, rest)),
        _ => None,
    }
}

#[tactic(auto, unfolding(crate::specs::Lines::worded))]
#[inline(always)]
fn clean_take(bytes: &[u8]) -> Option<(Step, &[u8])>
    ensures some { IfSome result (λ found. StandsFirst found.0 found.1.now bytes.now) }
    ensures none { IfNone result (LacksWord (codes "clean take\n") bytes.now) }
{
    match bytes {
        [
            b'c',
            b'l',
            b'e',
            b'a',
            b'n',
            b' ',
            b't',
            b'a',
            b'k',
            b'e',
            b'\n',
            rest @ ..,
        ] => Some((Step::CleanTake, rest)),
        _ => None,
    }
}

#[inline(always)]
fn flush_done(bytes: &[u8]) -> Option<(Step, &[u8])>
    ensures some { IfSome result (λ found. StandsFirst found.0 found.1.now bytes.now) }
    ensures none { IfNone result (Behind (codes "flush done ") LacksFlush bytes.now) }
{
    let words = behind_flush_done(bytes)?;
    let (page, words) = number_before(words)?;
    let rest = well(words)?;
    Some((Step::FlushDone { page, ok: true }, rest))
}

// What stands behind `write `.
#[inline(always)]
fn behind_write(bytes: &[u8]) -> Option<&[u8]>
    ensures some { IfSome result (λ words. codes "write " ++ words.now ≡ bytes.now) }
    ensures none { IfNone result (LacksWord (codes "write ") bytes.now) }
{
    match bytes {
        [b'w', b'r', b'i', b't', b'e', b' ', words @ ..] => Some(words),
        _ => None,
    }
}

// What stands behind `flush done `.
#[inline(always)]
fn behind_flush_done(bytes: &[u8]) -> Option<&[u8]>
    ensures some { IfSome result (λ words. codes "flush done " ++ words.now ≡ bytes.now) }
    ensures none { IfNone result (LacksWord (codes "flush done ") bytes.now) }
{
    match bytes {
        [
            b'f',
            b'l',
            b'u',
            b's',
            b'h',
            b' ',
            b'd',
            b'o',
            b'n',
            b'e',
            b' ',
            words @ ..,
        ] => Some(words),
        _ => None,
    }
}

// That a flush went well, up to an LF, and what stands behind that.
#[inline(always)]
fn well(bytes: &[u8]) -> Option<&[u8]>
    ensures some { IfSome result (λ rest. codes "ok\n" ++ rest.now ≡ bytes.now) }
    ensures none { IfNone result (LacksWord (codes "ok\n") bytes.now) }
{
    match bytes {
        [b'o', b'k', b'\n', rest @ ..] => Some(rest),
        _ => None,
    }
}

// Three numbers in decimal with spaces between them, up to an LF, and what stands behind that.
#[inline(always)]
fn three_numbers(bytes: &[u8]) -> Option<(u64, u64, u64, &[u8])>
    ensures fit { IfSome result (λ found. (found.0 < 2 ^ 64) × (found.1 < 2 ^ 64) × (found.2 < 2 ^ 64)) }
    ensures bytes { IfSome result (λ found.
        decimal found.0 ++ (32 ∷ (decimal found.1 ++ (32 ∷ (decimal found.2 ++ (10 ∷ found.3.now)))))
        ≡ bytes.now) }
    ensures none { IfNone result (LacksThree bytes.now) }
{
    let (first, words) = number_before(bytes)?;
    let (second, words) = number_before(words)?;
    let (third, rest) = last_number(words)?;
    Some((first, second, third, rest))
}

// A number in decimal up to a space, and what stands behind that.
#[inline(always)]
fn number_before(bytes: &[u8]) -> Option<(u64, &[u8])>
    ensures some { IfSome result (λ found. (found.0 < 2 ^ 64)
        × (decimal found.0 ++ (32 ∷ found.1.now) ≡ bytes.now)) }
    ensures none { IfNone result (LacksNumber 32 bytes.now) }
{
    let (number, rest) = number(bytes)?;
    match rest {
        [b' ', words @ ..] => Some((number, words)),
        _ => None,
    }
}

// A number in decimal up to an LF, and what stands behind that.
#[inline(always)]
fn last_number(bytes: &[u8]) -> Option<(u64, &[u8])>
    ensures some { IfSome result (λ found. (found.0 < 2 ^ 64)
        × (decimal found.0 ++ (10 ∷ found.1.now) ≡ bytes.now)) }
    ensures none { IfNone result (LacksNumber 10 bytes.now) }
{
    let (number, rest) = number(bytes)?;
    match rest {
        [b'\n', others @ ..] => Some((number, others)),
        _ => None,
    }
}

// A number in decimal at the front, and what stands behind it. Of a number of more than 18 digits it may be only the
// first ones.
#[inline(always)]
fn number(bytes: &[u8]) -> Option<(u64, &[u8])>
    ensures some { IfSome result (λ found. (found.0 < 2 ^ 64)
        × (decimal found.0 ++ found.1.now ≡ bytes.now)) }
    ensures stop { IfSome result (λ found. 0 < found.0 → found.0 < 2 ^ 59 → NoDigitFirst found.1.now) }
    ensures none { IfNone result (NoDigitFirst bytes.now) }
{
    if bytes.is_empty() {
        return None;
    }
    let first = digit(bytes[0])?;
    let (number, count) = numeral(first, bytes);
    Some((number, &bytes[count..]))
}

// The number at the front, of which this is the first digit, and how many it has.
#[inline(always)]
fn numeral(first: u64, bytes: &[u8]) -> (u64, usize)
    requires first { first < 10 }
    requires some { 0 < length bytes.now }
    requires here { slice_index_or bytes.now 0 0 ≡ 48 + first }
    ensures fits { result.0 < 2 ^ 64 }
    ensures count { result.1 ≤ length bytes.now }
    ensures value { decimal result.0 ≡ take result.1 bytes.now }
    ensures stop { 0 < result.0 → result.0 < 2 ^ 59 → result.1 < length bytes.now
        → IsNoDigit (slice_index_or bytes.now result.1 0) }
{
    // No number of more digits begins with 0.
    if first == 0 {
        return (0, 1);
    }
    digits(first, bytes)
}

// The same where the first digit isn't 0. It has no way out but its
// end, so that a turn of its loop is short.
#[inline(always)]
fn digits(first: u64, bytes: &[u8]) -> (u64, usize)
    requires first { (0 < first) × (first < 10) }
    requires some { 0 < length bytes.now }
    requires here { slice_index_or bytes.now 0 0 ≡ 48 + first }
    ensures fits { result.0 < 2 ^ 64 }
    ensures count { result.1 ≤ length bytes.now }
    ensures value { decimal result.0 ≡ take result.1 bytes.now }
    ensures stop { result.0 < 2 ^ 59 → result.1 < length bytes.now
        → IsNoDigit (slice_index_or bytes.now result.1 0) }
{
    let mut number = first;
    let mut count = 1;
    while count < bytes.len() && number < 1 << 59 {
        let Some(low) = digit(bytes[count]) else {
            break;
        };
        number = number * 10 + low;
        count += 1;
    }
    (number, count)
}

// What a byte is as a digit.
#[inline(always)]
fn digit(byte: u8) -> Option<u64>
    ensures some { IfSome result (λ digit. (digit < 10) × (byte ≡ 48 + digit)) }
    ensures none { IfNone result (IsNoDigit byte) }
{
    match byte {
        b'0'..=b'9' => Some(u64::from(byte - b'0')),
        _ => None,
    }
}
