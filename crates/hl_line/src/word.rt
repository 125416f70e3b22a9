//! The words of a line: where each ends, and the number that it spells.
ghost use Rattle.std.specs.Prelude.{◌≡◌, ◌==◌, position};
ghost use Rattle.hl_line.specs.Reading.{first_word, other_words, with_digit, number_in};

/// The bytes before the first space, and those after it.
pub(crate) fn cut(bytes: &[u8]) -> (&[u8], &[u8])
    ensures front { result.0.now ≡ first_word bytes.now }
    ensures back { result.1.now ≡ other_words bytes.now }
{
    match first_space(bytes) {
        Some(end) => (&bytes[..end], &bytes[end + 1..]),
        None => (bytes, &[]),
    }
}

/// Where the first space stands.
fn first_space(bytes: &[u8]) -> Option<usize>
    ensures { result ≡ position (λ b. b == 32) bytes.now }
{
    bytes.iter().position(|byte| *byte == b' ')
}

/// The number that a word spells, loosely: the comparison with the spelling refuses what is no number.
#[tactic(auto, unfolding(crate::specs::Reading::number_in))]
pub(crate) fn number(word: &[u8]) -> u64
    ensures { result ≡ number_in word.now }
{
    word.iter()
        .fold(0, |number, digit| with_digit(number, *digit))
}

/// A number and one more digit, at most 2^64 - 1.
#[tactic(auto, unfolding(crate::specs::Reading::with_digit))]
fn with_digit(number: u64, digit: u8) -> u64
    ensures { result ≡ with_digit number digit }
{
    number
        .saturating_mul(10)
        .saturating_add(u64::from(digit.saturating_sub(b'0')))
}
