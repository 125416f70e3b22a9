//! A word and numbers, written one after the other.
ghost use Rattle.std.specs.Prelude.{◌≡◌, ◌+◌, ◌<◌, ◌≤◌, ◌++◌, length, decimal};
ghost use Rattle.arrayvec.specs.ArrayString.{array_string_len};
ghost use Rattle.hl_line.specs.Lines.{spaced, worded};

use arrayvec::ArrayString;
use itoa::Buffer;

/// Appends a word and then each number, in decimal, after a space.
#[inline(always)]
#[tactic(auto, unfolding(crate::specs::Lines::worded))]
pub(crate) fn append<const CAP: usize>(text: &mut ArrayString<CAP>, word: &str, numbers: &[u64])
    requires { array_string_len text.old + length (worded word.now numbers.now) ≤ CAP }
    ensures bytes { text.new.bytes ≡ text.old.bytes ++ worded word.now numbers.now }
    ensures len { array_string_len text.new
        ≡ array_string_len text.old + length (worded word.now numbers.now) }
{
    text.push_str(word);
    for number in numbers {
        append_number(text, *number);
    }
}

/// Appends a space and a number in decimal.
#[inline(always)]
fn append_number<const CAP: usize>(text: &mut ArrayString<CAP>, number: u64)
    requires { array_string_len text.old + length (spaced number) ≤ CAP }
    ensures { text.new.bytes ≡ text.old.bytes ++ spaced number }
{
    text.push_str(" ");
    // Most numbers of a script have one digit, and want no buffer.
    if number < 10 {
        text.push_str(digit(number));
    } else {
        text.push_str(Buffer::new().format(number));
    }
}

/// A number of one digit, in decimal.
#[inline(always)]
#[tactic(auto, using(std::proofs::lemmas::Fmt::decimal_digit))]
fn digit(number: u64) -> &'static str
    requires { number < 10 }
    ensures { result.now ≡ decimal number }
{
    match number {
        0 => "0",
        1 => "1",
        2 => "2",
        3 => "3",
        4 => "4",
        5 => "5",
        6 => "6",
        7 => "7",
        8 => "8",
        _ => "9",
    }
}
