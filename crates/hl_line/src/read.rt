ghost use Rattle.std.specs.Prelude.{◌≡◌, IfSome};
ghost use Rattle.hl_line.specs.declared.line.Line.{Line};
ghost use Rattle.hl_line.specs.Lines.{Fits, spelling};
ghost use Rattle.hl_line.specs.Reading.{config_of, line_with, guess_of, line_of};

use crate::line::Line;
use crate::print::write_line;
use crate::steps::step_with;
use crate::word::{cut, number};
use arrayvec::ArrayString;
use hl_model::Params;

/// The line that is spelled so, if there is one: the bytes are read loosely, and the line that comes of it is
/// printed again and compared with them.
pub fn read_line(bytes: &[u8]) -> Option<Line>
    ensures exact { result ≡ line_of bytes.now }
    ensures found { IfSome result (λ l. Fits l × (spelling l ≡ bytes.now)) }
    ensures only { (l : Line) → Fits l → spelling l ≡ bytes.now → result ≡ Some l }
{
    let line = guess(bytes)?;
    let mut text = ArrayString::new();
    write_line(&mut text, &line);
    if text.as_bytes() == bytes {
        Some(line)
    } else {
        None
    }
}

/// What the bytes look like, by their keyword and the words after it.
#[tactic(auto, unfolding(crate::specs::Reading::guess_of))]
fn guess(bytes: &[u8]) -> Option<Line>
    ensures { result ≡ guess_of bytes.now }
{
    let (keyword, rest) = cut(bytes);
    let (first, rest) = cut(rest);
    let (second, rest) = cut(rest);
    let (third, rest) = cut(rest);
    let (fourth, _) = cut(rest);
    line_with(keyword, first, second, third, fourth)
}

/// The line of a keyword with these words after it, if it is one.
#[tactic(auto, unfolding(crate::specs::Reading::line_with))]
fn line_with(
    keyword: &[u8],
    first: &[u8],
    second: &[u8],
    third: &[u8],
    fourth: &[u8],
) -> Option<Line>
    ensures { result ≡ line_with keyword.now first.now second.now third.now fourth.now }
{
    if keyword == b"config".as_slice() {
        config(number(first), number(second), number(third), number(fourth))
    } else if keyword == b"status".as_slice() {
        Some(Line::Status)
    } else if keyword == b"pending".as_slice() {
        Some(Line::Pending)
    } else if keyword == b"frames".as_slice() {
        Some(Line::Frames)
    } else {
        let step = step_with(keyword, first, second, third)?;
        Some(Line::Step(step))
    }
}

/// The line that opens with these sizes, if they are narrow.
fn config(page_size: u64, frames: u64, slots: u64, drain: u64) -> Option<Line>
    ensures { result ≡ config_of
        (record { page_size = page_size; frames = frames; slots = slots; drain = drain }) }
{
    let sizes = Params::checked(page_size, frames, slots, drain)?;
    Some(Line::Config(sizes))
}
