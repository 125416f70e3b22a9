ghost use Rattle.std.specs.Prelude.{◌≡◌, IfSome};
ghost use Rattle.hl_line.specs.Lines.{Fits, spelling};
ghost use Rattle.hl_line.specs.Reading.{line_of};

use arrayvec::ArrayVec;
use hl_line::{Line, read_front};

/// Returns the line of a script that these bytes spell, if there is one.
pub(crate) fn read(bytes: &[u8]) -> Option<Line>
    ensures exact { result ≡ line_of bytes.now }
    ensures fits { IfSome result Fits }
{
    match usual(bytes) {
        Some(line) => Some(line),
        None => hl_line::read_line(bytes),
    }
}

/// The same for a line of which scripts have most, read in one pass with an LF behind it. None of any other.
fn usual(bytes: &[u8]) -> Option<Line>
    ensures { IfSome result (λ line. Fits line × (spelling line ≡ bytes.now)) }
{
    // A script's line has at most 80 bytes.
    let mut text: ArrayVec<u8, 81> = ArrayVec::new();
    let Ok(()) = text.try_extend_from_slice(bytes) else {
        return None;
    };
    if text.is_full() {
        return None;
    }
    text.push(b'\n');
    let mut line = Line::Status;
    let length = read_front(text.as_slice(), &mut line)?;
    if length == text.len() {
        Some(line)
    } else {
        None
    }
}
