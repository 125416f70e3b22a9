ghost use Rattle.std.specs.Prelude.{◌≡◌, ◌<◌, ℕ, if◌then◌else◌, Some, None, option_map, option_and_then, IfSome, List, length};
ghost use Rattle.hl_line.specs.declared.line.Line.{Line as LINE};
ghost use Rattle.hl_line.specs.Lines.{Fits};
ghost use Rattle.hl_script.specs.Lines.{may_stand};
ghost use Rattle.hl_judge.specs.Traces.{begins_reply, line_part, reply_part, entry_of};

use crate::line;
use hl_script::Line;

/// What stands between a script's line and its reply.
const ARROW: &[u8] = b" -> ";

/// How many bytes a line of a trace has at most.
pub(crate) const LONGEST: usize = 8276;

/// Returns whether some bytes begin with ` -> `. Most don't begin with a space.
#[inline(always)]
fn begins_reply(bytes: &[u8]) -> bool
    requires { 0 < length bytes.now }
    ensures { result ≡ begins_reply bytes.now }
{
    bytes[0] == ARROW[0] && bytes.starts_with(ARROW)
}

/// Returns the bytes before the first ` -> `, and those behind it. None if there is none.
fn parted(bytes: &[u8]) -> Option<(&[u8], &[u8])>
    ensures front { IfSome result (λ parts. parts.0.now ≡ line_part bytes.now) }
    ensures back { option_map (λ parts. parts.1.now) result ≡ reply_part bytes.now }
{
    for at in 0..bytes.len() {
        if begins_reply(&bytes[at..]) {
            return Some((&bytes[..at], &bytes[at + ARROW.len()..]));
        }
    }
    None
}

/// Returns the script's line and the reply of a trace's line. None if it is no line of a trace wherever it
/// stands: it is too long, has no ` -> `, or begins with no line of a script.
pub(crate) fn entry(bytes: &[u8]) -> Option<(Line, &[u8])>
    ensures exact { (before : List LINE) → entry_of before bytes.now ≡ option_and_then
        (λ e. if may_stand before e.0 then Some (record { line = e.0; reply = e.1.now }) else None) result }
    ensures fits { IfSome result (λ e. Fits e.0) }
{
    if bytes.len() > LONGEST {
        return None;
    }
    let (text, reply) = parted(bytes)?;
    let line = line::read(text)?;
    Some((line, reply))
}
