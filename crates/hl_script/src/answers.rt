ghost use Rattle.std.specs.Prelude.{◌≡◌, ◌+◌, ◌≤◌, ◌++◌, ◌∷◌, [], length, Some, OnOk, OnErr, IfErr};
ghost use Rattle.std.specs.Io.KnownBytes.{Appends};
ghost use Rattle.arrayvec.specs.ArrayString.{array_string_len};
ghost use Rattle.hl_line.specs.Streams.{BreaksOff};
ghost use Rattle.hl_script.specs.Answers.{named, quantities_text, waiting_text, pending_text, frame_text, result_text};
ghost use Rattle.hl_script.specs.Text.{bad_text};

use arrayvec::ArrayString;
use hl_line::{AnswerLine, put};
use hl_model::{Fault, FrameState, Kind, Reply, Snapshot, Waiting};
use itoa::Buffer;
use std::io::Write;

/// Writes a text and an LF.
///
/// Fault: `Stream` if a write failed or took no byte. A beginning of the line was then written, and not all
/// of it.
pub(crate) fn put_line<W: Write>(out: &mut W, text: &str) -> Result<(), Fault>
    ensures ok { OnOk result (Appends (W.contents out.old) (W.contents out.new) (text.now ++ 10 ∷ [])) }
    ensures err { IfErr result (λ fault. fault ≡ Fault.Stream) }
    ensures left { OnErr result (BreaksOff (W.contents out.old) (W.contents out.new) (text.now ++ 10 ∷ [])) }
{
    put(out, text.as_bytes())?;
    put(out, b"\n")
}

/// Appends a space, a name, a space and a number.
#[tactic(auto, unfolding(crate::specs::Answers::named))]
pub(crate) fn add_named(text: &mut ArrayString<320>, name: &str, number: u64)
    requires { array_string_len text.old + length name.now + 22 ≤ 320 }
    ensures bytes { text.new.bytes ≡ text.old.bytes ++ named name.now number }
    ensures short { array_string_len text.new ≤ array_string_len text.old + length name.now + 22 }
{
    text.push_str(" ");
    text.push_str(name);
    text.push_str(" ");
    text.push_str(Buffer::new().format(number));
}

/// Returns the quantities by their names.
#[tactic(auto, unfolding(crate::specs::Answers::quantities_text))]
pub(crate) fn print_quantities(snapshot: &Snapshot) -> ArrayString<320>
    ensures { let now = snapshot.now
        in result.bytes ≡ quantities_text now.epoch now.safe now.pending now.taken now.six }
{
    let mut text = ArrayString::new();
    text.push_str("status");
    add_named(&mut text, "epoch", snapshot.epoch);
    add_named(&mut text, "safe", snapshot.safe);
    add_named(&mut text, "pending", snapshot.pending);
    add_named(&mut text, "taken", snapshot.taken);
    add_named(&mut text, "closed", snapshot.six.closed);
    add_named(&mut text, "head", snapshot.six.head);
    add_named(&mut text, "flushed", snapshot.six.flushed);
    add_named(&mut text, "safe_read_only", snapshot.six.safe_read_only);
    add_named(&mut text, "read_only", snapshot.six.read_only);
    add_named(&mut text, "tail", snapshot.six.tail);
    text
}

/// Returns what a script's text ends with if its line n, counted from 1, is no step. The LF is among the
/// bytes.
pub fn print_bad_line(n: u64) -> ArrayString<64>
    ensures { result.bytes ≡ bad_text (Some n) }
{
    let mut text = ArrayString::new();
    text.push_str("line ");
    text.push_str(Buffer::new().format(n));
    text.push_str(": not a step\n");
    text
}

/// Writes an answer to a step, or the fault, with an LF. The line is made anew, whatever it was: one of its
/// own for each answer would be cleared for each.
///
/// Fault: `Stream` as for a text.
pub(crate) fn put_result<W: Write>(
    out: &mut W,
    line: &mut AnswerLine,
    given: &Result<Reply, Fault>,
) -> Result<(), Fault>
    ensures ok { OnOk result (Appends (W.contents out.old) (W.contents out.new)
        (result_text given.now ++ 10 ∷ [])) }
    ensures err { IfErr result (λ fault. fault ≡ Fault.Stream) }
    ensures left { OnErr result (BreaksOff (W.contents out.old) (W.contents out.new)
        (result_text given.now ++ 10 ∷ [])) }
{
    match given {
        Ok(reply) => line.set_reply(reply),
        Err(fault) => line.set_fault(fault),
    }
    put(out, line.as_bytes())
}

/// Appends a space, an action's ticket, and what it does.
#[tactic(auto, unfolding(crate::specs::Answers::waiting_text))]
fn add_waiting(text: &mut ArrayString<4096>, waiting: &Waiting)
    requires { array_string_len text.old + 50 ≤ 4096 }
    ensures bytes { text.new.bytes ≡ text.old.bytes ++ waiting_text waiting.now }
    ensures short { array_string_len text.new ≤ array_string_len text.old + 50 }
{
    text.push_str(" ");
    text.push_str(Buffer::new().format(waiting.ticket));
    let (kind, number) = match waiting.kind {
        Kind::User(tag) => (":user:", tag),
        Kind::Settle(address) => (":settle:", address),
        Kind::Close(address) => (":close:", address),
    };
    text.push_str(kind);
    text.push_str(Buffer::new().format(number));
}

/// Returns the word `pending` and these actions, at most 64.
pub(crate) fn print_pending(waiting: &[Waiting]) -> ArrayString<4096>
    requires { length waiting.now ≤ 64 }
    ensures { result.bytes ≡ pending_text waiting.now }
{
    let mut text = ArrayString::new();
    text.push_str("pending");
    for action in waiting {
        add_waiting(&mut text, action);
    }
    text
}

/// Appends a space, what a frame is at, and its page.
#[tactic(auto, unfolding(crate::specs::Answers::frame_text))]
pub(crate) fn add_frame(text: &mut ArrayString<8192>, state: FrameState, page: Option<u64>)
    requires { array_string_len text.old + 29 ≤ 8192 }
    ensures bytes { text.new.bytes ≡ text.old.bytes ++ frame_text (state, page) }
    ensures short { array_string_len text.new ≤ array_string_len text.old + 29 }
{
    let state = match state {
        FrameState::Opened => " open",
        FrameState::Sealed => " sealed",
        FrameState::Flushed => " flushed",
        FrameState::Closed => " closed",
        FrameState::Free => " free",
    };
    text.push_str(state);
    if let Some(page) = page {
        text.push_str(":");
        text.push_str(Buffer::new().format(page));
    }
}
