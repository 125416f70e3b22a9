ghost use Rattle.std.specs.Prelude.{◌≡◌, ℕ, ◌<◌, ◌≤◌, false, [], ◌++◌, IfOk, OnErr, IfErr, List, length, take, slice_index_or, vec_len};
ghost use Rattle.std.specs.List.{list_any};
ghost use Rattle.std.specs.Io.KnownBytes.{Keeps};
ghost use Rattle.hl_script.specs.Interpreter.{is_end};
ghost use Rattle.hl_judge.specs.Judging.{ReadInLine, LineRead, PartRead, IsReadFault};

use crate::parts::LONGEST;
use hl_script::Fault;
use std::io::BufRead;

/// How the read of a line ended.
#[derive(Clone, Copy)]
pub(crate) enum Ending {
    /// At its LF.
    Line,
    /// At the end of the input.
    Input,
    /// At one byte more than a line has at most.
    Cut,
}

/// What was read of a line.
#[derive(Clone, Copy)]
enum Part {
    /// Its beginning, or some bytes more.
    More,
    /// All that was left, with its LF.
    Line,
    /// Nothing: the input has ended.
    Input,
}

/// Reads a line without its LF, and no more of it than a line has and one byte. Returns how the read ended,
/// None if the input has ended.
///
/// Faults: `Stream` if a read failed; `OutOfMemory`.
pub(crate) fn read_line_of<R: BufRead>(
    reader: &mut R,
    bytes: &mut Vec<u8>,
) -> Result<Option<Ending>, Fault>
    requires { bytes.old.items ≡ [] }
    ensures ok { IfOk result (λ ending.
        LineRead (R.remaining reader.old) (R.remaining reader.new) bytes.new.items ending) }
    ensures err { OnErr result
        (ReadInLine (R.remaining reader.old) (R.remaining reader.new) bytes.new.items) }
    ensures faults { IfErr result IsReadFault }
{
    while bytes.len() <= LONGEST {
        match read_part(reader, bytes)? {
            Part::More => {}
            Part::Line => return Ok(Some(Ending::Line)),
            Part::Input => {
                return Ok(if bytes.is_empty() {
                    None
                } else {
                    Some(Ending::Input)
                });
            }
        }
    }
    Ok(Some(Ending::Cut))
}

/// Appends what the reader has at hand of a line, and returns what that was.
///
/// Faults: `Stream` if a read failed; `OutOfMemory`. Nothing was taken from the reader.
fn read_part<R: BufRead>(reader: &mut R, bytes: &mut Vec<u8>) -> Result<Part, Fault>
    requires { vec_len bytes.old ≤ LONGEST }
    ensures ok { IfOk result (λ read. (part : List ℕ) × (bytes.new.items ≡ bytes.old.items ++ part)
        × PartRead (R.remaining reader.old) (R.remaining reader.new) part read) }
    ensures kept { OnErr result (Keeps (R.remaining reader.old) (R.remaining reader.new)) }
    ensures same { OnErr result (bytes.new.items ≡ bytes.old.items) }
    ensures faults { IfErr result IsReadFault }
{
    let Ok(shown) = reader.fill_buf() else {
        return Err(Fault::Stream);
    };
    if shown.is_empty() {
        return Ok(Part::Input);
    }
    let most = shown.len().min(LONGEST + 1 - bytes.len());
    let length = line_length(&shown[..most]);
    if bytes.extend_from_slice(&shown[..length]).is_err() {
        return Err(Fault::OutOfMemory);
    }
    if length < most {
        reader.consume(length + 1);
        Ok(Part::Line)
    } else {
        reader.consume(length);
        Ok(Part::More)
    }
}

/// Returns how many bytes stand before the first LF: all if there is none.
fn line_length(bytes: &[u8]) -> usize
    ensures within { result ≤ length bytes.now }
    ensures no_end { list_any is_end (take result bytes.now) ≡ false }
    ensures end { result < length bytes.now → slice_index_or bytes.now result 0 ≡ 10 }
{
    for at in 0..bytes.len() {
        if bytes[at] == b'\n' {
            return at;
        }
    }
    bytes.len()
}
