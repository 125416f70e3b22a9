ghost use Rattle.std.specs.Prelude.{ℕ, Bool};
ghost use Rattle.hl_script.specs.Interpreter.{Refuses};
ghost use Rattle.hl_script.specs.Runs.{ScriptRan};

use crate::answers::{print_bad_line, put_line};
use crate::input::Input;
use crate::lines::answer;
use crate::stepping::{Opening, Stepping};
use hl_line::{AnswerLine, Line, put};
use hl_model::Fault;
use std::io::{Read, Write};

/// Answers the lines that a reader gives in so many reads by what their config opens, and writes the answers.
/// They go out before each read, so that who awaits them can go on. It makes no read, write or flush after
/// one that failed. Returns what was opened, and how many steps were accepted: None if there is no line.
///
/// `BadLine`, `OutOfMemory`, `Stream` as for a run of a script.
pub(crate) fn run_script<O: Opening<S> + Drop, S: Stepping + Drop, R: Read, W: Write>(
    opening: O,
    reader: &mut R,
    out: &mut W,
    reads: u64,
) -> Result<Option<(S, u64)>, Fault>
    requires { (has : ℕ → Bool) × O.begins opening has }
    ensures { (has : ℕ → Bool) → O.begins opening has
        → ScriptRan S.stands S.may_lack has reads (R.remaining reader.old) (R.remaining reader.new)
        (W.contents out.old) (W.contents out.new) result }
{
    let mut input = Input::new(reads);
    if !input.has_more(reader, out)? {
        return Ok(None);
    }
    // A row for each line that is found, whatever is in it.
    let mut line = Line::Status;
    if !input.next(reader, out, &mut line)? {
        return Err(refuse(1, out));
    }
    let Line::Config(sizes) = line else {
        return Err(refuse(1, out));
    };
    let Some(mut stepping) = opening.open(sizes) else {
        return Err(Fault::OutOfMemory);
    };
    put_line(out, "opened")?;
    let mut row = AnswerLine::new();
    let (mut lines, mut accepted) = (1, 0);
    while input.has_more(reader, out)? {
        if !input.next(reader, out, &mut line)? {
            return Err(refuse(lines + 1, out));
        }
        let Some(counted) = answer(&mut stepping, &line, &mut row, out)? else {
            return Err(refuse(lines + 1, out));
        };
        lines += 1;
        accepted += u64::from(counted);
    }
    Ok(Some((stepping, accepted)))
}

/// Tells that line n is no step. Returns `BadLine` with this number, or `Stream` if a write failed.
fn refuse<W: Write>(n: u64, out: &mut W) -> Fault
    ensures { Refuses (W.contents out.old) (W.contents out.new) n result }
{
    match put(out, print_bad_line(n).as_str().as_bytes()) {
        Ok(()) => Fault::BadLine { n },
        Err(_) => Fault::Stream,
    }
}
