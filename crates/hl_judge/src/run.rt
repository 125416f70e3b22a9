ghost use Rattle.std.specs.Prelude.{◌≡◌, ℕ, Bool, Option, List, [], ◌∷◌, length, IfOk, IfErr};
ghost use Rattle.std.specs.Io.KnownBytes.{Consumes};
ghost use Rattle.hl_model.specs.declared.fault.Fault.TheVariants.{OutOfMemory};
ghost use Rattle.hl_line.specs.declared.line.Line.{Line as LINE};
ghost use Rattle.hl_script.specs.Fast.{FastStands};
ghost use Rattle.hl_script.specs.Text.{tags_on};
ghost use Rattle.hl_judge.specs.Judging.{Come, FoundIn, Judges};

use crate::parts::{LONGEST, entry};
use crate::reading::{Ending, read_line_of};
use crate::verdict::{Deviation, Verdict};
use hl_script::{Answering, Epochs, Fault, Line, Shelf, Sum, Task};
use std::alloc::Global;
use std::io::BufRead;

/// The reply to a config.
const OPENED: &[u8] = b"opened";

/// What was found in a line of a trace.
#[derive(Clone, Copy)]
pub(crate) enum Found {
    /// Its reply is the one that the definitions give.
    Agrees,
    /// It isn't.
    Deviates,
    /// It is no line of a trace.
    NoEntry,
}

/// Judges the trace that the reader gives, with the jobs on the shelf, by an engine whose table of epochs is
/// an E. It reads no line behind the first that doesn't agree, and keeps one line at a time. A line is a
/// script's line, ` -> ` and a reply; it is parted at its first ` -> `. A line of more than 8276 bytes is
/// none.
///
/// Faults: `OutOfMemory`; `Stream` if a read failed, or 2^64 - 1 lines gave no end. All lines before agree.
pub fn judge<E: Epochs + Drop, F: Task, R: BufRead>(
    alloc: Global,
    reader: &mut R,
    shelf: Shelf<F, Sum>,
) -> Result<Verdict, Fault>
    ensures { Judges (tags_on shelf) (R.remaining reader.old) (R.remaining reader.new) result }
{
    let (mut bytes, mut answer) = (room(alloc)?, room(alloc)?);
    let Some(ending) = read_line_of(reader, &mut bytes)? else {
        return Ok(Verdict::Agrees { lines: 0 });
    };
    let Some((first, reply)) = entry(bytes.as_slice()) else {
        return Ok(Verdict::NoEntry { line: 1 });
    };
    let Some(answering) = Answering::<E, F>::open(alloc, shelf, &first)? else {
        return Ok(Verdict::NoEntry { line: 1 });
    };
    if reply != OPENED {
        if answer.extend_from_slice(OPENED).is_err() {
            return Err(Fault::OutOfMemory);
        }
        return Ok(Verdict::Deviates(Deviation {
            line: 1,
            given: bytes,
            answer,
        }));
    }
    match ending {
        Ending::Line => judge_lines(answering, reader, bytes, answer),
        Ending::Input => Ok(Verdict::Agrees { lines: 1 }),
        // Of a line that is too long, only the beginning was read.
        Ending::Cut => Ok(Verdict::NoEntry { line: 1 }),
    }
}

/// Judges the lines of a trace behind its first, in these two rows for a line and an answer.
fn judge_lines<E: Epochs + Drop, F: Task, R: BufRead>(
    answering: Answering<E, F>,
    reader: &mut R,
    bytes: Vec<u8>,
    answer: Vec<u8>,
) -> Result<Verdict, Fault>
    requires { (has : ℕ → Bool) × (given : Option (List ℕ)) × (done : List ℕ) × (first : LINE)
        × Consumes given (R.remaining reader.old) done × Come has done (first ∷ [])
        × FastStands answering.fast.shelf answering.fast.engine has (first ∷ []) }
    ensures { (has : ℕ → Bool) (given : Option (List ℕ)) (done : List ℕ) (first : LINE)
        → Consumes given (R.remaining reader.old) done → Come has done (first ∷ [])
        → FastStands answering.fast.shelf answering.fast.engine has (first ∷ [])
        → Judges has given (R.remaining reader.new) result }
{
    let (mut answering, mut bytes, mut answer) = (answering, bytes, answer);
    for lines in 1..u64::MAX {
        bytes.clear();
        let Some(ending) = read_line_of(reader, &mut bytes)? else {
            return Ok(Verdict::Agrees { lines });
        };
        let line = lines + 1;
        match judge_line(&mut answering, bytes.as_slice(), &mut answer)? {
            Found::Agrees => match ending {
                Ending::Line => {}
                Ending::Input => return Ok(Verdict::Agrees { lines: line }),
                Ending::Cut => return Ok(Verdict::NoEntry { line }),
            },
            Found::Deviates => {
                return Ok(Verdict::Deviates(Deviation {
                    line,
                    given: bytes,
                    answer,
                }));
            }
            Found::NoEntry => return Ok(Verdict::NoEntry { line }),
        }
    }
    Err(Fault::Stream)
}

/// Returns room for a line of a trace, and one byte more.
fn room(alloc: Global) -> Result<Vec<u8>, Fault>
    ensures made { IfOk result (λ made. made.items ≡ []) }
    ensures refused { IfErr result (λ fault. fault ≡ OutOfMemory) }
{
    Vec::with_capacity(alloc, LONGEST + 1).map_err(|_| Fault::OutOfMemory)
}

/// Judges a line of a trace behind the first, and returns what was found. If its reply deviates, the answer
/// is the one that the definitions give.
///
/// Fault: `OutOfMemory`.
fn judge_line<E: Epochs + Drop, F: Task>(
    answering: &mut Answering<E, F>,
    bytes: &[u8],
    answer: &mut Vec<u8>,
) -> Result<Found, Fault>
    requires { (has : ℕ → Bool) × (before : List LINE)
        × FastStands answering.old.fast.shelf answering.old.fast.engine has before }
    ensures found { IfOk result (λ found. (has : ℕ → Bool) (before : List LINE)
        → FastStands answering.old.fast.shelf answering.old.fast.engine has before
        → FoundIn (FastStands answering.new.fast.shelf answering.new.fast.engine) has before bytes.now
        answer.new.items found) }
    ensures refused { IfErr result (λ fault. fault ≡ OutOfMemory) }
{
    let Some((line, reply)) = entry(bytes) else {
        return Ok(Found::NoEntry);
    };
    answer.clear();
    match answering.answer(&line, answer) {
        Ok(Some(_)) => {}
        Ok(None) => return Ok(Found::NoEntry),
        // A write into memory fails only if memory is refused.
        Err(_) => return Err(Fault::OutOfMemory),
    }
    // The LF.
    answer.pop();
    if reply == answer.as_slice() {
        Ok(Found::Agrees)
    } else {
        Ok(Found::Deviates)
    }
}
