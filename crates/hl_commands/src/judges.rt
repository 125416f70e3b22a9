ghost use Rattle.std.specs.Prelude.{◌≡◌, ℕ, ◌<◌, ◌≤◌, Bool, Option, List, Ok, IfOk, IfErr, OnOk};
ghost use Rattle.std.specs.Io.KnownBytes.{Appends};
ghost use Rattle.hl_model.specs.declared.fault.Fault.{Fault};
ghost use Rattle.hl_judge.specs.Judging.{Judges, IsReadFault};
ghost use Rattle.hl_script.specs.Text.{tags_on};
ghost use Rattle.hl_commands.specs.Commands.{AreTheTags, EndsJudging, JudgedAs};
ghost use Rattle.hl_commands.specs.Jobs.{MakesSums};
ghost use Rattle.hl_commands.specs.Judged.{verdict_text, judged_status};

use crate::jobs::{adds_ticket, all_jobs};
use crate::status::{DONE, FAILED, REFUSED, failed};
use hl_action::{Shelf, Task};
use hl_counts::CountTable;
use hl_judge::{Verdict, judge as judge_trace};
use hl_line::put;
use hl_model::Fault;
use hl_script::Sum;
use itoa::Buffer;
use std::alloc::Global;
use std::io::{BufReader, Read, Write};

/// How many bytes of a trace are read at once.
const CHUNK: usize = 1 << 16;

/// Judges the trace that the reader gives, and writes what it shows. Returns the exit status: `DONE` if all
/// lines agree, `REFUSED` if one is no line of a trace, `FAILED` if one deviates, and at a fault.
pub fn judge<R: Read, W: Write, E: Write>(
    alloc: Global,
    reader: &mut R,
    writer: &mut W,
    errors: &mut E,
) -> u8
    ensures status { result ≤ 2 }
    ensures judged { JudgedAs (R.remaining reader.old) (W.contents writer.old) (W.contents writer.new) result }
{
    let ended = judge_and_tell(alloc, reader, writer, adds_ticket!());
    status_of(ended, errors)
}

/// Returns the status of a judge that ended so.
fn status_of<E: Write>(ended: Result<Verdict, Fault>, errors: &mut E) -> u8
    ensures { result ≡ judged_status ended }
{
    match ended {
        Ok(Verdict::Agrees { .. }) => DONE,
        Ok(Verdict::Deviates(_)) => FAILED,
        Ok(Verdict::NoEntry { .. }) => REFUSED,
        Err(fault) => failed(fault, errors),
    }
}

/// Judges the trace, with the jobs that `make` makes, and writes what it shows.
fn judge_and_tell<F: Task, M: Fn(u64) -> F, R: Read, W: Write>(
    alloc: Global,
    reader: &mut R,
    writer: &mut W,
    make: M,
) -> Result<Verdict, Fault>
    requires callable { (tag : ℕ) → tag < 1000 → M.pre make tag }
    requires made { MakesSums F.can F.gives (λ tag job. M.post make tag job) }
    ensures { (has : ℕ → Bool) × AreTheTags has
        × EndsJudging has (R.remaining reader.old) (W.contents writer.old) (W.contents writer.new) result }
{
    let shelf = all_jobs(alloc, make)?;
    let verdict = judge_all(alloc, reader, shelf)?;
    tell(&verdict, writer)?;
    Ok(verdict)
}

/// Judges the trace that the reader gives, with the jobs on the shelf.
fn judge_all<F: Task, R: Read>(
    alloc: Global,
    reader: &mut R,
    shelf: Shelf<F, Sum>,
) -> Result<Verdict, Fault>
    ensures judges { IfOk result (λ verdict. (left : Option (List ℕ))
        × Judges (tags_on shelf) (R.remaining reader.old) left (Ok verdict)) }
    ensures faults { IfErr result IsReadFault }
{
    let Ok(mut trace) = BufReader::with_capacity(alloc, CHUNK, reader) else {
        return Err(Fault::OutOfMemory);
    };
    judge_trace::<CountTable, F, _>(alloc, &mut trace, shelf)
}

/// Writes what a trace shows, so that it goes out.
///
/// Fault: `Stream` if a write failed.
fn tell<W: Write>(verdict: &Verdict, writer: &mut W) -> Result<(), Fault>
    ensures text { OnOk result
        (Appends (W.contents writer.old) (W.contents writer.new) (verdict_text verdict.now)) }
    ensures err { IfErr result (λ fault. fault ≡ Fault.Stream) }
{
    write_verdict(verdict, writer)?;
    writer.flush().map_err(|_| Fault::Stream)
}

/// Writes what a trace shows.
///
/// Fault: `Stream` if a write failed.
fn write_verdict<W: Write>(verdict: &Verdict, writer: &mut W) -> Result<(), Fault>
    ensures text { OnOk result
        (Appends (W.contents writer.old) (W.contents writer.new) (verdict_text verdict.now)) }
    ensures err { IfErr result (λ fault. fault ≡ Fault.Stream) }
{
    match verdict {
        Verdict::Agrees { lines } => {
            put(writer, Buffer::new().format(*lines).as_bytes())?;
            put(writer, b" lines agree\n")
        }
        Verdict::Deviates(deviation) => {
            put(writer, b"line ")?;
            put(writer, Buffer::new().format(deviation.line).as_bytes())?;
            put(writer, b" deviates: ")?;
            put(writer, deviation.given.as_slice())?;
            put(writer, b"\nthe definitions answer: ")?;
            put(writer, deviation.answer.as_slice())?;
            put(writer, b"\n")
        }
        Verdict::NoEntry { line } => {
            put(writer, b"line ")?;
            put(writer, Buffer::new().format(*line).as_bytes())?;
            put(writer, b": no line of a trace\n")
        }
    }
}
