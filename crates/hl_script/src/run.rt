ghost use Rattle.std.specs.Prelude.{◌≡◌, ◌≤◌, ◌^◌, IfSome, option_map, true};
ghost use Rattle.hl_script.specs.Lines.{takes_memory};
ghost use Rattle.hl_script.specs.Text.{tags_on, below, count_of};
ghost use Rattle.hl_script.specs.Outcomes.{WroteUpTo, LackedAtConfig, TextRan};
ghost use Rattle.hl_script.specs.Runs.{IsLeft};

use crate::fast::{Fast, Jobs};
use crate::script::run_script;
use crate::slow::{Slow, Tags};
use crate::sum::Sum;
use hl_action::{Shelf, Task};
use hl_cells::Engine;
use hl_epoch::Epochs;
use hl_model::Fault;
use std::alloc::Global;
use std::io::{Read, Write};

/// The reads of a run that is given no number of them.
const READS: u64 = 1 << 32;

/// What a run has left at the end of its script.
#[derive(Drop)]
pub struct Finished<E: Epochs, F: Task> {
    /// The engine, at the accepted steps.
    pub engine: Engine<E, F, Sum>,
    /// How many steps were accepted.
    pub accepted: u64,
}

/// Runs the script that the reader gives, with the jobs on the shelf, over an engine whose table of epochs is
/// an E, and writes its text. What was answered is flushed before each read. A job is run at its done, under
/// the firing of its take. Returns what it has left, None if there was no line: the engine stands at the
/// accepted steps, which keep the headline. Jobs whose actions aren't done at the end go with the engine.
///
/// - `BadLine` with the number of the first line that is no step, when its LF or its 81st byte was read, or
///   at the end of the input: the text was written, whose last line tells that number. Bytes behind it may
///   have been read.
/// - `OutOfMemory` if memory was refused at line 1; nothing was written.
/// - `Stream` if a read or the flush before it failed, or 2^32 reads gave no end: the text of the whole lines
///   was written. Or if a write failed or took no byte: a beginning of the text was written. It ends before
///   the text of the whole lines does, or else in the answer to a line that has an 81st byte or that the end
///   of the input ended, so that the two can mostly be told apart ([`laws`](crate::laws)). None is tried
///   again.
pub fn run_text<E: Epochs + Drop, F: Task, R: Read, W: Write>(
    alloc: Global,
    reader: &mut R,
    writer: &mut W,
    shelf: Shelf<F, Sum>,
) -> Result<Option<Finished<E, F>>, Fault>
    ensures { TextRan (tags_on shelf) (2 ^ 32) (R.remaining reader.old) (R.remaining reader.new)
        (W.contents writer.old) (W.contents writer.new)
        (LackedAtConfig (W.contents writer.old) (W.contents writer.new))
        (λ lines finished. (option_map (λ end. end.accepted) finished ≡ count_of (tags_on shelf) lines)
        × IfSome finished (λ end. IsLeft end.engine (tags_on shelf) lines)) result }
{
    run_text_within(alloc, reader, writer, shelf, READS)
}

/// The same in at most `reads` reads, and no more than 2^48 of them, each of at most 16384 bytes. If none of
/// them told the end and no line was bad, it returns `Stream`, as after a failed read, and reads nothing
/// more.
pub fn run_text_within<E: Epochs + Drop, F: Task, R: Read, W: Write>(
    alloc: Global,
    reader: &mut R,
    writer: &mut W,
    shelf: Shelf<F, Sum>,
    reads: u64,
) -> Result<Option<Finished<E, F>>, Fault>
    ensures { TextRan (tags_on shelf) reads (R.remaining reader.old) (R.remaining reader.new)
        (W.contents writer.old) (W.contents writer.new)
        (LackedAtConfig (W.contents writer.old) (W.contents writer.new))
        (λ lines finished. (option_map (λ end. end.accepted) finished ≡ count_of (tags_on shelf) lines)
        × IfSome finished (λ end. IsLeft end.engine (tags_on shelf) lines)) result }
{
    let jobs = Jobs { alloc, shelf };
    let ended: Option<(Fast<E, F>, u64)> = run_script(jobs, reader, writer, reads)?;
    let Some((fast, accepted)) = ended else {
        return Ok(None);
    };
    Ok(Some(Finished {
        engine: fast.engine,
        accepted,
    }))
}

/// Writes the text of the script that the reader gives, in the slow form: each answer is computed from a base
/// after all but the last accepted steps, and from those behind it. The tags below `tags`, which is at most
/// 2^62, have a job. Returns how many steps were accepted, None if there was no line.
///
/// - `BadLine` and `Stream` as for [`run_text`].
/// - `OutOfMemory` if memory was refused, at line 1 or at a step: the text of the lines before was written.
pub fn slow_text<R: Read, W: Write>(
    alloc: Global,
    reader: &mut R,
    writer: &mut W,
    tags: u64,
) -> Result<Option<u64>, Fault>
    requires { tags ≤ 2 ^ 62 }
    ensures { TextRan (below tags) (2 ^ 32) (R.remaining reader.old) (R.remaining reader.new)
        (W.contents writer.old) (W.contents writer.new)
        (WroteUpTo (below tags) (takes_memory true) (W.contents writer.old) (W.contents writer.new))
        (λ lines count. count ≡ count_of (below tags) lines) result }
{
    slow_text_within(alloc, reader, writer, tags, READS)
}

/// The same in at most `reads` reads, as [`run_text_within`].
pub fn slow_text_within<R: Read, W: Write>(
    alloc: Global,
    reader: &mut R,
    writer: &mut W,
    tags: u64,
    reads: u64,
) -> Result<Option<u64>, Fault>
    requires { tags ≤ 2 ^ 62 }
    ensures { TextRan (below tags) reads (R.remaining reader.old) (R.remaining reader.new)
        (W.contents writer.old) (W.contents writer.new)
        (WroteUpTo (below tags) (takes_memory true) (W.contents writer.old) (W.contents writer.new))
        (λ lines count. count ≡ count_of (below tags) lines) result }
{
    let opening = Tags { alloc, count: tags };
    let ended: Option<(Slow, u64)> = run_script(opening, reader, writer, reads)?;
    let Some((_, accepted)) = ended else {
        return Ok(None);
    };
    Ok(Some(accepted))
}
