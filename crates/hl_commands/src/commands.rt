ghost use Rattle.std.specs.Prelude.{ℕ, ◌<◌, ◌≤◌, false};
ghost use Rattle.hl_commands.specs.Commands.{Answered, EndsText, ReportedAs, EndsReport};
ghost use Rattle.hl_commands.specs.Jobs.{MakesSums};

use crate::images::write_images;
use crate::jobs::{TAGS, adds_ticket, all_jobs};
use crate::reports::report_script;
use crate::status::{Sent, status_of};
use hl_action::Task;
use hl_counts::CountTable;
use hl_epoch::{Epochs, ScanTable};
use hl_model::Fault;
use hl_script::{Finished, run_text, slow_text};
use std::alloc::Global;
use std::io::{Read, Write};

/// Answers the script that the reader gives; then, if that is wanted, writes the image of each page that can
/// be flushed, one a line. Returns the exit status, which is that of what the run came to: `DONE` after the text of the
/// whole script, which is what its definition says, with the images of all these pages behind it if they are wanted;
/// `REFUSED` at a line that is no step; `FAILED` at a fault, or if what was written didn't go out.
pub fn run<R: Read, W: Write, E: Write>(
    alloc: Global,
    flush: bool,
    reader: &mut R,
    writer: &mut W,
    errors: &mut E,
) -> u8
    ensures status { result ≤ 2 }
    ensures answered { Answered flush (R.remaining reader.old) (R.remaining reader.new)
        (W.contents writer.old) (W.contents writer.new) result }
{
    let ended = serve::<CountTable, _, _, R, W>(alloc, flush, reader, writer, adds_ticket!());
    status_of(ended, Sent::of(writer), errors)
}

/// The same over a table of epochs that scans its slots: a second table, by which tests answer scripts.
pub fn scan<R: Read, W: Write, E: Write>(
    alloc: Global,
    flush: bool,
    reader: &mut R,
    writer: &mut W,
    errors: &mut E,
) -> u8
    ensures status { result ≤ 2 }
    ensures answered { Answered flush (R.remaining reader.old) (R.remaining reader.new)
        (W.contents writer.old) (W.contents writer.new) result }
{
    let ended = serve::<ScanTable, _, _, R, W>(alloc, flush, reader, writer, adds_ticket!());
    status_of(ended, Sent::of(writer), errors)
}

/// Answers the script that the reader gives in the slow form. Returns the exit status.
pub fn slow<R: Read, W: Write, E: Write>(
    alloc: Global,
    reader: &mut R,
    writer: &mut W,
    errors: &mut E,
) -> u8
    ensures status { result ≤ 2 }
    ensures answered { Answered false (R.remaining reader.old) (R.remaining reader.new)
        (W.contents writer.old) (W.contents writer.new) result }
{
    let ended = serve_slowly(alloc, reader, writer);
    status_of(ended, Sent::of(writer), errors)
}

/// Runs the script that the reader gives, without its answers, and then writes the report of what it left and
/// of its accepted steps: nothing if there is no line, and the text of a bad line alone. Returns the exit
/// status.
pub fn report<R: Read, W: Write, E: Write>(
    alloc: Global,
    reader: &mut R,
    writer: &mut W,
    errors: &mut E,
) -> u8
    ensures status { result ≤ 2 }
    ensures reported { ReportedAs (R.remaining reader.old) (R.remaining reader.new)
        (W.contents writer.old) (W.contents writer.new) result }
{
    let ended = tell(alloc, reader, writer, adds_ticket!());
    status_of(ended, Sent::of(writer), errors)
}

/// Runs the script over a table of epochs, with the jobs that `make` makes, and flushes the pages that it left sealed if
/// that is wanted.
fn serve<E: Epochs + Drop, F: Task, M: Fn(u64) -> F, R: Read, W: Write>(
    alloc: Global,
    flush: bool,
    reader: &mut R,
    writer: &mut W,
    make: M,
) -> Result<(), Fault>
    requires callable { (tag : ℕ) → tag < 1000 → M.pre make tag }
    requires made { MakesSums F.can F.gives (λ tag job. M.post make tag job) }
    ensures { EndsText flush (R.remaining reader.old) (R.remaining reader.new)
        (W.contents writer.old) (W.contents writer.new) result }
{
    let shelf = all_jobs(alloc, make)?;
    let ended: Option<Finished<E, F>> = run_text(alloc, reader, writer, shelf)?;
    let Some(finished) = ended else {
        return Ok(());
    };
    if flush {
        write_images(alloc, finished.engine, writer)
    } else {
        Ok(())
    }
}

/// Answers the script in the slow form.
fn serve_slowly<R: Read, W: Write>(
    alloc: Global,
    reader: &mut R,
    writer: &mut W,
) -> Result<(), Fault>
    ensures { EndsText false (R.remaining reader.old) (R.remaining reader.new)
        (W.contents writer.old) (W.contents writer.new) result }
{
    slow_text(alloc, reader, writer, TAGS)?;
    Ok(())
}

/// Runs the script, with the jobs that `make` makes, and writes its report.
fn tell<F: Task, M: Fn(u64) -> F, R: Read, W: Write>(
    alloc: Global,
    reader: &mut R,
    writer: &mut W,
    make: M,
) -> Result<(), Fault>
    requires callable { (tag : ℕ) → tag < 1000 → M.pre make tag }
    requires made { MakesSums F.can F.gives (λ tag job. M.post make tag job) }
    ensures { EndsReport (R.remaining reader.old) (R.remaining reader.new)
        (W.contents writer.old) (W.contents writer.new) result }
{
    let shelf = all_jobs(alloc, make)?;
    report_script::<CountTable, F, R, W>(alloc, reader, writer, shelf)
}
