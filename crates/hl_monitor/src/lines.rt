ghost use Rattle.std.specs.Prelude.{◌≡◌, true, OnOk, OnErr, IfOk, IfErr};
ghost use Rattle.std.specs.List.{list_all};
ghost use Rattle.std.specs.Io.KnownBytes.{Appends};
ghost use Rattle.hl_line.specs.Streams.{BreaksOff};
ghost use Rattle.hl_monitor.specs.Reports.{line_of, is_label, lines_of, report_text};

use arrayvec::ArrayString;
use hl_line::put;
use hl_model::{Fault, Snapshot};
use std::fmt;
use std::fmt::Write as _;
use std::io::Write;

/// Writes the report of a snapshot, with these counts of steps, to the writer. It takes no memory.
///
/// Fault: `Stream` where a write failed or took no byte. A beginning of the report was then written, and not all of
/// it. Nothing is tried again.
pub fn report<W: Write>(
    snapshot: &Snapshot,
    steps: u64,
    cut: u64,
    writer: &mut W,
) -> Result<(), Fault>
    ensures ok { OnOk result
        (Appends (W.contents writer.old) (W.contents writer.new) (report_text snapshot.now steps cut)) }
    ensures err { IfErr result (λ fault. fault ≡ Fault.Stream) }
    ensures left { OnErr result
        (BreaksOff (W.contents writer.old) (W.contents writer.new) (report_text snapshot.now steps cut)) }
{
    let six = snapshot.six;
    let [open, sealed, flushed, closed, free] = snapshot.frames;
    let lines = [
        ("epoch", snapshot.epoch),
        ("safe", snapshot.safe),
        ("protected", snapshot.protected),
        ("pending", snapshot.pending),
        ("taken", snapshot.taken),
        ("closed_at", six.closed),
        ("head", six.head),
        ("flushed_to", six.flushed),
        ("safe_read_only", six.safe_read_only),
        ("read_only", six.read_only),
        ("tail", six.tail),
        ("open", open),
        ("sealed", sealed),
        ("flushed", flushed),
        ("closed", closed),
        ("free", free),
        ("steps", steps),
        ("cut", cut),
    ];
    put_lines(writer, &lines)
}

/// Writes a line for each of these labels and its number: what goes behind a report. A label is ASCII, and has at most 16
/// characters.
///
/// Fault: `Stream` as for a report.
pub fn put_lines<W: Write>(writer: &mut W, lines: &[(&str, u64)]) -> Result<(), Fault>
    requires { list_all (λ line. is_label line.0.now) lines.now ≡ true }
    ensures ok { OnOk result (Appends (W.contents writer.old) (W.contents writer.new) (lines_of lines.now)) }
    ensures err { IfErr result (λ fault. fault ≡ Fault.Stream) }
    ensures left { OnErr result
        (BreaksOff (W.contents writer.old) (W.contents writer.new) (lines_of lines.now)) }
{
    for &(label, number) in lines {
        match line(label, number) {
            Ok(line) => put(writer, line.as_str().as_bytes())?,
            Err(_) => return Err(Fault::Stream),
        }
    }
    Ok(())
}

/// A label and its number as a line. No error comes, since a line has room: the library's clauses don't say so.
fn line(label: &str, number: u64) -> Result<ArrayString<37>, fmt::Error>
    requires { is_label label.now ≡ true }
    ensures { IfOk result (λ line. line.bytes ≡ line_of (label.now, number)) }
{
    let mut line = ArrayString::new();
    writeln!(line, "{label:<16}{number:>20}")?;
    Ok(line)
}
