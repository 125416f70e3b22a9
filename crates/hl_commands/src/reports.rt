ghost use Rattle.std.specs.Prelude.{◌≡◌, ℕ, ◌^◌, false, Err, IfErr, OnOk, Some, None};
ghost use Rattle.std.specs.Io.KnownBytes.{Appends};
ghost use Rattle.hl_model.specs.declared.fault.Fault.TheVariants.{BadLine};
ghost use Rattle.hl_script.specs.Text.{tags_on, bad_text};
ghost use Rattle.hl_script.specs.Outcomes.{ReadToEnd, StoppedAtBadLine};
ghost use Rattle.hl_commands.specs.Commands.{EndsScript};
ghost use Rattle.hl_commands.specs.Reported.{Reports};

use hl_action::{Shelf, Task};
use hl_epoch::Epochs;
use hl_model::Fault;
use hl_monitor::report;
use hl_script::{Finished, Sum, print_bad_line, run_text};
use std::alloc::Global;
use std::io;
use std::io::{Read, Write};

/// Runs the script that the reader gives, with the jobs on the shelf, and then writes its report: nothing if
/// there is no line.
///
/// Faults: `BadLine` at the first line that is no step, whose text alone was written; `OutOfMemory` if memory
/// was refused at line 1; `Stream` if a read or a write failed.
pub(crate) fn report_script<E: Epochs + Drop, F: Task, R: Read, W: Write>(
    alloc: Global,
    reader: &mut R,
    writer: &mut W,
    shelf: Shelf<F, Sum>,
) -> Result<(), Fault>
    ensures ok { OnOk result
        (Reports (tags_on shelf) (R.remaining reader.old) (R.remaining reader.new)
        (W.contents writer.old) (W.contents writer.new)) }
    ensures bad_line { (n : ℕ) → result ≡ Err (BadLine n)
        → StoppedAtBadLine (tags_on shelf) (2 ^ 32) (R.remaining reader.old)
        (R.remaining reader.new) None None n }
    ensures told { (n : ℕ) → result ≡ Err (BadLine n)
        → Appends (W.contents writer.old) (W.contents writer.new) (bad_text (Some n)) }
    ensures faults { IfErr result (EndsScript false) }
{
    let ended: Result<Option<Finished<E, F>>, Fault> = run_text(
        alloc,
        reader,
        &mut io::sink(),
        shelf,
    );
    match ended {
        Ok(None) => Ok(()),
        Ok(Some(end)) => report(&end.engine.snapshot(), end.accepted, 0, writer),
        Err(Fault::BadLine { n }) => match writer.write_all(print_bad_line(n).as_str().as_bytes()) {
            Ok(()) => Err(Fault::BadLine { n }),
            Err(_) => Err(Fault::Stream),
        },
        Err(fault) => Err(fault),
    }
}
