ghost use Rattle.std.specs.Prelude.{◌≡◌, IfOk};
ghost use Rattle.std.specs.Io.KnownBytes.{Appends};
ghost use Rattle.hl_command_line.specs.Obeyed.{race_status, race_text, RacedAs};

use hl_commands::{DONE, FAILED, failed};
use hl_line::put;
use hl_model::Fault;
use hl_race::{Race, run_race};
use itoa::Buffer;
use std::alloc::Global;
use std::io::Write;
use std::sync::Wait;
use std::thread::Threads;

/// Runs a race and writes its line: its two numbers, and then `ok` where what it left is what its steps say, else `differs`,
/// with the status of a command that failed.
pub(crate) fn race<T: Threads + Wait + Sync, W: Write, E: Write>(
    rt: &T,
    alloc: Global,
    race: Race,
    writer: &mut W,
    errors: &mut E,
) -> u8
    ensures { RacedAs race.riders race.rounds (W.contents writer.old) (W.contents writer.new) result }
{
    let ended = match run_race(rt, alloc, race) {
        Ok(agrees) => tell(race, agrees, writer),
        Err(fault) => Err(fault),
    };
    status_of(ended, errors)
}

/// Returns the status of a race that ended so.
fn status_of<E: Write>(ended: Result<bool, Fault>, errors: &mut E) -> u8
    ensures { result ≡ race_status ended }
{
    match ended {
        Ok(true) => DONE,
        Ok(false) => FAILED,
        Err(fault) => failed(fault, errors),
    }
}

/// Writes the line of a race, so that it goes out, and returns whether the race agrees.
///
/// Fault: `Stream` if a write failed.
fn tell<W: Write>(race: Race, agrees: bool, writer: &mut W) -> Result<bool, Fault>
    ensures { IfOk result (λ told. (told ≡ agrees) × Appends (W.contents writer.old) (W.contents writer.new)
        (race_text race.riders race.rounds agrees)) }
{
    put(writer, b"race ")?;
    put(writer, Buffer::new().format(race.riders()).as_bytes())?;
    put(writer, b" ")?;
    put(writer, Buffer::new().format(race.rounds()).as_bytes())?;
    put(writer, if agrees { b" ok\n" } else { b" differs\n" })?;
    match writer.flush() {
        Ok(()) => Ok(agrees),
        Err(_) => Err(Fault::Stream),
    }
}
