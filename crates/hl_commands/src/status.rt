ghost use Rattle.std.specs.Prelude.{◌≡◌};
ghost use Rattle.std.specs.Io.KnownBytes.{Keeps};
ghost use Rattle.hl_commands.specs.Commands.{script_status};

use hl_line::print_fault;
use hl_model::Fault;
use std::io::Write;

/// The status of a command that was done.
pub const DONE: u8 = 0;

/// Memory was refused, a stream or a device failed, or a race left what its steps don't say.
pub const FAILED: u8 = 1;

/// A line that is no step, or words that are no command.
pub const REFUSED: u8 = 2;

/// Writes the fault's line, and returns `FAILED`. If that fails too there is nobody left to tell.
pub fn failed<E: Write>(fault: Fault, errors: &mut E) -> u8
    ensures { result ≡ FAILED }
{
    let _ = errors.write_all(print_fault(&fault).as_bytes());
    let _ = errors.write_all(b"\n");
    FAILED
}

/// Returns the status of a script that ended so, after what was written went out or not.
pub(crate) fn status_of<E: Write>(ended: Result<(), Fault>, sent: Sent, errors: &mut E) -> u8
    ensures { result ≡ script_status ended sent.is_out }
{
    match (ended, sent.is_out) {
        (Ok(()), true) => DONE,
        (Err(Fault::BadLine { .. }), true) => REFUSED,
        (Ok(()) | Err(Fault::BadLine { .. }), false) => failed(Fault::Stream, errors),
        (Err(fault), _) => failed(fault, errors),
    }
}

/// Whether what was written to a stream went out. Only [`Sent::of`] makes one.
#[derive(Drop)]
pub(crate) struct Sent {
    is_out: bool,
}

impl Sent {
    /// Flushes the stream, and tells whether that went well.
    pub(crate) fn of<W: Write>(writer: &mut W) -> Sent
        ensures kept { Keeps (W.contents writer.old) (W.contents writer.new) }
    {
        Sent {
            is_out: writer.flush().is_ok(),
        }
    }
}
