ghost use Rattle.std.specs.Prelude.{◌≡◌, OnOk, OnErr, IfErr};
ghost use Rattle.std.specs.Io.KnownBytes.{Appends};
ghost use Rattle.hl_line.specs.Streams.{BreaksOff};

use hl_model::Fault;
use std::io::Write;

/// Writes all of the bytes. What a short write left is written next, but no write is made after one that
/// failed, an interrupted one among them.
///
/// Fault: `Stream` if a write failed or took no byte. A beginning of the bytes was then written, and not all
/// of them.
pub fn put<W: Write>(writer: &mut W, bytes: &[u8]) -> Result<(), Fault>
    ensures ok { OnOk result (Appends (W.contents writer.old) (W.contents writer.new) bytes.now) }
    ensures err { IfErr result (λ fault. fault ≡ Fault.Stream) }
    ensures left { OnErr result (BreaksOff (W.contents writer.old) (W.contents writer.new) bytes.now) }
{
    let mut rest = bytes;
    while !rest.is_empty() {
        match writer.write(rest) {
            Ok(0) | Err(_) => return Err(Fault::Stream),
            Ok(taken) => rest = &rest[taken..],
        }
    }
    Ok(())
}
