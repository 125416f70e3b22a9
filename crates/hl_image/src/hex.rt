ghost use Rattle.std.specs.Prelude.{◌≡◌, ◌≤◌, length, OnOk, OnErr, IfErr};
ghost use Rattle.std.specs.Io.KnownBytes.{Appends};
ghost use Rattle.hl_line.specs.Streams.{BreaksOff};
ghost use Rattle.hl_image.specs.Lines.{digits, hex, line_of};

use crate::writer::{PageWriter, with_one_more};
use arrayvec::ArrayVec;
use hl_line::put;
use hl_model::Fault;
use std::io::Write;
use std::marker::Model;

/// The digits in order of their values.
const DIGITS: [u8; 16] = *b"0123456789abcdef";

/// How many bytes are written at once, each as two digits.
const PART: usize = 32;

/// A writer that writes a line of text for each page: the word `image`, a space, the page's bytes in
/// lower-case hexadecimal, two digits a byte, and a line feed.
///
/// The line is written in parts, so if the writer below fails, a beginning of the line may have been written.
/// If a write failed, the call returns `Device`, and nothing is written again. No call takes memory of its
/// own.
#[derive(Drop)]
pub struct HexWriter<W> {
    writer: W,
    failures: u64,
}

impl<W> Model for HexWriter<W> {
    ghost use Rattle.std.specs.Prelude.{◌≤◌, ◌^◌};
    ghost use Rattle.hl_image.specs.Counted.{Counted};

    ghost Value = { Counted W };

    ghost view = { λ a. record { writer = a.writer; failures = a.failures } };

    ghost invariant = { λ a. a.failures ≤ 2 ^ 62 };
}

impl<W> HexWriter<W> {
    /// Writes lines to this writer from now on. No write has failed.
    pub fn new(writer: W) -> HexWriter<W>
        ensures { result ≡ record { writer = writer; failures = 0 } }
    {
        HexWriter {
            writer,
            failures: 0,
        }
    }

    /// The writer that the lines went to.
    pub fn into_inner(self) -> W
        ensures { result ≡ self.writer }
    {
        self.writer
    }
}

impl<W: Write> PageWriter for HexWriter<W> {
    // The page's line was appended, if the writer below tells its bytes.
    ghost wrote = { λ before page bytes after.
        Appends (W.contents before.writer) (W.contents after.writer) (line_of bytes) };

    // A beginning of the line was appended, and not all of it.
    ghost failed = { λ before page bytes after.
        BreaksOff (W.contents before.writer) (W.contents after.writer) (line_of bytes) };

    ghost failures = { λ hex. hex.failures };

    fn write_page(&mut self, page: u64, bytes: &[u8]) -> Result<(), Fault> {
        if put_line(&mut self.writer, bytes).is_err() {
            self.failures = with_one_more(self.failures);
            return Err(Fault::Device);
        }
        Ok(())
    }

    fn failures(&self) -> u64 {
        self.failures
    }
}

// Writes the line of these bytes.
//
// Fault: `Stream` if a write failed or took no byte.
fn put_line<W: Write>(writer: &mut W, bytes: &[u8]) -> Result<(), Fault>
    ensures ok { OnOk result (Appends (W.contents writer.old) (W.contents writer.new) (line_of bytes.now)) }
    ensures err { IfErr result (λ fault. fault ≡ Fault.Stream) }
    ensures left { OnErr result
        (BreaksOff (W.contents writer.old) (W.contents writer.new) (line_of bytes.now)) }
{
    put(writer, b"image ")?;
    let mut rest = bytes;
    while !rest.is_empty() {
        let (part, later) = rest.split_at(PART.min(rest.len()));
        put(writer, &hex_of(part))?;
        rest = later;
    }
    put(writer, b"\n")
}

// These bytes, at most as many as are written at once, as digits.
fn hex_of(bytes: &[u8]) -> ArrayVec<u8, 64>
    requires { length bytes.now ≤ 32 }
    ensures { result.items ≡ hex bytes.now }
{
    let mut text = ArrayVec::new();
    for byte in bytes {
        text.push(DIGITS[(byte / 16) as usize]);
        text.push(DIGITS[(byte % 16) as usize]);
    }
    text
}
