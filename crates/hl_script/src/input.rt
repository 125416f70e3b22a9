//! The lines of a script, one after another, as its reader gives them.
ghost use Rattle.std.specs.Prelude.{◌≡◌, ℕ, ◌+◌, ◌<◌, ◌≤◌, ◌^◌, min, Bool, true, false, Some, Ok, Option, List, [], ◌∷◌, length, drop, IfOk};
ghost use Rattle.std.specs.Io.KnownBytes.{Keeps};
ghost use Rattle.hl_line.specs.Lines.{Fits};
ghost use Rattle.hl_script.specs.Input.{HasRead, MoreRead, Taken, IsNext, budget};

use arrayvec::ArrayVec;
use hl_line::{Line, read_front, read_line};
use hl_model::Fault;
use std::io::{Read, Write};
use std::marker::Model;

/// How many bytes a read may give.
const CHUNK: usize = 16384;

/// The most reads of a run, whatever its caller allows: beyond them lines could not be counted.
const MOST_READS: u64 = 1 << 48;

/// What was read of a script and belongs to no line yet, and how many reads were made and may be.
#[derive(Drop)]
pub(crate) struct Input {
    buffer: [u8; CHUNK],
    // What belongs to no line lies from here ..
    from: usize,
    // .. to here.
    to: usize,
    has_ended: bool,
    made: u64,
    most: u64,
}

impl Model for Input {
    ghost use Rattle.std.specs.Prelude.{◌≤◌, take, drop, ◌-◌};
    ghost use Rattle.hl_script.specs.Input.{InputView};

    ghost Value = { InputView };

    ghost view = { λ a. record {
      shown = take (a.to - a.from) (drop a.from a.buffer);
      has_ended = a.has_ended;
      made = a.made;
      most = a.most;
    } };

    ghost invariant = { λ a. (a.from ≤ a.to) × (a.to ≤ 16384) };
}

impl Input {
    /// Returns an input of which nothing was read, and so many reads may be made, up to 2^48.
    pub(crate) fn new(reads: u64) -> Input
        ensures { result ≡ record { shown = []; has_ended = false; made = 0; most = min reads MOST_READS } }
    {
        Input {
            buffer: [0; CHUNK],
            from: 0,
            to: 0,
            has_ended: false,
            made: 0,
            most: reads.min(MOST_READS),
        }
    }

    /// Returns whether the input goes on; if nothing is left of what was read, it reads more.
    ///
    /// Fault: `Stream` if a read or the flush before it failed, or all reads were made.
    #[inline(always)]
    pub(crate) fn has_more<R: Read, W: Write>(
        &mut self,
        reader: &mut R,
        out: &mut W,
    ) -> Result<bool, Fault>
        ensures kept { Keeps (W.contents out.old) (W.contents out.new) }
        ensures budget { IfOk result (λ more. budget self.new ≤ budget self.old) }
        ensures some { result ≡ Ok true → 0 < length self.new.shown }
        ensures left { 0 < length self.old.shown → result ≡ Ok true }
        ensures read { (reads : ℕ) (given : Option (List ℕ)) (done : List ℕ)
            → HasRead reads given (R.remaining reader.old) self.old done
            → MoreRead reads given (R.remaining reader.new) self.old self.new done result }
    {
        if self.shown().is_empty() {
            self.read(reader, out)
        } else {
            Ok(true)
        }
    }

    /// Finds the next line, and takes its bytes with the LF. Returns whether they are a line: `line` is then
    /// that line. The last line may end with the input; of one that is too long its first 81 bytes are taken.
    ///
    /// Fault: `Stream` as for [`has_more`](Input::has_more), within the line.
    #[inline(always)]
    pub(crate) fn next<R: Read, W: Write>(
        &mut self,
        reader: &mut R,
        out: &mut W,
        line: &mut Line,
    ) -> Result<bool, Fault>
        requires { 0 < length self.old.shown }
        ensures kept { Keeps (W.contents out.old) (W.contents out.new) }
        ensures budget { IfOk result (λ found. budget self.new < budget self.old) }
        ensures fits { result ≡ Ok true → Fits line.new }
        ensures next { (reads : ℕ) (given : Option (List ℕ)) (done : List ℕ)
            → HasRead reads given (R.remaining reader.old) self.old done
            → IsNext reads given (R.remaining reader.new) self.new done line.new result }
    {
        if let Some(count) = read_front(self.shown(), line) {
            self.take(count);
            return Ok(true);
        }
        self.next_other(reader, out, line)
    }

    // The same for a line that isn't usual, or lies in more than one read.
    #[inline(never)]
    fn next_other<R: Read, W: Write>(
        &mut self,
        reader: &mut R,
        out: &mut W,
        line: &mut Line,
    ) -> Result<bool, Fault>
        requires { 0 < length self.old.shown }
        ensures kept { Keeps (W.contents out.old) (W.contents out.new) }
        ensures budget { IfOk result (λ found. budget self.new < budget self.old) }
        ensures fits { result ≡ Ok true → Fits line.new }
        ensures next { (reads : ℕ) (given : Option (List ℕ)) (done : List ℕ)
            → HasRead reads given (R.remaining reader.old) self.old done
            → IsNext reads given (R.remaining reader.new) self.new done line.new result }
    {
        let mut bytes = ArrayVec::new();
        self.take_line(reader, out, &mut bytes)?;
        match read_line(bytes.as_slice()) {
            Some(found) => {
                *line = found;
                Ok(true)
            }
            None => Ok(false),
        }
    }

    // Takes the bytes of the next line up to its LF, to the end of the input, or 81 of them.
    fn take_line<R: Read, W: Write>(
        &mut self,
        reader: &mut R,
        out: &mut W,
        bytes: &mut ArrayVec<u8, 81>,
    ) -> Result<(), Fault>
        requires some { 0 < length self.old.shown }
        requires none { bytes.old.items ≡ [] }
        ensures kept { Keeps (W.contents out.old) (W.contents out.new) }
        ensures budget { IfOk result (λ done. budget self.new < budget self.old) }
        ensures taken { (reads : ℕ) (given : Option (List ℕ)) (done : List ℕ)
            → HasRead reads given (R.remaining reader.old) self.old done
            → Taken reads given (R.remaining reader.new) self.new done bytes.new.items result }
    {
        while !bytes.is_full() {
            if !self.has_more(reader, out)? {
                return Ok(());
            }
            let byte = self.shown()[0];
            self.take(1);
            if byte == b'\n' {
                return Ok(());
            }
            bytes.push(byte);
        }
        Ok(())
    }

    // What was read and belongs to no line yet.
    #[inline(always)]
    fn shown(&self) -> &[u8]
        ensures value { result.now ≡ self.now.shown }
        ensures most { length result.now ≤ 16384 }
    {
        &self.buffer[self.from..self.to]
    }

    // Takes so many bytes of it.
    #[inline(always)]
    fn take(&mut self, count: usize)
        requires { count ≤ length self.old.shown }
        ensures { self.new ≡ record self.old { shown = drop count self.old.shown } }
    {
        self.from += count;
    }

    // Reads once where nothing is left. What was written goes out first. A run reads nowhere else.
    fn read<R: Read, W: Write>(&mut self, reader: &mut R, out: &mut W) -> Result<bool, Fault>
        requires { length self.old.shown ≡ 0 }
        ensures kept { Keeps (W.contents out.old) (W.contents out.new) }
        ensures budget { IfOk result (λ more. budget self.new ≤ budget self.old) }
        ensures some { result ≡ Ok true → 0 < length self.new.shown }
        ensures read { (reads : ℕ) (given : Option (List ℕ)) (done : List ℕ)
            → HasRead reads given (R.remaining reader.old) self.old done
            → MoreRead reads given (R.remaining reader.new) self.old self.new done result }
    {
        if self.has_ended {
            return Ok(false);
        }
        if self.made >= self.most || out.flush().is_err() {
            return Err(Fault::Stream);
        }
        self.made += 1;
        let Ok(count) = reader.read(&mut self.buffer) else {
            return Err(Fault::Stream);
        };
        self.from = 0;
        self.to = count;
        self.has_ended = count == 0;
        Ok(count > 0)
    }
}
