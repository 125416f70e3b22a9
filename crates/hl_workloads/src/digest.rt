use hl::{Fault, Snapshot, View};
use std::alloc::Global;
use std::io;
use std::io::Write;

/// How many bytes are kept before their words are mixed in.
const ROOM: usize = 1 << 16;

/// A number that tells long rows of results apart.
#[derive(Clone, Copy)]
pub(crate) struct Digest(u64);

impl Digest {
    /// Of no results.
    pub(crate) fn new() -> Digest {
        Digest(0x9E37_79B9_7F4A_7C15)
    }

    /// With one more.
    pub(crate) fn add(&mut self, word: u64) {
        self.0 = (self.0 ^ word)
            .wrapping_mul(0x2545_F491_4F6C_DD1D)
            .rotate_left(29);
    }

    /// With what a thread has seen, folded into one word.
    pub(crate) fn add_view(&mut self, view: View) {
        self.add(view.read_only ^ view.head.rotate_left(21) ^ view.tail.rotate_left(42));
    }

    /// With all quantities of a log.
    pub(crate) fn add_snapshot(&mut self, now: &Snapshot) {
        for word in [now.epoch, now.safe, now.protected, now.pending, now.taken] {
            self.add(word);
        }
        let six = now.six;
        for offset in [six.closed, six.head, six.flushed] {
            self.add(offset);
        }
        for offset in [six.safe_read_only, six.read_only, six.tail] {
            self.add(offset);
        }
        for count in now.frames {
            self.add(count);
        }
    }

    /// The number.
    pub(crate) fn value(self) -> u64 {
        self.0
    }
}

/// A stream that keeps nothing of its bytes but their digest, whatever the writes that they come in.
#[derive(Drop)]
pub(crate) struct DigestWriter {
    digest: Digest,
    bytes: Vec<u8>,
}

impl DigestWriter {
    /// Nothing was written.
    pub(crate) fn new(alloc: Global) -> Result<DigestWriter, Fault> {
        let bytes = Vec::with_capacity(alloc, 2 * ROOM).map_err(|_| Fault::OutOfMemory)?;
        Ok(DigestWriter {
            digest: Digest::new(),
            bytes,
        })
    }

    // Mixes in the whole words.
    fn mix(&mut self) {
        let whole = self.bytes.len() / 8 * 8;
        for word in self.bytes.chunks_exact(8) {
            if let Ok(word) = word.try_into() {
                self.digest.add(u64::from_le_bytes(word));
            }
        }
        self.bytes.drain(..whole);
    }

    /// The digest of all bytes.
    pub(crate) fn finish(self) -> u64 {
        let mut this = self;
        this.mix();
        for byte in &this.bytes {
            this.digest.add(u64::from(*byte));
        }
        this.digest.value()
    }
}

impl Write for DigestWriter {
    fn write(&mut self, buf: &[u8]) -> io::Result<usize> {
        self.bytes.write_all(buf)?;
        if self.bytes.len() >= ROOM {
            self.mix();
        }
        Ok(buf.len())
    }

    fn flush(&mut self) -> io::Result<()> {
        Ok(())
    }
}
