//! Texts of scripts: of sixteen threads that place, write and read records, while pages go their whole way.
use crate::random::Random;
use hl::Fault;
use itoa::write_digits;
use std::alloc::Global;

/// Words a page, frames, slots, and places for actions.
const PAGE: u64 = 64;

const FRAMES: u64 = 64;

const SLOTS: u64 = 16;

const PLACES: u64 = 32;

/// How many pages may be written, and how many may be read.
const MUTABLE: u64 = 4;

const RESIDENT: u64 = 32;

/// The most pages at a time that are out to be flushed.
const OUT: u64 = 4;

/// How many bytes the row for a line has: a word, four numbers and an LF have at most 100.
const ROW: usize = 128;

/// What a slot has seen.
#[derive(Clone, Copy)]
struct Seen {
    read_only: u64,
    tail: u64,
}

/// A script under way, and what its lines lead to.
#[derive(Drop)]
pub(crate) struct Script {
    text: Vec<u8>,
    row: [u8; ROW],
    random: Random,
    seen: [Seen; 16],
    tail: u64,
    read_only: u64,
    head: u64,
    // The current epoch, and the oldest ticket that isn't done.
    epoch: u64,
    oldest: u64,
    tag: u64,
    flushed: u64,
    cleaned: u64,
}

/// The text of a script of about so many lines.
pub(crate) fn text(alloc: Global, seed: u64, stream: u64, lines: u64) -> Result<Vec<u8>, Fault> {
    // A line has fifteen bytes or so.
    let room = lines.min(1 << 32) * 20;
    let none = Seen {
        read_only: 0,
        tail: 0,
    };
    let mut script = Script {
        text: Vec::with_capacity(alloc, room as usize).map_err(|_| Fault::OutOfMemory)?,
        row: [b' '; ROW],
        random: Random::of(seed, stream),
        seen: [none; 16],
        tail: 0,
        read_only: 0,
        head: 0,
        epoch: 1,
        oldest: 1,
        tag: 0,
        flushed: 0,
        cleaned: 0,
    };
    script.line(b"config", [PAGE, FRAMES, SLOTS, PLACES])?;
    script.all(b"acquire")?;
    for _ in 0..lines.saturating_mul(7) / 8 {
        script.one_line()?;
        if script.tail.saturating_sub(script.read_only) > 16 * PAGE {
            script.keep_lag()?;
        }
    }
    Ok(script.text)
}

impl Script {
    // A word, numbers behind it, and an LF. It is made in a row from its end, where the digits of a number come out, and
    // words have lengths that the compiler knows, so that making the text takes little of the job's time.
    fn line<const N: usize, const M: usize>(
        &mut self,
        word: &[u8; N],
        numbers: [u64; M],
    ) -> Result<(), Fault> {
        self.line_with(word, numbers, b"\n")
    }

    // The same with this end.
    #[inline(always)]
    #[tactic(auto, using(crate::proofs::Digits::decimal_short))]
    fn line_with<const N: usize, const M: usize, const K: usize>(
        &mut self,
        word: &[u8; N],
        numbers: [u64; M],
        end: &[u8; K],
    ) -> Result<(), Fault> {
        let mut from = put_before(&mut self.row, ROW, end)?;
        for number in numbers.as_slice().iter().rev() {
            if !(21..=ROW).contains(&from) {
                return Err(Fault::Size);
            }
            from = write_digits(*number, &mut self.row, from);
            from = put_before(&mut self.row, from, b" ")?;
        }
        from = put_before(&mut self.row, from, word)?;
        self.text
            .extend_from_slice(self.row.get(from..).unwrap_or(&[]))
            .map_err(|_| Fault::OutOfMemory)
    }

    // A line of each slot, which then has seen the offsets as they are.
    fn all<const N: usize>(&mut self, word: &[u8; N]) -> Result<(), Fault> {
        for slot in 0..SLOTS {
            self.line(word, [slot])?;
            self.sees_all(slot);
        }
        Ok(())
    }

    fn sees_all(&mut self, slot: u64) {
        if let Some(seen) = self.seen.get_mut(slot as usize) {
            seen.read_only = self.read_only;
            seen.tail = self.tail;
        }
    }

    // A line of a thread, or a query.
    fn one_line(&mut self) -> Result<(), Fault> {
        let t = self.random.below(SLOTS);
        let Seen { read_only, tail } = self.seen[(t % 16) as usize];
        match self.random.below(1000) {
            0..250 => self.allocate(t),
            250..480 => {
                let address = self.random.between(read_only, tail);
                let word = self.random.next();
                self.line(b"write", [t, address, word])
            }
            480..760 => {
                let address = self.random.between(self.head, tail);
                self.line(b"read", [t, address])
            }
            760..900 => {
                self.sees_all(t);
                self.line(b"refresh", [t])
            }
            900..950 => self.line(b"look", [t, self.read_only, self.head]),
            950..970 => self.line(b"take", []),
            970..980 => self.bump(),
            980..995 => self.line(b"status", []),
            995..999 => self.line(b"pending", []),
            _ => self.line(b"frames", []),
        }
    }

    // A record of 1 to 8 words.
    fn allocate(&mut self, t: u64) -> Result<(), Fault> {
        let words = self.random.below(8).saturating_add(1);
        let left = PAGE - self.tail % PAGE;
        let place = if words > left {
            self.tail.saturating_add(left)
        } else {
            self.tail
        };
        self.tail = place.saturating_add(words);
        if let Some(seen) = self.seen.get_mut(t as usize) {
            seen.tail = self.tail;
        }
        self.line(b"alloc", [t, words])
    }

    // A bump with the next job; there are a thousand.
    fn bump(&mut self) -> Result<(), Fault> {
        if self.tag < 1000 {
            self.epoch = self.epoch.saturating_add(1);
        }
        self.tag = self.tag.saturating_add(1);
        self.line(b"bump", [self.tag.saturating_sub(1)])
    }

    // The read-only offset and the head follow the tail; pages are flushed and cleaned behind them.
    fn keep_lag(&mut self) -> Result<(), Fault> {
        let pages = self.tail / PAGE;
        self.read_only = pages.saturating_sub(MUTABLE).saturating_mul(PAGE);
        self.line(b"raise", [self.read_only])?;
        self.settle(b"settle")?;
        self.flush()?;
        let resident = pages.saturating_sub(RESIDENT);
        if resident <= self.cleaned {
            return Ok(());
        }
        self.head = resident.saturating_mul(PAGE);
        self.line(b"shift", [self.head])?;
        self.settle(b"close")?;
        for page in self.cleaned..resident {
            self.line(b"clean take", [])?;
            self.line(b"clean done", [page])?;
        }
        self.cleaned = resident;
        Ok(())
    }

    // Bumps, lets all slots refresh, and carries out all that waits.
    fn settle<const N: usize>(&mut self, word: &[u8; N]) -> Result<(), Fault> {
        self.line(word, [])?;
        self.epoch = self.epoch.saturating_add(1);
        self.all(b"refresh")?;
        for ticket in self.oldest..self.epoch {
            self.line(b"take", [])?;
            self.line(b"done", [ticket])?;
        }
        self.oldest = self.epoch;
        Ok(())
    }

    // Flushes what is sealed, some pages at a time, of which one fails now and then.
    fn flush(&mut self) -> Result<(), Fault> {
        let sealed = self.read_only / PAGE;
        for _ in self.flushed..sealed {
            let end = self.flushed.saturating_add(OUT).min(sealed);
            for _ in self.flushed..end {
                self.line(b"flush take", [])?;
            }
            for page in (self.flushed..end).rev() {
                if self.random.below(16) == 0 {
                    self.line_with(b"flush done", [page], b" failed\n")?;
                    self.line(b"flush take", [])?;
                }
                self.line_with(b"flush done", [page], b" ok\n")?;
            }
            self.flushed = end;
        }
        Ok(())
    }
}

// Puts some bytes before this place of a row. The answer is where they begin.
#[inline(always)]
fn put_before<const N: usize>(
    row: &mut [u8; ROW],
    end: usize,
    bytes: &[u8; N],
) -> Result<usize, Fault> {
    let from = end.checked_sub(N).ok_or(Fault::Size)?;
    if let Some(place) = row.get_mut(from..end) {
        place.copy_from_slice(bytes);
    }
    Ok(from)
}
