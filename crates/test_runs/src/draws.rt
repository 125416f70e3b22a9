//! Steps that look drawn at random, the same ones for the same beginning.
ghost use Rattle.std.specs.Prelude.{◌<◌};

use hl_model::{Fault, Params, Reply, Snapshot, Step};

/// Draws steps of every kind. Most of them may be accepted, since they are drawn at the quantities after those before
/// them, and pages go on their whole way.
#[derive(Drop)]
pub(crate) struct Draws {
    last: u64,
    params: Params,
    // The ticket that was taken last, and isn't done; 0 where there is none.
    taken: u64,
    // The tag of the next job.
    tag: u64,
}

impl Draws {
    pub(crate) fn new(params: Params, beginning: u64) -> Draws {
        Draws {
            last: beginning,
            params,
            taken: 0,
            tag: 0,
        }
    }

    /// A number below n, which isn't 0.
    pub(crate) fn below(&mut self, n: u64) -> u64
        requires { 0 < n }
        ensures { result < n }
    {
        let next = self.last.wrapping_mul(6_364_136_223_846_793_005);
        self.last = next.wrapping_add(1_442_695_040_888_963_407);
        (self.last >> 33) % n
    }

    // A number at most 2 below or above this one.
    fn near(&mut self, number: u64) -> u64 {
        let above = number.saturating_add(self.below(5));
        above.saturating_sub(2)
    }

    // A slot, and now and then the number behind the last.
    fn slot(&mut self) -> u64 {
        let slots = self.params.slots();
        match self.below(12) {
            0 => slots,
            _ => self.below(slots),
        }
    }

    /// Whether a job of this tag is the next; each before it was bumped.
    pub(crate) fn is_next(&self, tag: u64) -> bool {
        tag == self.tag
    }

    /// What the step was answered, so that the next ones go on from there.
    pub(crate) fn note(&mut self, step: Step, answer: Result<Reply, Fault>) {
        match (step, answer) {
            (Step::Bump { .. }, Ok(_)) => self.tag = self.tag.saturating_add(1),
            (Step::Take, Ok(Reply::Taken(ticket))) => self.taken = ticket,
            (Step::Done { ticket }, Ok(_)) if ticket == self.taken => self.taken = 0,
            _ => {}
        }
    }

    /// The next step, at these quantities.
    pub(crate) fn step(&mut self, now: &Snapshot) -> Step {
        match self.below(20) {
            0..=10 => self.onward(now),
            11..=13 => self.of_slots(),
            14..=16 => self.of_words(now),
            _ => self.of_pages(now),
        }
    }

    // A step by which pages go on from where they are.
    fn onward(&mut self, now: &Snapshot) -> Step {
        let six = now.six;
        if self.taken > 0 {
            return Step::Done { ticket: self.taken };
        }
        if now.pending > 0 {
            return self.to_take(now);
        }
        if six.read_only < six.tail {
            return Step::Raise { x: six.tail };
        }
        if six.safe_read_only < six.read_only {
            return Step::Settle;
        }
        if six.head < six.flushed {
            return Step::Shift { x: six.flushed };
        }
        if six.closed < six.head {
            return Step::Close;
        }
        self.to_enter(now)
    }

    // A take, or, while a slot is behind, a refresh, which may make one ready.
    fn to_take(&mut self, now: &Snapshot) -> Step {
        match self.below(3) {
            0 => Step::Refresh { t: self.slot() },
            _ if now.safe.saturating_add(1) < now.epoch => Step::Refresh { t: self.slot() },
            _ => Step::Take,
        }
    }

    // A step by which a page is flushed, freed or entered.
    fn to_enter(&mut self, now: &Snapshot) -> Step {
        let words = self.params.page_size();
        match self.below(6) {
            0 => Step::FlushTake,
            1 => Step::FlushDone {
                page: now.six.flushed / words,
                ok: true,
            },
            2 => Step::CleanTake,
            3 => Step::Allocate {
                t: self.slot(),
                n: words - 1,
            },
            _ => self.clean_done(now),
        }
    }

    // A page that was closed lately.
    fn clean_done(&mut self, now: &Snapshot) -> Step {
        let (words, frames) = (self.params.page_size(), self.params.frames());
        let back = 1 + self.below(frames);
        Step::CleanDone {
            page: (now.six.closed / words).saturating_sub(back),
        }
    }

    // A step of slots and actions.
    fn of_slots(&mut self) -> Step {
        let t = self.slot();
        match self.below(16) {
            0 | 1 => Step::Acquire { t },
            2 => Step::Release { t },
            3..=5 => Step::Refresh { t },
            6 | 7 => Step::Bump { tag: self.job() },
            8 => Step::Settle,
            9 => Step::Close,
            10 | 11 => Step::Take,
            12 => Step::Bare,
            _ => Step::Done {
                ticket: self.near(self.taken),
            },
        }
    }

    // Mostly the tag of the next job, else one before it, or one behind it that there isn't.
    fn job(&mut self) -> u64 {
        let tag = self.tag;
        match self.below(8) {
            0 => tag.saturating_sub(1),
            1 => tag.saturating_add(1000),
            _ => tag,
        }
    }

    // A step of offsets and words.
    fn of_words(&mut self, now: &Snapshot) -> Step {
        let six = now.six;
        let t = self.slot();
        let a = self.near(six.tail.saturating_sub(1));
        match self.below(12) {
            0 => Step::Raise {
                x: self.near(six.tail),
            },
            1 => Step::Shift {
                x: self.near(six.head),
            },
            2 => Step::Shift { x: six.tail },
            3 => Step::Look {
                t,
                read_only: self.near(six.read_only),
                head: self.near(six.head),
            },
            4 | 5 => Step::Write { t, a, v: self.last },
            6 => Step::Read {
                t,
                a: self.near(six.head),
            },
            7 => Step::Read { t, a },
            _ => self.record(t),
        }
    }

    // A record, which may be empty or too long.
    fn record(&mut self, t: u64) -> Step {
        let words = self.params.page_size();
        Step::Allocate {
            t,
            n: self.below(words + 2),
        }
    }

    // A step of pages.
    fn of_pages(&mut self, now: &Snapshot) -> Step {
        let page = (now.six.flushed / self.params.page_size()).saturating_add(self.below(2));
        match self.below(6) {
            0 | 1 => Step::FlushTake,
            2 => Step::FlushDone {
                page,
                ok: self.below(4) > 0,
            },
            3 => Step::CleanTake,
            _ => self.clean_done(now),
        }
    }
}
