//! What a log with threads and a crew is opened with, in few words.
ghost use Rattle.std.specs.Prelude.{◌≡◌, true, false, Err, IfNone, IfOk, IfSome, IsOk};
ghost use Rattle.hl_model.specs.declared.fault.Fault.TheVariants.{Size};
ghost use Rattle.hl.specs.Configs.{all_fit, behind, fits, for_threads, most_steps, with_frames, opening_of, IsDutyOf};
ghost use Rattle.hl.specs.Crews.{can_run};

use crate::opening::{Opening, STEPS_LEAST, STEPS_MOST};
use hl_crew::Duty;
use hl_model::{Fault, Sizes};
use std::fmt;

/// The numbers of a log with threads and a crew, for [`run_threads`](crate::run_threads). Begin with
/// [`for_threads`](Config::for_threads), and name what is to differ: `Config { page_size: 64,
/// ..Config::for_threads(4) }`.
#[derive(Clone, Copy, Debug, PartialEq, Eq)]
pub struct Config {
    /// How many threads, 1 to 1,024. Each has a slot.
    pub threads: u64,
    /// Words a page: a power of two, 4 to 2^20.
    pub page_size: u64,
    /// How many pages the memory has room for, 2 to 2^16. [`with_frames`](Config::with_frames) sets `mutable` and
    /// `resident` with it, which have to stay below it.
    pub frames: u64,
    /// Places for actions, 1 to 4,096.
    pub actions: u64,
    /// About how many pages at the tail may be written, 1 to `resident`.
    pub mutable: u64,
    /// About how many pages at the tail may be read, less than `frames`.
    pub resident: u64,
    /// How many steps the journal may keep, 33 to 2^62. The crew cuts it at the end of a turn that leaves it more than
    /// half full, or with less room than the 33 steps of a session that has 32 touches.
    pub journal: u64,
    /// Tells this log from the program's other logs; at most 2^62.
    pub stamp: u64,
    /// Whether the whole log is flushed once all threads have ended, before [`finish`](crate::Work::finish): the device then
    /// has each record that a thread appended. [`Finished::flushed`](crate::Finished::flushed) tells whether it was.
    pub flush_at_end: bool,
}

/// A number of a [`Config`]. It is displayed as its name and its range.
#[derive(Clone, Copy, Debug, PartialEq, Eq)]
pub enum Number {
    Threads,
    PageSize,
    Frames,
    Actions,
    Mutable,
    Resident,
    Journal,
    Stamp,
}

impl Config {
    /// For so many threads: pages of 4,096 words, 256 frames, which are 8 MiB, 16 places for actions, a journal of
    /// 2^15 steps, and stamp 1. Of the frames 64 are free for new pages while the crew works; 144 of the pages may be
    /// written.
    pub const fn for_threads(threads: u64) -> Config
        ensures { result ≡ for_threads threads }
    {
        Config {
            threads,
            page_size: 4096,
            frames: 256,
            actions: 16,
            mutable: 144,
            resident: 192,
            journal: 1 << 15,
            stamp: 1,
            flush_at_end: false,
        }
    }

    /// The same with so many frames, and with `mutable` and `resident` that go with them: a quarter of the frames,
    /// and at least one, is free for new pages, and a quarter of the other pages is read-only.
    pub fn with_frames(self, frames: u64) -> Config
        ensures { result ≡ with_frames frames self }
    {
        let resident = frames - (frames / 4).max(1).min(frames);
        Config {
            frames,
            mutable: resident - resident / 4,
            resident,
            ..self
        }
    }

    /// A number that is out of its range; `None` if each is in its own.
    pub fn out_of_range(&self) -> Option<Number>
        ensures out { IfSome result (λ number. fits self.now number ≡ false) }
        ensures none { IfNone result (all_fit self.now ≡ true) }
    {
        if !self.fits(Number::Threads) {
            Some(Number::Threads)
        } else if !self.fits(Number::PageSize) {
            Some(Number::PageSize)
        } else if !self.fits(Number::Frames) {
            Some(Number::Frames)
        } else if !self.fits(Number::Actions) {
            Some(Number::Actions)
        } else if !self.fits(Number::Mutable) {
            Some(Number::Mutable)
        } else if !self.fits(Number::Resident) {
            Some(Number::Resident)
        } else if !self.fits(Number::Journal) {
            Some(Number::Journal)
        } else if !self.fits(Number::Stamp) {
            Some(Number::Stamp)
        } else {
            None
        }
    }

    /// Why [`run_threads`](crate::run_threads) was refused for these numbers with this fault, to be displayed: for `Size`
    /// as [`out_of_range`](Config::out_of_range) tells it.
    pub fn refusal(&self, fault: Fault) -> Refusal
        ensures fault { result.fault ≡ fault }
        ensures number { IfSome result.number (λ number. (fault ≡ Size) × (fits self.now number ≡ false)) }
        ensures none { fault ≡ Size → IfNone result.number (all_fit self.now ≡ true) }
    {
        let number = match fault {
            Fault::Size => self.out_of_range(),
            _ => None,
        };
        Refusal { fault, number }
    }

    // Whether a number is in its range.
    #[tactic(auto, unfolding(crate::specs::Configs::fits))]
    fn fits(&self, number: Number) -> bool
        ensures { result ≡ fits self.now number }
    {
        match number {
            Number::Threads => 1 <= self.threads && self.threads <= 1024,
            Number::PageSize => {
                4 <= self.page_size && self.page_size <= 1 << 20 && self.page_size.is_power_of_two()
            }
            Number::Frames => 2 <= self.frames && self.frames <= 1 << 16,
            Number::Actions => 1 <= self.actions && self.actions <= 4096,
            Number::Mutable => 1 <= self.mutable && self.mutable <= self.resident,
            Number::Resident => self.resident < self.frames,
            Number::Journal => STEPS_LEAST <= self.journal && self.journal <= STEPS_MOST,
            Number::Stamp => self.stamp <= STEPS_MOST,
        }
    }

    /// What [`run_threads`](crate::run_threads) opens for these numbers: an opening with a slot and a rider for each
    /// thread, four riders for the crew, one for [`finish`](crate::Work::finish) and one to flush at the end, if that is
    /// wanted, and the duty of the crew. [`with_threads`](crate::with_threads) would run a thread for each of the last two,
    /// too: take them from `riders` for it.
    ///
    /// Fault: `Size` if a number is out of its range. [`out_of_range`](Config::out_of_range) says which.
    pub fn checked(&self) -> Result<(Opening, Duty), Fault>
        ensures size { all_fit self.now ≡ false → result ≡ Err Size }
        ensures ok { all_fit self.now ≡ true → IsOk result }
        ensures opening { IfOk result (λ both. both.0 ≡ opening_of self.now) }
        ensures duty { IfOk result (λ both. IsDutyOf self.now both.1) }
        ensures runs { IfOk result (λ both. can_run both.0 both.1 ≡ true) }
    {
        if self.out_of_range().is_some() {
            return Err(Fault::Size);
        }
        let sizes = Sizes::checked(self.page_size, self.frames, self.threads, self.actions);
        let params = sizes.ok_or(Fault::Size)?;
        let duty = Duty::checked(params, self.mutable, self.resident).ok_or(Fault::Size)?;
        let opening = Opening {
            params,
            riders: self.threads + 4 + self.behind(),
            journal: self.journal,
            stamp: self.stamp,
        };
        Ok((opening, duty.cutting_above(self.most_steps())))
    }

    // How many riders stand behind those of the threads and the crew.
    fn behind(&self) -> u64
        ensures { result ≡ behind self.now.flush_at_end }
    {
        if self.flush_at_end { 2 } else { 1 }
    }

    // How many steps the crew leaves in the journal at a turn's end. A session with 32 touches needs room for 33: if
    // it is refused, the journal has more than `journal - 33` steps, so the crew's next turn cuts.
    fn most_steps(&self) -> u64
        ensures { result ≡ most_steps self.now }
    {
        (self.journal / 2).min(self.journal.saturating_sub(STEPS_LEAST))
    }
}

/// Why a log wasn't run. It is displayed as its fault, and the number of its configuration that is out of range, if that is
/// why.
#[derive(Clone, Copy, Debug, PartialEq, Eq)]
pub struct Refusal {
    pub fault: Fault,
    pub number: Option<Number>,
}

impl fmt::Display for Refusal {
    fn fmt<W: fmt::Write>(&self, f: &mut fmt::Formatter<W>) -> fmt::Result {
        match self.number {
            Some(number) => write!(f, "{}: {number}", self.fault),
            None => write!(f, "{}", self.fault),
        }
    }
}

impl fmt::Display for Number {
    fn fmt<W: fmt::Write>(&self, f: &mut fmt::Formatter<W>) -> fmt::Result {
        let text = match self {
            Number::Threads => "threads: 1 to 1,024",
            Number::PageSize => "page_size: a power of two, 4 to 2^20",
            Number::Frames => "frames: 2 to 65,536",
            Number::Actions => "actions: 1 to 4,096",
            Number::Mutable => "mutable: 1 to resident",
            Number::Resident => "resident: less than frames",
            Number::Journal => "journal: 33 to 2^62",
            Number::Stamp => "stamp: at most 2^62",
        };
        write!(f, "{text}")
    }
}
