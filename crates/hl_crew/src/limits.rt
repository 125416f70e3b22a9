ghost use Rattle.std.specs.Prelude.{◌≡◌};
ghost use Rattle.hl_crew.specs.Limited.{duty_limits, run_limits};
ghost use Rattle.hl_crew.specs.Overs.{makes_room};

use crate::duty::Duty;

/// When a crew cuts the journal.
#[derive(Clone, Copy, Debug, PartialEq, Eq)]
pub enum Cuts {
    /// Never.
    Never,
    /// At the end of each turn. A full journal ends the turns all the same.
    EachTurn,
    /// At the end of a turn that leaves more than this many steps, and whenever it is full.
    Above(u64),
}

/// What a crew keeps to: how many pages at the tail may be written and how many may be read, when it cuts, and how many
/// turns it makes. Only what a crew is given makes them.
#[derive(Clone, Copy, Debug, PartialEq, Eq)]
pub struct Limits {
    mutable: u64,
    resident: u64,
    cuts: Cuts,
    turns: u64,
}

impl Limits {
    /// Returns those of a crew that serves by this duty.
    pub(crate) fn of(duty: Duty) -> Limits
        ensures { result ≡ duty_limits duty }
    {
        Limits {
            mutable: duty.mutable(),
            resident: duty.resident(),
            cuts: match duty.cut_above() {
                Some(steps) => Cuts::Above(steps),
                None => Cuts::Never,
            },
            turns: u64::MAX,
        }
    }

    /// Returns those of a crew that makes a number of turns, and cuts at the end of each, or never.
    pub(crate) fn of_run(mutable: u64, resident: u64, turns: u64, cut: bool) -> Limits
        ensures { result ≡ run_limits mutable resident turns cut }
    {
        Limits {
            mutable,
            resident,
            cuts: if cut { Cuts::EachTurn } else { Cuts::Never },
            turns,
        }
    }

    /// Returns how many pages at the tail may be written.
    pub fn mutable(self) -> u64
        ensures { result ≡ self.mutable }
    {
        self.mutable
    }

    /// Returns how many pages at the tail may be read.
    pub fn resident(self) -> u64
        ensures { result ≡ self.resident }
    {
        self.resident
    }

    /// Returns when the journal is cut.
    pub fn cuts(self) -> Cuts
        ensures { result ≡ self.cuts }
    {
        self.cuts
    }

    /// Returns how many turns the flusher makes, and how often the cleaner looks for a page at most. It is 2^64 - 1 if the
    /// crew serves: then the turns end by a stop.
    pub fn turns(self) -> u64
        ensures { result ≡ self.turns }
    {
        self.turns
    }

    /// Returns whether a full journal is cut, so that the turns go on.
    pub(crate) fn makes_room(self) -> bool
        ensures { result ≡ makes_room self.cuts }
    {
        matches!(self.cuts, Cuts::Above(_))
    }
}
