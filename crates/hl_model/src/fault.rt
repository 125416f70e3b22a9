ghost use Rattle.std.specs.Prelude.{◌≡◌};
ghost use Rattle.hl_model.specs.Faults.{number_of};

use thiserror::Error;

/// Why a step, a line or a call was refused. What was refused changed nothing, unless the call says
/// otherwise.
#[derive(Clone, Copy, Debug, PartialEq, Eq, Error)]
pub enum Fault {
    /// The slot's number is S or more.
    #[error("fault 1 NoSlot")]
    NoSlot,
    /// The slot's thread is protected already.
    #[error("fault 2 Occupied")]
    Occupied,
    /// The slot's thread isn't protected.
    #[error("fault 3 NotProtected")]
    NotProtected,
    /// A look brings an offset below the view's.
    #[error("fault 4 Stale")]
    Stale,
    /// The drain list has D actions.
    #[error("fault 5 DrainFull")]
    DrainFull,
    /// The current epoch is the last, 2^62.
    #[error("fault 6 EpochsSpent")]
    EpochsSpent,
    /// No action is pending.
    #[error("fault 7 Empty")]
    Empty,
    /// The oldest pending action's ticket, `front`, is above the safe epoch.
    #[error("fault 8 NotReady front {front} safe {safe}")]
    NotReady { front: u64, safe: u64 },
    /// The ticket isn't that of an action that was taken and isn't done.
    #[error("fault 9 NotTaken")]
    NotTaken,
    /// The address isn't above the offset that it is to move.
    #[error("fault 10 NotAbove")]
    NotAbove,
    /// The address is above the tail.
    #[error("fault 11 AboveTail")]
    AboveTail,
    /// No page begins at the address.
    #[error("fault 12 NotPage")]
    NotPage,
    /// The address is above the flushed offset.
    #[error("fault 13 AboveFlushed")]
    AboveFlushed,
    /// A record of no word, or of more words than a page has. (Sizes out of range are no fault of a step:
    /// [`Params::checked`](crate::Params::checked) is None there, and callers say `Size` for it.)
    #[error("fault 14 Size")]
    Size,
    /// The record would enter this page, whose frame isn't free.
    #[error("fault 15 Busy page {page}")]
    Busy { page: u64 },
    /// The record would end above 2^48.
    #[error("fault 16 SpaceSpent")]
    SpaceSpent,
    /// The address is below the view's read-only offset.
    #[error("fault 17 Below read_only {read_only}")]
    Below { read_only: u64 },
    /// The address is at the view's tail or above.
    #[error("fault 18 Beyond tail {tail}")]
    Beyond { tail: u64 },
    /// The address is below the view's head.
    #[error("fault 19 Evicted head {head}")]
    Evicted { head: u64 },
    /// No page waits to be flushed.
    #[error("fault 20 NoneSealed")]
    NoneSealed,
    /// The page isn't being flushed.
    #[error("fault 21 NotInFlight")]
    NotInFlight,
    /// No page waits to be cleaned.
    #[error("fault 22 NoneClosed")]
    NoneClosed,
    /// The page isn't being cleaned.
    #[error("fault 23 NotCleaning")]
    NotCleaning,
    /// No job of that tag is left.
    #[error("fault 24 NoJob")]
    NoJob,
    /// The pass has 32 looks and stores that no locked call has entered yet.
    #[error("fault 25 TouchesFull")]
    TouchesFull,
    /// What was handed in isn't what is kept; `stamp` tells what is.
    #[error("fault 26 Stranger stamp {stamp}")]
    Stranger { stamp: u64 },
    /// The journal has no room for the call's steps.
    #[error("fault 27 JournalFull")]
    JournalFull,
    /// A page could not be written.
    #[error("fault 28 Device")]
    Device,
    /// Memory was refused, or a thread.
    #[error("fault 29 OutOfMemory")]
    OutOfMemory,
    /// Line `n` of a script, counted from 1, is no step.
    #[error("fault 30 BadLine n {n}")]
    BadLine { n: u64 },
    /// A reader or a writer failed, or all reads that were allowed were made.
    #[error("fault 31 Stream")]
    Stream,
    /// 4,096 epochs have ended and aren't safe.
    #[error("fault 32 WindowFull")]
    WindowFull,
}

impl Fault {
    /// Its number, 1 to 32.
    pub fn number(self) -> u8
        ensures { result ≡ number_of self }
    {
        match self {
            Fault::NoSlot => 1,
            Fault::Occupied => 2,
            Fault::NotProtected => 3,
            Fault::Stale => 4,
            Fault::DrainFull => 5,
            Fault::EpochsSpent => 6,
            Fault::Empty => 7,
            Fault::NotReady { .. } => 8,
            Fault::NotTaken => 9,
            Fault::NotAbove => 10,
            Fault::AboveTail => 11,
            Fault::NotPage => 12,
            Fault::AboveFlushed => 13,
            Fault::Size => 14,
            Fault::Busy { .. } => 15,
            Fault::SpaceSpent => 16,
            Fault::Below { .. } => 17,
            Fault::Beyond { .. } => 18,
            Fault::Evicted { .. } => 19,
            Fault::NoneSealed => 20,
            Fault::NotInFlight => 21,
            Fault::NoneClosed => 22,
            Fault::NotCleaning => 23,
            Fault::NoJob => 24,
            Fault::TouchesFull => 25,
            Fault::Stranger { .. } => 26,
            Fault::JournalFull => 27,
            Fault::Device => 28,
            Fault::OutOfMemory => 29,
            Fault::BadLine { .. } => 30,
            Fault::Stream => 31,
            Fault::WindowFull => 32,
        }
    }
}
