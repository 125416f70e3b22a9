ghost use Rattle.std.specs.Prelude.{◌≡◌};

use crate::view::View;

/// One atomic step of one thread, of the flusher, or of whoever runs the actions or cleans frames. Threads
/// are named by their slot, words by their address, pages by their number.
#[derive(Clone, Copy, Debug, PartialEq, Eq)]
pub enum Step {
    /// The thread of slot t becomes protected, at the current epoch, and sees the offsets as they are.
    Acquire { t: u64 },
    /// The protected thread of slot t moves on to the current epoch, and sees the offsets as they are.
    Refresh { t: u64 },
    /// The thread of slot t is protected no longer.
    Release { t: u64 },
    /// The current epoch rises by one, and a job of this tag is stored with the epoch that ended as its
    /// ticket.
    Bump { tag: u64 },
    /// As a bump; its action raises the safe read-only offset to what the read-only offset is now.
    Settle,
    /// As a bump; its action raises the closed offset to what the head is now.
    Close,
    /// The current epoch rises by one, and nothing is stored.
    Bare,
    /// Takes the oldest pending action, once its ticket is safe.
    Take,
    /// The taken action of this ticket was carried out.
    Done { ticket: u64 },
    /// The read-only offset moves up to address x, at most the tail.
    Raise { x: u64 },
    /// The head moves up to address x, the start of a page and at most the flushed offset.
    Shift { x: u64 },
    /// The thread of slot t allocates a record of n words, on one page.
    Allocate { t: u64, n: u64 },
    /// The thread of slot t sees these two offsets, neither below what it saw before.
    Look { t: u64, read_only: u64, head: u64 },
    /// The thread of slot t writes v to the word at address a.
    Write { t: u64, a: u64, v: u64 },
    /// The thread of slot t reads the word at address a.
    Read { t: u64, a: u64 },
    /// The flusher takes the least sealed page that is neither flushed nor in flight.
    FlushTake,
    /// The flush of this page ended, well or not.
    FlushDone { page: u64, ok: bool },
    /// Takes the least closed page that is neither freed nor being cleaned.
    CleanTake,
    /// The words of this page are zeroed: its frame is free.
    CleanDone { page: u64 },
}

/// The answer to an accepted step.
#[derive(Clone, Copy, Debug, PartialEq, Eq)]
pub enum Reply {
    /// To an acquire and a refresh: the slot's epoch and view from now on.
    Entered { epoch: u64, view: View },
    /// To a release.
    Left,
    /// To a bump, a settle and a close: the ticket of its action.
    Ticket(u64),
    /// To a bare bump: the epoch that ended, the number of the bump.
    Bumped(u64),
    /// To a take: the ticket of the action taken.
    Taken(u64),
    /// To a done of a job, if jobs are known by their tags alone: its tag.
    Ran(u64),
    /// To a done of a job that was run: what the job returned.
    Answer(u64),
    /// To a done of a settle: the safe read-only offset after it, an address.
    Settled(u64),
    /// To a done of a close: the closed offset after it, an address.
    Closed(u64),
    /// To a raise: the read-only offset.
    Raised(u64),
    /// To a shift: the head.
    Shifted(u64),
    /// To an allocation: the address of the record's first word.
    At(u64),
    /// To a look: the slot's view from now on.
    Looked(View),
    /// To a write.
    Written,
    /// To a read, if words are known by their addresses alone.
    Readable,
    /// To a read: the word.
    Value(u64),
    /// To a flush take and a clean take: the page.
    Page(u64),
    /// To a flush done: the flushed offset after it, an address.
    Flushed(u64),
    /// To a clean done: the page.
    Freed(u64),
}

// Rows of steps that never grow, of the crate `arrayvec`, want one.
impl Default for Step {
    ghost use Rattle.hl_model.specs.declared.step.Step.TheVariants.{Take};

    ghost is_default = { λ step. step ≡ Take };

    fn default() -> Step {
        Step::Take
    }
}
