//! What the flusher of a crew that serves waits for: its own settle and close alone.
ghost use Rattle.std.specs.Prelude.{◌≡◌};
ghost use Rattle.hl_crew.specs.Lags.{nothing_asked, asked_at, asked_after, is_waiting};

use hl_model::{Six, Step};

/// What the flusher asked for: to where it brought the read-only offset and the head in this turn, and to where its newest
/// settle will bring the safe read-only offset, and its newest close the closed one.
#[derive(Clone, Copy)]
pub(crate) struct Asked {
    read_only: u64,
    head: u64,
    safe_read_only: u64,
    closed: u64,
}

impl Asked {
    /// Returns that nothing was asked for.
    pub(crate) fn none() -> Asked
        ensures { result ≡ nothing_asked }
    {
        Asked {
            read_only: 0,
            head: 0,
            safe_read_only: 0,
            closed: 0,
        }
    }

    /// Returns the same at the beginning of a turn, at these offsets.
    pub(crate) fn at(self, six: Six) -> Asked
        ensures { result ≡ asked_at six self }
    {
        Asked {
            read_only: six.read_only,
            head: six.head,
            ..self
        }
    }

    /// Returns the same once this step was made.
    pub(crate) fn after(self, step: Step) -> Asked
        ensures { result ≡ asked_after step self }
    {
        match step {
            Step::Raise { x } => Asked {
                read_only: x,
                ..self
            },
            Step::Settle => Asked {
                safe_read_only: self.read_only,
                ..self
            },
            Step::Shift { x } => Asked { head: x, ..self },
            Step::Close => Asked {
                closed: self.head,
                ..self
            },
            _ => self,
        }
    }

    /// Returns whether a step of the lag waits, at these offsets: a raise and a settle for the flusher's last settle, a
    /// shift and a close for its last close.
    pub(crate) fn waits_for(self, six: Six, step: Step) -> bool
        ensures { result ≡ is_waiting six self step }
    {
        match step {
            Step::Raise { .. } | Step::Settle => six.safe_read_only < self.safe_read_only,
            Step::Shift { .. } | Step::Close => six.closed < self.closed,
            _ => false,
        }
    }
}
