//! Whether the flusher has ended, for whoever looks for pages.
ghost use Rattle.std.specs.Prelude.{◌≡◌};

use std::sync::atomic::{AtomicBool, Ordering};

/// Raised once the flusher makes no more turns, and not lowered again.
#[derive(Drop)]
pub(crate) struct EndFlag {
    is_raised: AtomicBool,
}

/// That the flag was raised. Only [`EndFlag::raise`] makes one, so a flusher's thread can't end without.
#[derive(Drop)]
pub(crate) struct Raised {
    _made: (),
}

/// Whether the flag was raised when somebody looked at it. Only [`EndFlag::seen`] makes one, so nobody can guess.
#[derive(Clone, Copy)]
pub(crate) struct Seen {
    is_raised: bool,
}

impl EndFlag {
    /// Returns a flag that wasn't raised yet.
    pub(crate) const fn new() -> EndFlag {
        EndFlag {
            is_raised: AtomicBool::new(false),
        }
    }

    /// Raises the flag.
    pub(crate) fn raise(&self) -> Raised {
        self.is_raised.store(true, Ordering::SeqCst);
        Raised { _made: () }
    }

    /// Looks at the flag.
    pub(crate) fn seen(&self) -> Seen {
        Seen {
            is_raised: self.is_raised.load(Ordering::SeqCst),
        }
    }
}

impl Seen {
    /// Returns whether it was raised.
    pub(crate) fn is_raised(self) -> bool
        ensures { result ≡ self.is_raised }
    {
        self.is_raised
    }
}
