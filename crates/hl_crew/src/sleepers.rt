//! Where those that look for pages sleep, and how they are woken.
ghost use Rattle.std.specs.Prelude.{◌≡◌, false};

use crate::ended::{Raised, Seen};
use crate::woken::Woken;
use std::sync::Wait;
use std::thread::Parker;

/// Where one thread sleeps.
#[derive(Drop)]
pub(crate) struct Sleeper {
    parker: Parker,
}

impl Sleeper {
    /// Returns one where nobody sleeps.
    pub(crate) const fn new() -> Sleeper {
        Sleeper {
            parker: Parker::new(),
        }
    }

    /// Sleeps until somebody wakes it. That the flusher had ended was not seen before: after that nobody may wake it.
    pub(crate) fn sleep(&self, rt: &impl Wait, seen: Seen)
        requires { seen.is_raised ≡ false }
    {
        self.parker.park(rt);
    }

    /// Wakes the thread, or lets its next sleep end at once.
    pub(crate) fn wake(&self) {
        self.parker.unpark();
    }
}

/// Where the cleaner sleeps, and where the writers do if they take their pages themselves.
#[derive(Drop)]
pub(crate) struct Sleepers {
    pub(crate) cleaner: Sleeper,
    pub(crate) first: Sleeper,
    pub(crate) second: Sleeper,
}

/// That all were woken once it was known that the flusher makes no more turns. Only [`Sleepers::wake_last`] makes one,
/// so a flusher's thread can't end without.
#[derive(Drop)]
pub(crate) struct AllTold {
    _made: (),
}

impl Sleepers {
    /// Returns those of a crew.
    pub(crate) const fn new() -> Sleepers {
        Sleepers {
            cleaner: Sleeper::new(),
            first: Sleeper::new(),
            second: Sleeper::new(),
        }
    }

    /// Wakes these.
    pub(crate) fn wake(&self, woken: Woken) {
        if woken.writers {
            self.first.wake();
            self.second.wake();
        }
        if woken.cleaner {
            self.cleaner.wake();
        }
    }

    /// Wakes all, for the last time: whoever looks once more sees that the flusher has ended.
    pub(crate) fn wake_last(&self, _raised: Raised) -> AllTold {
        self.wake(Woken::all());
        AllTold { _made: () }
    }
}
