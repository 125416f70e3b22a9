//! What a log's threads and its crew tell each other without the lock.
use hl_crew::Stop;
use std::sync::atomic::{AtomicU64, Ordering};

/// What ends a crew and wakes it, and whether the device took the crew's newest writes.
#[derive(Drop)]
pub(crate) struct Signals {
    pub(crate) stop: Stop,
    pub(crate) refusals: Refusals,
}

impl Signals {
    /// The stop wasn't given, and nothing was refused.
    pub(crate) fn new() -> Signals {
        Signals {
            stop: Stop::new(),
            refusals: Refusals::none(),
        }
    }
}

/// How many of a crew's newest writes the device refused, one after another.
#[derive(Drop)]
pub(crate) struct Refusals {
    in_a_row: AtomicU64,
}

impl Refusals {
    fn none() -> Refusals {
        Refusals {
            in_a_row: AtomicU64::new(0),
        }
    }

    /// Notes whether the device took a write.
    pub(crate) fn note(&self, written: bool) {
        if written {
            self.in_a_row.store(0, Ordering::SeqCst);
        } else {
            self.in_a_row.fetch_add(1, Ordering::SeqCst);
        }
    }

    /// Returns how many there are since the last write that the device took.
    pub(crate) fn in_a_row(&self) -> u64 {
        self.in_a_row.load(Ordering::SeqCst)
    }
}
