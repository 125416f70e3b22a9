//! Threads that wait for one another, so that all are in their sessions at a time.
use std::sync::Wait;
use std::sync::atomic::{AtomicU64, Ordering};
use std::thread::Parker;
use std::time::Duration;

/// How long a thread waits before it looks again, in milliseconds: a thousand threads that look leave time to the others.
const NAP: u64 = 10;

/// How often it looks at most.
const LOOKS: u64 = 500;

/// How many threads there are, and how many of them have come.
#[derive(Drop)]
pub(crate) struct Gathering {
    all: u64,
    come: AtomicU64,
}

impl Gathering {
    pub(crate) fn of(all: u64) -> Gathering {
        Gathering {
            all,
            come: AtomicU64::new(0),
        }
    }

    /// Waits until all have come. A system may make fewer threads, and then some come after others: whoever waited in vain
    /// counts for all, so that nobody else does.
    pub(crate) fn wait_for_all(&self, rt: &impl Wait) {
        self.come.fetch_add(1, Ordering::SeqCst);
        for _ in 0..LOOKS {
            if self.all <= self.come.load(Ordering::SeqCst) {
                return;
            }
            Parker::new().park_timeout(rt, Duration::from_millis(NAP));
        }
        self.come.fetch_add(self.all, Ordering::SeqCst);
    }
}
