use hl_crew::{Gate, Taken};
use std::sync::atomic::{AtomicBool, AtomicU64, Ordering};

/// Holds page 0 until page 1 has begun.
#[derive(Drop)]
pub(crate) struct HoldsFirst {
    has_begun: AtomicBool,
}

impl HoldsFirst {
    pub(crate) fn new() -> HoldsFirst {
        HoldsFirst {
            has_begun: AtomicBool::new(false),
        }
    }
}

impl Gate for HoldsFirst {
    fn begun(&self, taken: Taken) {
        if taken.page() == 1 {
            self.has_begun.store(true, Ordering::SeqCst);
        }
    }

    fn may_write(&self, page: u64) -> bool {
        page != 0 || self.has_begun.load(Ordering::SeqCst)
    }
}

/// Never lets page 0 be written, and counts how often it was asked for it.
#[derive(Drop)]
pub(crate) struct KeepsFirst {
    asks: AtomicU64,
}

impl KeepsFirst {
    pub(crate) fn new() -> KeepsFirst {
        KeepsFirst {
            asks: AtomicU64::new(0),
        }
    }

    pub(crate) fn asks(&self) -> u64 {
        self.asks.load(Ordering::SeqCst)
    }
}

impl Gate for KeepsFirst {
    fn begun(&self, _taken: Taken) {}

    fn may_write(&self, page: u64) -> bool {
        if page == 0 {
            self.asks.fetch_add(1, Ordering::SeqCst);
        }
        page != 0
    }
}
