//! Jobs that several modules store.
ghost use Rattle.std.specs.Prelude.{◌≡◌, ◌<◌, ◌^◌};
ghost use Rattle.hl_action.specs.Firings.{IsSafe};

use hl_action::{Firing, Promise, Task};
use hl_cells::Engine;
use hl_epoch::Epochs;
use hl_model::{Fault, Params, Tagged};
use std::alloc::Global;
use std::sync::atomic::{AtomicU64, Ordering};

/// Any answer will do.
pub(crate) struct Anything;

impl Promise for Anything {
    ghost keeps = { λ tag firing answer. answer ≡ answer };
}

/// Answers its own number.
#[derive(Drop)]
pub(crate) struct Tells {
    pub(crate) number: u64,
}

impl Task for Tells {
    ghost can = { λ job firing. job.number < 2 ^ 64 };

    ghost gives = { λ job firing answer. answer ≡ job.number };

    fn call(self, _firing: Firing) -> u64 {
        self.number
    }
}

/// Counts its calls.
#[derive(Drop)]
pub(crate) struct Counted<'a> {
    pub(crate) calls: &'a AtomicU64,
}

impl<'a> Task for Counted<'a> {
    ghost can = { λ job firing. IsSafe firing };

    ghost gives = { λ job firing answer. answer ≡ answer };

    fn call(self, _firing: Firing) -> u64 {
        self.calls.fetch_add(1, Ordering::SeqCst)
    }
}

/// Can be neither copied nor made from nothing.
#[derive(Debug, Drop, PartialEq, Eq)]
pub(crate) struct Job {
    pub(crate) tag: u64,
}

impl Tagged for Job {
    ghost tag = { λ job. job.tag };

    fn tag(&self) -> u64 {
        self.tag
    }
}

pub(crate) type TestEngine<E> = Engine<E, Tells, Anything>;

/// An engine with pages of 4 words in 2 frames, 2 slots and 4 places.
pub(crate) fn small_engine<E: Epochs + Drop>(alloc: Global) -> Result<TestEngine<E>, Fault> {
    Engine::open(alloc, Params::checked(4, 2, 2, 4).ok_or(Fault::Size)?)
}
