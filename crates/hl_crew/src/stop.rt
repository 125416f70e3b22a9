ghost use Rattle.std.specs.Prelude.{◌≡◌};
ghost use Rattle.hl_crew.specs.Naps.{nap_of, vain_after};

use std::sync::Wait;
use std::sync::atomic::{AtomicBool, Ordering};
use std::thread::Parker;
use std::time::Duration;

/// How long a crew sleeps at most after the first turn that got nowhere, in milliseconds.
const FIRST_NAP: u64 = 1;

/// How often that is doubled, once for each such turn more in a row.
const DOUBLINGS: u64 = 8;

/// The longest nap.
const LONGEST_NAP: u64 = 160;

/// How many turns a crew makes at most once its stop was given.
pub(crate) const LAST_TURNS: u64 = 1_000;

/// Ends a crew that serves, and wakes it before. Any thread may use it by reference, and neither call waits.
#[derive(Drop)]
pub struct Stop {
    is_given: AtomicBool,
    sleeper: Parker,
}

/// That this stop was given. Only [`Stop::stopped`] makes one, so a crew that serves can't end its turns without.
#[derive(Clone, Copy)]
pub(crate) struct Stopped<'x> {
    _stop: &'x Stop,
}

impl Stop {
    /// Returns a stop that wasn't given yet, for one crew.
    pub const fn new() -> Stop {
        Stop {
            is_given: AtomicBool::new(false),
            sleeper: Parker::new(),
        }
    }

    /// Gives the stop: the crew ends once it has nothing left to do, or has made 1,000 turns more.
    pub fn give(&self) {
        self.is_given.store(true, Ordering::SeqCst);
        self.sleeper.unpark();
    }

    /// Wakes the crew if it sleeps. For a thread that has entered a page, or refreshed after one: a
    /// crew that nobody wakes looks at least every 160 milliseconds, and sooner after it had
    /// something to do.
    pub fn ring(&self) {
        self.sleeper.unpark();
    }

    /// Returns whether the stop was given.
    pub fn is_given(&self) -> bool {
        self.stopped().is_some()
    }

    /// Returns that the stop was given; `None` if it wasn't.
    pub(crate) fn stopped(&self) -> Option<Stopped<'_>> {
        if self.is_given.load(Ordering::SeqCst) {
            Some(Stopped { _stop: self })
        } else {
            None
        }
    }

    /// Rests after a turn, unless that got somewhere, with `vain` turns in a row before it that got nowhere. Returns how
    /// many there are in a row after it.
    pub(crate) fn rest_unless(&self, rt: &impl Wait, moved: bool, vain: u64) -> u64
        ensures { result ≡ vain_after moved vain }
    {
        if moved {
            return 0;
        }
        let nap = Duration::from_millis(nap_of(vain));
        self.sleeper.park_timeout(rt, nap);
        vain.saturating_add(1)
    }
}

// Returns how long a crew sleeps at most after a turn that got nowhere, in milliseconds, with `vain` such turns in a row
// before it.
fn nap_of(vain: u64) -> u64
    ensures { result ≡ nap_of vain }
{
    LONGEST_NAP.min(FIRST_NAP << vain.min(DOUBLINGS))
}
