//! How a session wakes its crew.
use super::Session;
use hl_action::{Promise, Task};
use hl_epoch::Epochs;
use hl_words::Realm;

/// That a session has woken its crew, if it has one. Only [`Session::rung`] makes one, so a round of help can't begin
/// without.
#[derive(Drop)]
pub(super) struct Rung {
    _made: (),
}

impl<'a, R, L: Realm, F: Task, P: Promise, E: Epochs + Drop> Session<'a, R, L, F, P, E> {
    /// Wakes the crew of [`with_threads`](crate::with_threads) if it sleeps, and takes no lock: for a thread whose
    /// allocation was `Busy`. It does nothing in a session that was entered otherwise, whose crew has a
    /// [`Stop`](hl_crew::Stop::ring) at hand.
    pub fn ring(&self) {
        if let Some(bell) = self.beside.bell {
            bell.stop.ring();
        }
    }

    /// How many of the crew's newest writes the device refused, one after another, without the lock: 0 once it takes one, and
    /// in a session beside which no crew of [`with_threads`](crate::with_threads) serves. While it isn't 0 no frame comes
    /// free, and a session that was told `Busy` waits for the device.
    pub fn refused_writes(&self) -> u64 {
        match self.beside.bell {
            Some(bell) => bell.refusals.in_a_row(),
            None => 0,
        }
    }

    /// The same, for a round of help.
    pub(super) fn rung(&self) -> Rung {
        self.ring();
        Rung { _made: () }
    }
}
