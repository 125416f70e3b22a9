ghost use Rattle.std.specs.Prelude.{◌≡◌};
ghost use Rattle.hl_domain.specs.Domains.{IsHeld};

use hl_action::{Promise, Task};
use hl_epoch::Epochs;
use hl_keeper::Keeper;
use hl_words::{Realm, Recorder};
use std::marker::Model;

/// What lies under a domain's one lock: the keeper, and the recorder of the one list, at which the keeper stands.
pub(crate) struct Held<E: Epochs, F: Task, P: Promise, L: Realm> {
    // Threads that wait look at the lock's word, which lies before: on a line of a cache without what is changed under it.
    apart: [u64; 8],
    pub(crate) keeper: Keeper<E, F, P, L>,
    pub(crate) recorder: Recorder<L>,
}

impl<E: Epochs, F: Task, P: Promise, L: Realm> Model for Held<E, F, P, L> {
    ghost use Rattle.hl_domain.specs.Domains.{HeldState, IsHeld};

    ghost Value = { HeldState F };

    ghost view = { λ h. record { keeper = h.keeper; list = h.recorder } };

    ghost invariant = { λ h. IsHeld (record { sizes = L.sizes; stamp = L.stamp; limit = L.limit })
        (record { keeper = h.keeper; list = h.recorder }) };
}

impl<E: Epochs, F: Task, P: Promise, L: Realm> Held<E, F, P, L> {
    /// A keeper that stands at this recorder's list.
    pub(crate) fn new(keeper: Keeper<E, F, P, L>, recorder: Recorder<L>) -> Held<E, F, P, L>
        requires { IsHeld (record { sizes = L.sizes; stamp = L.stamp; limit = L.limit })
            (record { keeper = keeper; list = recorder }) }
        ensures { result ≡ record { keeper = keeper; list = recorder } }
    {
        Held {
            apart: [0; 8],
            keeper,
            recorder,
        }
    }

    /// What its type says of it.
    #[inline(always)]
    pub(crate) fn known(&self)
        ensures { IsHeld (record { sizes = L.sizes; stamp = L.stamp; limit = L.limit }) self.now }
    {
        let _ = &self.keeper;
    }

    /// Its parts.
    pub(crate) fn into_parts(self) -> (Keeper<E, F, P, L>, Recorder<L>)
        ensures { (result.0 ≡ self.keeper) × (result.1 ≡ self.list)
            × IsHeld (record { sizes = L.sizes; stamp = L.stamp; limit = L.limit }) self }
    {
        let Held {
            apart: _,
            keeper,
            recorder,
        } = self;
        (keeper, recorder)
    }
}

impl<E: Epochs + Drop, F: Task, P: Promise, L: Realm> Drop for Held<E, F, P, L> {
    fn drop(self) {
        let Held {
            apart: _,
            keeper: _,
            recorder: _,
        } = self;
    }
}
