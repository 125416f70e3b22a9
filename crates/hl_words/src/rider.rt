ghost use Rattle.std.specs.Prelude.{◌≡◌};

use crate::seed::{HistoryOf, Realm, WordSeat};
use hl_history::CallRecord;
use std::marker::Model;
use std::sync::ledger::Share;

/// The right to store into cells and to load any word, with a record of its calls that met the one list. It
/// can go to another thread. Contracts see what it stored and loaded, how many journal steps it entered, and
/// these calls, the newest first.
#[derive(Drop)]
pub struct Rider<L: Realm> {
    pub(crate) seat: WordSeat,
    pub(crate) share: Share<L>,
    pub(crate) entered: u64,
    pub(crate) calls: CallRecord<HistoryOf<L>>,
}

impl<L: Realm> Model for Rider<L> {
    ghost use Rattle.std.specs.Prelude.{◌≡◌, []};
    ghost use Rattle.hl_words.specs.States.{RiderState, first_rider, AreTied};
    ghost use Rattle.hl_words.specs.Seats.{rider_seat};

    ghost Value = { RiderState };

    ghost view = { λ r. record { view = first_rider r.seat.me.0; share = r.entered; calls = r.calls } };

    ghost invariant = { λ r. (r.seat.me ≡ (rider_seat (first_rider r.seat.me.0), []))
        × (r.seat.table_id ≡ L.table.words) × (r.share.parts ≡ 1) × (r.share.amount ≡ r.entered)
        × AreTied (first_rider r.seat.me.0).touches r.calls };
}

impl<L: Realm> Rider<L> {
    /// How many journal steps it entered.
    pub fn share(&self) -> u64
        ensures { result ≡ self.now.share }
    {
        self.entered
    }
}
