ghost use Rattle.std.specs.Prelude.{◌≡◌, ◌+◌, ◌^◌, ◌≤◌};

use crate::rider::Rider;
use crate::seed::{Realm, WordSeat};
use std::marker::Model;
use std::sync::ledger::{Book, Share};

/// The right to store its four words, and to count journal steps. Contracts see its stores, how many steps
/// all riders entered, and how far the newest call that was noted left the one list.
#[derive(Drop)]
pub struct Master<L: Realm> {
    pub(crate) seat: WordSeat,
    pub(crate) book: Book<L>,
    // It has no part of the ledger until the end, when the riders' shares are merged into it.
    pub(crate) share: Share<L>,
    pub(crate) total: u64,
}

impl<L: Realm> Model for Master<L> {
    ghost use Rattle.std.specs.Prelude.{◌≡◌, ◌^◌, ◌≤◌, []};
    ghost use Rattle.hl_words.specs.States.{MasterState, IsMasterSeat};

    ghost Value = { MasterState };

    ghost view = { λ m. record {
      offsets = m.seat.me.0.offsets;
      total = m.total;
      called = m.seat.me.0.called;
    } };

    ghost invariant = { λ m. IsMasterSeat m.seat.me.0.called m.seat.me.0.offsets [] m.seat.id m.seat.me
        × (m.seat.table_id ≡ L.table.words) × (m.book.total ≡ m.total) × (m.total ≤ 2 ^ 62)
        × (m.seat.me.0.called.steps ≤ m.total) × (m.share.parts ≡ 0) × (m.share.amount ≡ 0) };
}

impl<L: Realm> Master<L> {
    /// How many journal steps all riders entered: at most 2^62.
    pub fn total(&self) -> u64
        ensures value { result ≡ self.now.total }
        ensures bound { result ≤ 2 ^ 62 }
    {
        self.total
    }

    /// Counts journal steps for a rider: its share and the total rise by them. The caller sees to it that the
    /// total stays at most 2^62.
    #[inline(always)]
    pub fn enter(&mut self, rider: &mut Rider<L>, steps: u64)
        requires { self.old.total + steps ≤ 2 ^ 62 }
        ensures total { let old = self.old
            in self.new ≡ record { offsets = old.offsets; total = old.total + steps; called = old.called } }
        ensures share { let old = rider.old
            in rider.new ≡ record { view = old.view; share = old.share + steps; calls = old.calls } }
    {
        let Master { book, total, .. } = self;
        let Rider { share, entered, .. } = rider;
        book.audit(share);
        book.add(share, steps);
        *entered += steps;
        *total += steps;
    }
}
