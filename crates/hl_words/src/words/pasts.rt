//! What one rider did, told to another.
ghost use Rattle.std.specs.Prelude.{◌≡◌};
ghost use Rattle.hl_words.specs.Views.{past_of, told};
ghost use Rattle.hl_words.specs.States.{with_view};

use crate::past::Past;
use crate::rider::Rider;
use crate::rule::{Again, Tell};
use crate::seed::Realm;
use crate::words::Words;
use atomic_table::Badge;
use std::marker::PhantomData;
use std::mem;

impl<L: Realm> Words<L> {
    /// The rider's past: all that it did to cells up to now, and its calls.
    pub fn past(&self, rider: &mut Rider<L>) -> Past<L>
        ensures past { result ≡ past_of rider.old.view }
        ensures same { rider.new ≡ rider.old }
    {
        let seat = self.table.shared.split_seat::<Tell>(&mut rider.seat);
        Past {
            badge: seat.into_badge(),
            of: PhantomData,
        }
    }

    /// The same past once more, to be told to one more rider.
    pub fn past_again(&self, past: &mut Past<L>) -> Past<L>
        ensures copy { result ≡ past.old }
        ensures same { past.new ≡ past.old }
    {
        let mut seat = mem::replace(&mut past.badge, Badge::blank()).into_seat();
        let other = self.table.shared.split_seat::<Again>(&mut seat);
        past.badge = seat.into_badge();
        Past {
            badge: other.into_badge(),
            of: PhantomData,
        }
    }

    /// Tells a rider the past of another. The rider's view has it: all that the other did up to there stands
    /// before what the rider does from now on, in the one order that `close` tells.
    pub fn tell_past(&self, rider: &mut Rider<L>, past: Past<L>)
        ensures { rider.new ≡ with_view (told past rider.old.view) rider.old }
    {
        let Past { badge, of: _ } = past;
        let shared = &self.table.shared;
        shared.join_seat::<Tell>(&mut rider.seat, badge.into_seat());
    }
}
