use crate::seed::Realm;
use crate::view::SeatView;
use atomic_table::Badge;
use std::marker::{Model, PhantomData};

/// A rider's past: all that it did to cells up to a moment, and its calls. It takes no bytes, and can go to
/// another thread, whose rider is then told it. Contracts see it as the rider's name and these touches.
#[derive(Drop)]
pub struct Past<L: Realm> {
    pub(crate) badge: Badge<SeatView>,
    pub(crate) of: PhantomData<L>,
}

impl<L: Realm> Model for Past<L> {
    ghost use Rattle.std.specs.Prelude.{◌≡◌, [], ◌∷◌};
    ghost use Rattle.hl_words.specs.declared.view.Known.{Known};
    ghost use Rattle.hl_words.specs.Seats.{knows_seat};
    ghost use Rattle.hl_words.specs.States.{known_by};

    ghost Value = { Known };

    ghost view = { λ s. known_by s.badge.views };

    ghost invariant = { λ s. (s.badge.views ≡ knows_seat (known_by s.badge.views) ∷ [])
        × (s.badge.table_id ≡ L.table.words) };
}
