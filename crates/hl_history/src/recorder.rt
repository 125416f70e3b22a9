ghost use Rattle.std.specs.Prelude.{◌≡◌, []};

use crate::gathered::Gathered;
use crate::seed::{HistorySeat, Named};
use crate::view::SeatView;
use atomic_table::Badge;
use std::marker::{Model, PhantomData};

/// The right to put steps behind the list, once each record is dealt out. Contracts see it as the list.
#[derive(Drop)]
pub struct Recorder<L: Named> {
    pub(crate) seat: HistorySeat,
    pub(crate) of: PhantomData<L>,
}

impl<L: Named> Model for Recorder<L> {
    ghost use Rattle.std.specs.Prelude.{◌≡◌, List, []};
    ghost use Rattle.hl_model.specs.declared.step.Step.{Step};
    ghost use Rattle.hl_history.specs.States.{IsRecorderSeat};

    ghost Value = { List Step };

    ghost view = { λ s. s.seat.me.0.list };

    ghost invariant = { λ s. IsRecorderSeat s.seat.me.0.list [] s.seat.id s.seat.me
        × (s.seat.table_id ≡ L.table) };
}

impl<L: Named> Recorder<L> {
    /// The recorder at the end, to take the records back.
    pub fn gather(self) -> Gathered<L>
        ensures { result ≡ record { list = self; records = [] } }
    {
        let Recorder { seat, of: _ } = self;
        Gathered {
            seat,
            of: PhantomData,
        }
    }
}

/// What one thread's calls met and did. It can go to another thread. Contracts see it as these calls, the
/// newest first.
#[derive(Drop)]
pub struct CallRecord<L: Named> {
    // No seat, since `History::enter` takes it out of a `&mut`, and a badge can stand in for it there.
    pub(crate) badge: Badge<SeatView>,
    pub(crate) of: PhantomData<L>,
}

impl<L: Named> Model for CallRecord<L> {
    ghost use Rattle.std.specs.Prelude.{◌≡◌, List, [], ◌∷◌};
    ghost use Rattle.hl_history.specs.declared.view.Entry.{Entry};
    ghost use Rattle.hl_history.specs.Seats.{record_seat};
    ghost use Rattle.hl_history.specs.States.{record_of};

    ghost Value = { List Entry };

    ghost view = { λ d. record_of d.badge.views };

    ghost invariant = { λ d. (d.badge.views ≡ record_seat (record_of d.badge.views) ∷ [])
        × (d.badge.table_id ≡ L.table) };
}
