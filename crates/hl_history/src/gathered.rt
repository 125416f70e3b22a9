ghost use Rattle.std.specs.Prelude.{◌≡◌, [], ◌∷◌};

use crate::recorder::Recorder;
use crate::seed::{HistorySeat, Named};
use std::marker::{Model, PhantomData};

/// The right to put steps behind the list, and the records that no thread has: all at the opening and at the
/// end. Contracts see the list, and these records. `History::deal` hands one out, and `History::take_back`
/// takes one in.
#[derive(Drop)]
pub struct Gathered<L: Named> {
    pub(crate) seat: HistorySeat,
    pub(crate) of: PhantomData<L>,
}

impl<L: Named> Model for Gathered<L> {
    ghost use Rattle.std.specs.Prelude.{◌≡◌};
    ghost use Rattle.hl_history.specs.States.{GatheredState, IsRecorderSeat};

    ghost Value = { GatheredState };

    ghost view = { λ g. record { list = g.seat.me.0.list; records = g.seat.me.0.records } };

    ghost invariant = { λ g. IsRecorderSeat g.seat.me.0.list g.seat.me.0.records g.seat.id g.seat.me
        × (g.seat.table_id ≡ L.table) };
}

impl<L: Named> Gathered<L> {
    /// Returns the recorder, once each record was dealt out.
    pub fn into_recorder(self) -> Recorder<L>
        requires { self.records ≡ [] }
        ensures { result ≡ self.list }
    {
        let Gathered { seat, of: _ } = self;
        Recorder {
            seat,
            of: PhantomData,
        }
    }
}
