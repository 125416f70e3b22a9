ghost use Rattle.std.specs.Prelude.{◌≡◌, [], ◌∷◌, IfOk};
ghost use Rattle.hl_history.specs.Seats.{first_seat};

use crate::rule::ListRule;
use crate::view::{Room, SeatView};
use atomic_table::{Seat, Table};
use std::alloc::{AllocError, Global};
use std::marker::{Brand, Model};

/// The table of a history.
pub(crate) type HistoryTable = Table<(), SeatView, Room, ListRule, Global>;

/// A seat at the table of a history.
pub(crate) type HistorySeat = Seat<(), SeatView>;

/// Names the table of one history.
pub trait Named {
    ghost use Rattle.atomic_table.specs.Seated.{TableId};

    ghost table: { TableId };
}

impl Named for Brand {
    ghost use Rattle.std.specs.Prelude.{[]};

    ghost table = { record {
      words = 0;
      slots = 0;
      views_name = 0;
      atom = 0;
      block = 0;
      offset = 0;
      slot_names = [];
    } };
}

/// A history that nobody has opened yet: the empty list, and its records. It is the one witness that its
/// table is new: it is used up by `History::open`.
#[derive(Drop)]
pub struct Seed {
    pub(crate) table: HistoryTable,
    pub(crate) seat: HistorySeat,
    pub(crate) room: Room,
}

impl Model for Seed {
    ghost use Rattle.std.specs.Prelude.{◌≡◌, []};
    ghost use Rattle.hl_history.specs.Seats.{first_seat};
    ghost use Rattle.hl_history.specs.States.{SeedState, IsTableOf, IsRecorderSeat};

    ghost Value = { SeedState };

    ghost view = { λ s. record { records = s.room.records; table = s.table.shared.table_id } };

    ghost invariant = { λ s. IsTableOf s.room s.table.shared.key s.table.shared.table_id
        × IsRecorderSeat [] (first_seat s.room).records s.seat.id s.seat.me
        × (s.seat.table_id ≡ s.table.shared.table_id) };
}

impl Seed {
    /// Makes a history with so many records, or returns an error if memory is refused; then nothing is made.
    pub fn make(alloc: Global, records: usize) -> Result<Seed, AllocError>
        ensures { IfOk result (λ seed. seed.records ≡ records) }
    {
        let room = Room { records };
        let (table, seat) = laid(alloc, room)?;
        Ok(Seed { table, seat, room })
    }
}

// The table, and its first seat.
fn laid(alloc: Global, room: Room) -> Result<(HistoryTable, HistorySeat), AllocError>
    ensures table { IfOk result
        (λ t. (t.0.shared.key ≡ room) × (t.0.shared.table_id.words ≡ 1) × (t.0.shared.table_id.slots ≡ 0)) }
    ensures seat { IfOk result
        (λ t. (t.1.table_id ≡ t.0.shared.table_id) × (t.1.id ≡ 0) × (t.1.me ≡ (first_seat room, []))) }
{
    Table::of_words(alloc, &[0], &room)
}
