ghost use Rattle.std.specs.Prelude.{◌≡◌, ◌+◌, ◌*◌, ◌^◌, ◌≤◌, [], IfOk, IfErr, replicate};
ghost use Rattle.hl_model.specs.declared.fault.Fault.TheVariants.{OutOfMemory};
ghost use Rattle.hl_words.specs.Seats.{first_seat};

use crate::rule::WordRule;
use crate::view::{Room, SeatView};
use crate::which::MORE;
use atomic_table::{Seat, Table};
use hl_history::Named;
use hl_model::{Fault, HasSizes, Sizes};
use std::alloc::{AllocError, Global};
use std::marker::{Brand, Model, PhantomData};
use std::sync::ledger::{Blank, Ledger};

/// The table of the words.
pub(crate) type WordTable = Table<(), SeatView, Room, WordRule, Global>;

/// A seat at the table of the words.
pub(crate) type WordSeat = Seat<(), SeatView>;

/// Names the tables and the ledger of one seed, its sizes, and the stamp of the domain that is opened over it
/// with the room of its journal. What carries one realm is all of one seed.
pub trait Realm: Ledger {
    ghost use Rattle.std.specs.Prelude.{ℕ};
    ghost use Rattle.hl_model.specs.Sizes.{Sizes as SizesRecord};
    ghost use Rattle.hl_words.specs.States.{Tables};

    ghost table: { Tables };

    ghost sizes: { SizesRecord };

    ghost stamp: { ℕ };

    ghost limit: { ℕ };
}

impl Realm for Brand {
    ghost use Rattle.hl_words.specs.States.{no_table};

    ghost table = { record { words = no_table; history = no_table } };

    ghost sizes = { record { page_size = 4; frames = 2; slots = 1; drain = 1 } };

    ghost stamp = { 0 };

    ghost limit = { 0 };
}

/// Names the history of a realm's seed.
pub struct HistoryOf<L>(PhantomData<L>);

impl<L: Realm> Named for HistoryOf<L> {
    ghost table = { L.table.history };
}

/// The right to put steps behind the one list of a realm. Contracts see it as the list.
pub type Recorder<L> = hl_history::Recorder<HistoryOf<L>>;

/// Words that nobody has opened yet: the cells, the master's four words, a ledger with a part for each rider,
/// and the empty list with a record for each. It is the one witness that its realm is new: it is used up by
/// `Words::open`.
#[derive(Drop)]
pub struct Seed {
    pub(crate) params: Sizes,
    pub(crate) table: WordTable,
    pub(crate) seat: WordSeat,
    pub(crate) blank: Blank,
    pub(crate) history: hl_history::Seed,
    pub(crate) room: Room,
}

impl Model for Seed {
    ghost use Rattle.std.specs.Prelude.{◌≡◌, ◌*◌};
    ghost use Rattle.hl_words.specs.States.{SeedState, IsTableOf, IsMasterSeat};
    ghost use Rattle.hl_words.specs.Seats.{first_seat};
    ghost use Rattle.hl_words.specs.Views.{no_offsets, no_extent};

    ghost Value = { SeedState };

    ghost view = { λ s. record {
      sizes = s.params;
      cells = s.room.cells;
      riders = s.room.riders;
      table = record { words = s.table.shared.table_id; history = s.history.table };
      name = s.blank.name;
    } };

    ghost invariant = { λ s. IsTableOf s.room s.table.shared.key s.table.shared.table_id
        × IsMasterSeat no_extent no_offsets (first_seat s.room).riders s.seat.id s.seat.me
        × (s.seat.table_id ≡ s.table.shared.table_id) × (s.blank.parts ≡ s.room.riders)
        × (s.history.records ≡ s.room.riders)
        × (s.room.cells ≡ s.params.frames * s.params.page_size) };
}

impl Seed {
    /// Makes the words of an allocator of these sizes: F * P cells and the master's four words, all 0, for 1
    /// to 2,048 riders.
    ///
    /// `OutOfMemory` if memory was refused; then nothing is made.
    pub fn make<S: HasSizes>(alloc: Global, params: S, riders: usize) -> Result<Seed, Fault>
        requires { (1 ≤ riders) × (riders ≤ 2048) }
        ensures sizes { IfOk result (λ seed. seed.sizes ≡ S.sizes_of params) }
        ensures cells { let sizes = S.sizes_of params
            in IfOk result (λ seed. seed.cells ≡ sizes.frames * sizes.page_size) }
        ensures riders { IfOk result (λ seed. seed.riders ≡ riders) }
        ensures memory { IfErr result (λ fault. fault ≡ OutOfMemory) }
    {
        let params = params.sizes();
        let cells = params.frames() as usize * params.page_size() as usize;
        let room = Room { cells, riders };
        let Ok((table, seat)) = laid(alloc, room) else {
            return Err(Fault::OutOfMemory);
        };
        let Ok(history) = hl_history::Seed::make(alloc, riders) else {
            return Err(Fault::OutOfMemory);
        };
        Ok(Seed {
            params,
            table,
            seat,
            blank: Blank::new(riders as u64),
            history,
            room,
        })
    }

    /// The sizes of the allocator whose words they are.
    pub fn params(&self) -> Sizes
        ensures value { result ≡ self.now.sizes }
        ensures cells { self.now.cells ≡ self.now.sizes.frames * self.now.sizes.page_size }
    {
        self.params
    }
}

/// The table, all 0, and its first seat.
pub(crate) fn laid(alloc: Global, room: Room) -> Result<(WordTable, WordSeat), AllocError>
    requires { room.cells ≤ 2 ^ 36 }
    ensures table { IfOk result
        (λ t. (t.0.shared.key ≡ room) × (t.0.shared.table_id.words ≡ room.cells + 27)
        × (t.0.shared.table_id.slots ≡ 0)) }
    ensures seat { IfOk result
        (λ t. (t.1.table_id ≡ t.0.shared.table_id) × (t.1.id ≡ 0) × (t.1.me ≡ (first_seat room, []))) }
{
    let words = vec![in alloc; 0u64; room.cells + MORE]?;
    Table::of_words(alloc, words.as_slice(), &room)
}
