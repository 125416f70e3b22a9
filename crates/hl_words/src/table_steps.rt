//! The steps of the table that words with a brand and rows share, each by a rider's seat or the master's.
ghost use Rattle.std.specs.Prelude.{◌≡◌, ◌+◌, ◌<◌, ◌≤◌, length};
ghost use Rattle.hl_words.specs.Rows.{CanStep, IsWide, StandsFor};
ghost use Rattle.hl_words.specs.Seats.{with_store};
ghost use Rattle.hl_words.specs.States.{first_rider, IsMasterSeat};
ghost use Rattle.hl_words.specs.Views.{offset_of, greatest_of, stored, loaded, added, exchanged, with_loaded, looked, zeroed, loaded_all};

use crate::rule::{
    AddCell, ExchangeCell, LoadCell, LoadEnded, LoadHead, LoadReadOnly, LoadSafeReadOnly,
    StoreCell, StoreEnded, StoreHead, StoreReadOnly, StoreSafeReadOnly,
};
use crate::seed::{WordSeat, WordTable};
use crate::which::{ENDED_AT, FIRST, HEAD_AT, READ_ONLY_AT, SAFE_READ_ONLY_AT, Which};

/// Stores a value into a cell.
#[inline(always)]
pub(crate) fn store_cell(table: &WordTable, seat: &mut WordSeat, cell: u64, value: u64)
    requires can { CanStep table.now.shared.key table.now.shared.table_id seat.old.table_id seat.old.me }
    requires cell { cell < table.now.shared.key.cells }
    ensures seat { seat.new.table_id ≡ seat.old.table_id }
    ensures did { StandsFor (stored cell value (first_rider seat.old.me.0)) seat.new.me }
{
    let shared = &table.shared;
    shared.store::<StoreCell>(seat, FIRST + cell as usize, value);
}

/// Loads a cell.
#[inline(always)]
pub(crate) fn load_cell(table: &WordTable, seat: &mut WordSeat, cell: u64) -> u64
    requires can { CanStep table.now.shared.key table.now.shared.table_id seat.old.table_id seat.old.me }
    requires cell { cell < table.now.shared.key.cells }
    ensures seat { seat.new.table_id ≡ seat.old.table_id }
    ensures did { StandsFor (loaded cell result (first_rider seat.old.me.0)) seat.new.me }
{
    let shared = &table.shared;
    shared.load::<LoadCell>(seat, FIRST + cell as usize)
}

/// Adds a number to a cell, modulo 2^64, in one step. Returns what it found.
#[inline(always)]
pub(crate) fn add_cell(table: &WordTable, seat: &mut WordSeat, cell: u64, more: u64) -> u64
    requires can { CanStep table.now.shared.key table.now.shared.table_id seat.old.table_id seat.old.me }
    requires cell { cell < table.now.shared.key.cells }
    ensures seat { seat.new.table_id ≡ seat.old.table_id }
    ensures did { StandsFor (added cell more result (first_rider seat.old.me.0)) seat.new.me }
{
    let shared = &table.shared;
    shared.fetch_add::<AddCell>(seat, FIRST + cell as usize, more)
}

/// Stores the new value into a cell if the old one stands there, in one step. Returns what it found.
#[inline(always)]
pub(crate) fn exchange_cell(
    table: &WordTable,
    seat: &mut WordSeat,
    cell: u64,
    old: u64,
    new: u64,
) -> u64
    requires can { CanStep table.now.shared.key table.now.shared.table_id seat.old.table_id seat.old.me }
    requires cell { cell < table.now.shared.key.cells }
    ensures seat { seat.new.table_id ≡ seat.old.table_id }
    ensures did { StandsFor (exchanged cell old new result (first_rider seat.old.me.0)) seat.new.me }
{
    let place = FIRST + cell as usize;
    let shared = &table.shared;
    shared.compare_exchange::<ExchangeCell>(seat, place, old, new)
}

/// Loads as many cells as there are places, from a cell on.
pub(crate) fn load_cells(table: &WordTable, seat: &mut WordSeat, first: u64, out: &mut [u64])
    requires can { CanStep table.now.shared.key table.now.shared.table_id seat.old.table_id seat.old.me }
    requires cells { first + length out.old ≤ table.now.shared.key.cells }
    ensures seat { seat.new.table_id ≡ seat.old.table_id }
    ensures did { StandsFor (loaded_all first out.new (first_rider seat.old.me.0)) seat.new.me }
    ensures places { length out.new ≡ length out.old }
{
    for k in 0..out.len() {
        out[k] = load_cell(table, seat, first + k as u64);
    }
}

/// Stores 0 into n cells, from a cell on.
pub(crate) fn zero_cells(table: &WordTable, seat: &mut WordSeat, first: u64, n: u64)
    requires can { CanStep table.now.shared.key table.now.shared.table_id seat.old.table_id seat.old.me }
    requires cells { first + n ≤ table.now.shared.key.cells }
    ensures seat { seat.new.table_id ≡ seat.old.table_id }
    ensures did { StandsFor (zeroed first n (first_rider seat.old.me.0)) seat.new.me }
{
    for k in 0..n {
        store_cell(table, seat, first + k, 0);
    }
}

/// Loads one of the master's words, which lie behind so many cells. It isn't below what this rider loaded of it before.
#[inline(always)]
pub(crate) fn load_word(table: &WordTable, cells: usize, seat: &mut WordSeat, which: Which) -> u64
    requires can { CanStep table.now.shared.key table.now.shared.table_id seat.old.table_id seat.old.me }
    requires cells { cells ≡ table.now.shared.key.cells }
    ensures seat { seat.new.table_id ≡ seat.old.table_id }
    ensures did { StandsFor (with_loaded which result (first_rider seat.old.me.0)) seat.new.me }
    ensures rises { greatest_of which (looked (first_rider seat.old.me.0).touches) ≤ result }
{
    let shared = &table.shared;
    match which {
        Which::ReadOnly => shared.load::<LoadReadOnly>(seat, cells + READ_ONLY_AT),
        Which::Head => shared.load::<LoadHead>(seat, cells + HEAD_AT),
        Which::Ended => shared.load::<LoadEnded>(seat, cells + ENDED_AT),
        Which::SafeReadOnly => shared.load::<LoadSafeReadOnly>(seat, cells + SAFE_READ_ONLY_AT),
    }
}

/// Stores one of the master's words, which lie behind so many cells, by the master's seat.
#[inline(always)]
pub(crate) fn store_word(
    table: &WordTable,
    cells: usize,
    seat: &mut WordSeat,
    which: Which,
    word: u64,
)
    requires wide { IsWide table.now.shared.key table.now.shared.table_id }
    requires there { seat.old.table_id ≡ table.now.shared.table_id }
    requires cells { cells ≡ table.now.shared.key.cells }
    requires master { let m = seat.old.me.0
        in IsMasterSeat m.called m.offsets m.riders seat.old.id seat.old.me }
    requires rises { offset_of which seat.old.me.0.offsets ≤ word }
    ensures seat { (seat.new.table_id ≡ seat.old.table_id) × (seat.new.id ≡ seat.old.id) }
    ensures did { seat.new.me ≡ (with_store which word seat.old.me.0, seat.old.me.1) }
{
    let shared = &table.shared;
    match which {
        Which::ReadOnly => shared.store::<StoreReadOnly>(seat, cells + READ_ONLY_AT, word),
        Which::Head => shared.store::<StoreHead>(seat, cells + HEAD_AT, word),
        Which::Ended => shared.store::<StoreEnded>(seat, cells + ENDED_AT, word),
        Which::SafeReadOnly => {
            shared.store::<StoreSafeReadOnly>(seat, cells + SAFE_READ_ONLY_AT, word)
        }
    }
}
