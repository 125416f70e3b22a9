//! Words for whoever can't name a brand in a type, as a C interface: the same table under the same rule, where contracts
//! see at which row each rider and the master are.
ghost use Rattle.std.specs.Prelude.{◌≡◌, ◌+◌, ◌^◌, ◌<◌, ◌≤◌, length, IfOk, IfErr, IfSome, MatchOption};
ghost use Rattle.hl_model.specs.declared.fault.Fault.TheVariants.{OutOfMemory};
ghost use Rattle.hl_words.specs.Rows.{acted, dealt, first_master, with_word, IsNew};
ghost use Rattle.hl_words.specs.Views.{offset_of, greatest_of, stored, loaded, added, exchanged, with_loaded, looked, zeroed, loaded_all};

use crate::rule::Deal;
use crate::seed::{WordSeat, WordTable, laid};
use crate::table_steps;
use crate::view::Room;
use crate::which::Which;
use hl_model::Fault;
use std::alloc::Global;
use std::marker::Model;

/// The cells and the master's four words, which threads share by a `&`, each with a rider. Contracts see how many cells
/// there are, and which row it is.
#[derive(Drop)]
pub struct Row {
    table: WordTable,
    room: Room,
}

impl Model for Row {
    ghost use Rattle.std.specs.Prelude.{◌≡◌};
    ghost use Rattle.hl_words.specs.Rows.{RowState, IsWide};

    ghost Value = { RowState };

    ghost view = { λ w. record { cells = w.room.cells; table = w.table.shared.table_id } };

    ghost invariant = { λ w. (w.table.shared.key ≡ w.room) × IsWide w.room w.table.shared.table_id };
}

/// The right to store into cells of a row and to load any word. It can go to another thread. Contracts see what it did,
/// and at which row.
#[derive(Drop)]
pub struct RowRider {
    seat: WordSeat,
}

impl Model for RowRider {
    ghost use Rattle.hl_words.specs.Rows.{RowRiderState, StandsFor};
    ghost use Rattle.hl_words.specs.States.{first_rider};

    ghost Value = { RowRiderState };

    ghost view = { λ r. record { view = first_rider r.seat.me.0; table = r.seat.table_id } };

    ghost invariant = { λ r. StandsFor (first_rider r.seat.me.0) r.seat.me };
}

/// The right to store the four words of a row, and to deal riders out. Contracts see its stores, at which row, and how
/// many riders it can still deal out.
#[derive(Drop)]
pub struct RowMaster {
    seat: WordSeat,
    next: usize,
    left: usize,
}

impl Model for RowMaster {
    ghost use Rattle.hl_words.specs.Rows.{RowMasterState};
    ghost use Rattle.hl_words.specs.States.{IsMasterSeat};
    ghost use Rattle.hl_words.specs.Views.{fresh_from, no_extent};
    ghost use Rattle.std.specs.Prelude.{◌+◌, ◌<◌, ◌^◌};

    ghost Value = { RowMasterState };

    ghost view = { λ m. record { offsets = m.seat.me.0.offsets; table = m.seat.table_id; left = m.left } };

    ghost invariant = { λ m. IsMasterSeat no_extent m.seat.me.0.offsets (fresh_from m.next m.left) m.seat.id m.seat.me
        × (m.next + m.left < 2 ^ 64) };
}

impl Row {
    /// Makes a row of so many cells, all words 0 by its rule, and its master, who can deal out so many riders.
    ///
    /// `OutOfMemory` if memory was refused; then nothing is made.
    pub fn open(alloc: Global, cells: usize, riders: usize) -> Result<(Row, RowMaster), Fault>
        requires { cells ≤ 2 ^ 36 }
        ensures row { IfOk result (λ opened. opened.0.cells ≡ cells) }
        ensures master { IfOk result (λ opened. opened.1 ≡ first_master riders opened.0.table) }
        ensures memory { IfErr result (λ fault. fault ≡ OutOfMemory) }
    {
        let room = Room { cells, riders };
        let Ok((table, seat)) = laid(alloc, room) else {
            return Err(Fault::OutOfMemory);
        };
        let master = RowMaster {
            seat,
            next: 0,
            left: riders,
        };
        Ok((Row { table, room }, master))
    }

    /// Deals a rider out that did nothing yet; the master then has one less to deal out. Returns None only if it has
    /// none left, and then changes nothing.
    pub fn deal(&self, master: &mut RowMaster) -> Option<RowRider>
        requires { master.old.table ≡ self.now.table }
        ensures rider { IfSome result (IsNew master.old) }
        ensures master { let old = master.old
            in MatchOption result ((old.left ≡ 0) × (master.new ≡ old))
            (λ _. (0 < old.left) × (master.new ≡ dealt old)) }
    {
        if master.left == 0 {
            return None;
        }
        let seat = self.table.shared.split_seat::<Deal>(&mut master.seat);
        master.next += 1;
        master.left -= 1;
        Some(RowRider { seat })
    }

    /// Stores a value into a cell.
    #[inline(always)]
    pub fn store_cell(&self, rider: &mut RowRider, cell: u64, value: u64)
        requires there { rider.old.table ≡ self.now.table }
        requires cell { cell < self.now.cells }
        ensures { rider.new ≡ acted (stored cell value) rider.old }
    {
        table_steps::store_cell(&self.table, &mut rider.seat, cell, value);
    }

    /// Loads a cell. That its value is lawful is kept by the row's type.
    #[inline(always)]
    pub fn load_cell(&self, rider: &mut RowRider, cell: u64) -> u64
        requires there { rider.old.table ≡ self.now.table }
        requires cell { cell < self.now.cells }
        ensures { rider.new ≡ acted (loaded cell result) rider.old }
    {
        table_steps::load_cell(&self.table, &mut rider.seat, cell)
    }

    /// Adds a number to a cell, modulo 2^64, in one step. Returns what it found.
    #[inline(always)]
    pub fn fetch_add_cell(&self, rider: &mut RowRider, cell: u64, more: u64) -> u64
        requires there { rider.old.table ≡ self.now.table }
        requires cell { cell < self.now.cells }
        ensures { rider.new ≡ acted (added cell more result) rider.old }
    {
        table_steps::add_cell(&self.table, &mut rider.seat, cell, more)
    }

    /// Stores the new value into a cell if the old one stands there, in one step. Returns what it found.
    #[inline(always)]
    pub fn compare_exchange_cell(&self, rider: &mut RowRider, cell: u64, old: u64, new: u64) -> u64
        requires there { rider.old.table ≡ self.now.table }
        requires cell { cell < self.now.cells }
        ensures { rider.new ≡ acted (exchanged cell old new result) rider.old }
    {
        table_steps::exchange_cell(&self.table, &mut rider.seat, cell, old, new)
    }

    /// Loads as many cells as there are places, from a cell on.
    pub fn load_cells(&self, rider: &mut RowRider, first: u64, out: &mut [u64])
        requires there { rider.old.table ≡ self.now.table }
        requires cells { first + length out.old ≤ self.now.cells }
        ensures rider { rider.new ≡ acted (loaded_all first out.new) rider.old }
        ensures places { length out.new ≡ length out.old }
    {
        table_steps::load_cells(&self.table, &mut rider.seat, first, out);
    }

    /// Stores 0 into n cells, from a cell on.
    pub fn zero_cells(&self, rider: &mut RowRider, first: u64, n: u64)
        requires there { rider.old.table ≡ self.now.table }
        requires cells { first + n ≤ self.now.cells }
        ensures { rider.new ≡ acted (zeroed first n) rider.old }
    {
        table_steps::zero_cells(&self.table, &mut rider.seat, first, n);
    }

    /// Stores one of the master's words, which isn't below the master's last store.
    #[inline(always)]
    pub fn store_offset(&self, master: &mut RowMaster, which: Which, offset: u64)
        requires there { master.old.table ≡ self.now.table }
        requires rises { offset_of which master.old.offsets ≤ offset }
        ensures { master.new ≡ with_word which offset master.old }
    {
        table_steps::store_word(
            &self.table,
            self.room.cells,
            &mut master.seat,
            which,
            offset,
        );
    }

    /// Loads one of the master's words. It isn't below what this rider loaded of it before.
    #[inline(always)]
    pub fn load_offset(&self, rider: &mut RowRider, which: Which) -> u64
        requires there { rider.old.table ≡ self.now.table }
        ensures view { rider.new ≡ acted (with_loaded which result) rider.old }
        ensures rises { greatest_of which (looked rider.old.view.touches) ≤ result }
    {
        table_steps::load_word(&self.table, self.room.cells, &mut rider.seat, which)
    }
}
