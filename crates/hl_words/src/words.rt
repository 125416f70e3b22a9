ghost use Rattle.std.specs.Prelude.{◌≡◌, ◌+◌, ◌<◌, ◌≤◌, [], length, IfOk, IfErr};
ghost use Rattle.hl_model.specs.declared.fault.Fault.TheVariants.{OutOfMemory};
ghost use Rattle.hl_words.specs.Views.{offset_of, greatest_of, with_offset, stored, loaded, added, exchanged, with_loaded, looked, zeroed, loaded_all};
ghost use Rattle.hl_words.specs.States.{IsSeedOf, new_master, new_riders, with_view};

mod calls;
mod closing;
mod pasts;

use crate::master::Master;
use crate::rider::Rider;
use crate::rule::Deal;
use crate::seed::{HistoryOf, Realm, Recorder, Seed, WordTable};
use crate::table_steps;
use crate::view::Room;
use crate::which::Which;
use hl_history::History;
use hl_model::Fault;
use std::alloc::Global;
use std::marker::{Model, PhantomData};

/// The cells and the master's four words, which any thread may load through a `&`, and the one list of steps,
/// behind which the recorder puts more. No call here waits or takes memory but those that open. Contracts see
/// how many cells and how many riders there are.
#[derive(Drop)]
pub struct Words<L: Realm> {
    table: WordTable,
    room: Room,
    history: History<HistoryOf<L>>,
    of: PhantomData<L>,
}

impl<L: Realm> Model for Words<L> {
    ghost use Rattle.std.specs.Prelude.{◌≡◌};
    ghost use Rattle.hl_words.specs.States.{WordsState, IsTableOf};

    ghost Value = { WordsState };

    ghost view = { λ w. record { cells = w.room.cells; riders = w.room.riders } };

    ghost invariant = { λ w. IsTableOf w.room w.table.shared.key w.table.shared.table_id
        × (w.table.shared.table_id ≡ L.table.words) × (w.room.riders ≡ L.parts)
        × (w.history ≡ w.room.riders) };
}

impl<L: Realm> Words<L> {
    /// Opens a seed: its words, the one master, and the riders. The recorder is dropped, so that nothing
    /// is entered in the one list.
    ///
    /// `OutOfMemory` if memory was refused; then the seed is given up.
    pub fn open(alloc: Global, seed: Seed) -> Result<(Words<L>, Master<L>, Vec<Rider<L>>), Fault>
        requires { IsSeedOf L.name L.parts L.table seed }
        ensures words { IfOk result
            (λ opened. opened.0 ≡ record { cells = seed.cells; riders = seed.riders }) }
        ensures master { IfOk result (λ opened. opened.1 ≡ new_master) }
        ensures riders { IfOk result (λ opened. opened.2.items ≡ new_riders seed.riders) }
        ensures memory { IfErr result (λ fault. fault ≡ OutOfMemory) }
    {
        let (words, master, _recorder, riders) = Words::open_with_recorder(alloc, seed)?;
        Ok((words, master, riders))
    }

    /// Opens a seed as `open` does, and also returns the one recorder, whose list is empty.
    ///
    /// `OutOfMemory` if memory was refused; then the seed is given up.
    pub fn open_with_recorder(
        alloc: Global,
        seed: Seed,
    ) -> Result<(Words<L>, Master<L>, Recorder<L>, Vec<Rider<L>>), Fault>
        requires { IsSeedOf L.name L.parts L.table seed }
        ensures words { IfOk result
            (λ opened. opened.0 ≡ record { cells = seed.cells; riders = seed.riders }) }
        ensures master { IfOk result (λ opened. opened.1 ≡ new_master) }
        ensures list { IfOk result (λ opened. opened.2 ≡ []) }
        ensures riders { IfOk result (λ opened. opened.3.items ≡ new_riders seed.riders) }
        ensures memory { IfErr result (λ fault. fault ≡ OutOfMemory) }
    {
        let Seed {
            params: _,
            table,
            mut seat,
            blank,
            history,
            room,
        } = seed;
        let Ok(mut riders) = Vec::with_capacity(alloc, room.riders) else {
            return Err(Fault::OutOfMemory);
        };
        let (book, mut share) = blank.open::<L>();
        let (history, mut records) = History::open(history);
        for _dealt in 0..room.riders {
            let seat = table.shared.split_seat::<Deal>(&mut seat);
            let share = share.split_off(1, 0);
            let calls = history.deal(&mut records);
            riders.push_reserved(Rider {
                seat,
                share,
                entered: 0,
                calls,
            });
        }
        let words = Words {
            table,
            room,
            history,
            of: PhantomData,
        };
        let master = Master {
            seat,
            book,
            share,
            total: 0,
        };
        Ok((words, master, records.into_recorder(), riders))
    }

    /// Stores a value into a cell. The rider's view has the store.
    #[inline(always)]
    pub fn store_cell(&self, rider: &mut Rider<L>, cell: u64, value: u64)
        requires { cell < self.now.cells }
        ensures { rider.new ≡ with_view (stored cell value rider.old.view) rider.old }
    {
        table_steps::store_cell(&self.table, &mut rider.seat, cell, value);
    }

    /// Loads a cell. The rider's view has the load; that its value is lawful is what `close` tells of all
    /// loads.
    #[inline(always)]
    pub fn load_cell(&self, rider: &mut Rider<L>, cell: u64) -> u64
        requires { cell < self.now.cells }
        ensures { rider.new ≡ with_view (loaded cell result rider.old.view) rider.old }
    {
        table_steps::load_cell(&self.table, &mut rider.seat, cell)
    }

    /// Adds a number to a cell, modulo 2^64, in one step: no store of another rider comes between its
    /// load and its store. Returns what it found. The rider's view has the change; that it found what the
    /// newest store before it left is what `close` tells, so that no add is lost.
    pub fn fetch_add_cell(&self, rider: &mut Rider<L>, cell: u64, more: u64) -> u64
        requires { cell < self.now.cells }
        ensures { rider.new ≡ with_view (added cell more result rider.old.view) rider.old }
    {
        table_steps::add_cell(&self.table, &mut rider.seat, cell, more)
    }

    /// Stores the new value into a cell if the old one stands there, in one step. Returns what it
    /// found. The rider's view has the change, or else the load.
    pub fn compare_exchange_cell(&self, rider: &mut Rider<L>, cell: u64, old: u64, new: u64) -> u64
        requires { cell < self.now.cells }
        ensures { rider.new ≡ with_view (exchanged cell old new result rider.old.view) rider.old }
    {
        table_steps::exchange_cell(&self.table, &mut rider.seat, cell, old, new)
    }

    /// Loads as many cells as there are places, from a cell on. The rider's view has the loads.
    pub fn load_cells(&self, rider: &mut Rider<L>, first: u64, out: &mut [u64])
        requires { first + length out.old ≤ self.now.cells }
        ensures rider { rider.new ≡ with_view (loaded_all first out.new rider.old.view) rider.old }
        ensures places { length out.new ≡ length out.old }
    {
        table_steps::load_cells(&self.table, &mut rider.seat, first, out);
    }

    /// Stores 0 into n cells, from a cell on. The rider's view has the stores.
    pub fn zero_cells(&self, rider: &mut Rider<L>, first: u64, n: u64)
        requires { first + n ≤ self.now.cells }
        ensures { rider.new ≡ with_view (zeroed first n rider.old.view) rider.old }
    {
        table_steps::zero_cells(&self.table, &mut rider.seat, first, n);
    }

    /// Stores one of the master's words: an offset in words of the log, or an epoch. The caller sees to it
    /// that it isn't below the master's last store.
    pub fn store_offset(&self, master: &mut Master<L>, which: Which, offset: u64)
        requires { offset_of which master.old.offsets ≤ offset }
        ensures { let old = master.old
            in let offsets = with_offset which offset old.offsets
            in master.new ≡ record { offsets = offsets; total = old.total; called = old.called } }
    {
        table_steps::store_word(
            &self.table,
            self.room.cells,
            &mut master.seat,
            which,
            offset,
        );
    }

    /// Loads one of the master's words: an offset in words of the log, or an epoch. It isn't below what this
    /// rider loaded of it before. The rider's view has the load; that it is one of the master's stores, or 0,
    /// is what `close` tells of all loads.
    #[inline(always)]
    pub fn load_offset(&self, rider: &mut Rider<L>, which: Which) -> u64
        ensures view { rider.new ≡ with_view (with_loaded which result rider.old.view) rider.old }
        ensures rises { greatest_of which (looked rider.old.view.touches) ≤ result }
    {
        table_steps::load_word(&self.table, self.room.cells, &mut rider.seat, which)
    }
}
