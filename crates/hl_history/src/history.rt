ghost use Rattle.std.specs.Prelude.{◌≡◌, ◌<◌, [], ◌∷◌, ◌++◌, length, replicate};
ghost use Rattle.hl_history.specs.Lists.{entry, IsOf, IsOneList};
ghost use Rattle.hl_history.specs.Seats.{left_with, right_with};
ghost use Rattle.hl_history.specs.States.{IsRecorderSeat};

use crate::gathered::Gathered;
use crate::recorder::{CallRecord, Recorder};
use crate::rule::{Deal, Enter, Look, Steps};
use crate::seed::{HistorySeat, HistoryTable, Named, Seed};
use crate::view::Room;
use atomic_table::Badge;
use hl_model::Step;
use std::marker::{Brand, Model, PhantomData};
use std::mem;

/// What the threads share of the one list. Contracts see how many records there are.
#[derive(Drop)]
pub struct History<L: Named> {
    table: HistoryTable,
    room: Room,
    of: PhantomData<L>,
}

impl<L: Named> Model for History<L> {
    ghost use Rattle.std.specs.Prelude.{◌≡◌, ℕ};
    ghost use Rattle.hl_history.specs.States.{IsTableOf};

    ghost Value = { ℕ };

    ghost view = { λ h. h.room.records };

    ghost invariant = { λ h. IsTableOf h.room h.table.shared.key h.table.shared.table_id
        × (h.table.shared.table_id ≡ L.table) };
}

impl<L: Named> History<L> {
    /// Opens a seed: the history, and all its records at the empty list, with no call in any.
    pub fn open(seed: Seed) -> (History<L>, Gathered<L>)
        requires { seed.table ≡ L.table }
        ensures history { result.0 ≡ seed.records }
        ensures gathered { result.1 ≡ record { list = []; records = replicate seed.records [] } }
    {
        let Seed { table, seat, room } = seed;
        let history = History {
            table,
            room,
            of: PhantomData,
        };
        let gathered = Gathered {
            seat,
            of: PhantomData,
        };
        (history, gathered)
    }

    /// Hands out the first record that no thread has.
    pub fn deal(&self, gathered: &mut Gathered<L>) -> CallRecord<L>
        requires { 0 < length gathered.old.records }
        ensures { gathered.old
            ≡ record { list = gathered.new.list; records = result ∷ gathered.new.records } }
    {
        let seat = self.table.shared.split_seat::<Deal>(&mut gathered.seat);
        CallRecord {
            badge: seat.into_badge(),
            of: PhantomData,
        }
    }

    /// Puts steps behind the list, and notes in the record the list before them and the steps. That list
    /// begins with what each earlier call of the record left.
    #[inline(always)]
    pub fn enter(&self, recorder: &mut Recorder<L>, calls: &mut CallRecord<L>, steps: &[Step])
        ensures list { recorder.new ≡ recorder.old ++ steps.now }
        ensures calls { calls.new ≡ entry recorder.old steps.now ∷ calls.old }
        ensures rises { IsOf recorder.old calls.old }
    {
        let shared = &self.table.shared;
        let seat = mem::replace(&mut calls.badge, Badge::blank()).into_seat();
        shared.join_seat::<Deal>(&mut recorder.seat, seat);
        shared.load::<Look>(&mut recorder.seat, 0);
        calls.badge = enter_as::<Brand>(&self.table, &mut recorder.seat, steps).into_badge();
    }

    /// Takes a record back from its thread, before the others.
    pub fn take_back(&self, gathered: &mut Gathered<L>, calls: CallRecord<L>)
        ensures { gathered.new
            ≡ record { list = gathered.old.list; records = calls ∷ gathered.old.records } }
    {
        let CallRecord { badge, of: _ } = calls;
        let shared = &self.table.shared;
        shared.join_seat::<Deal>(&mut gathered.seat, badge.into_seat());
    }

    /// Ends the history, once all records were taken back: the list is the one list of all their calls.
    pub fn close(self, gathered: Gathered<L>)
        requires { length gathered.records ≡ self }
        ensures { IsOneList gathered.list gathered.records }
    {
        let Gathered { seat, of: _ } = gathered;
        self.table.close_with(seat).free();
    }
}

// The recorder's seat, which stands for one record, deals it out with a call of these steps. S names the steps
// in a type, since what a seat deals out is fixed by the type of the split.
#[inline(always)]
fn enter_as<S: Steps>(table: &HistoryTable, seat: &mut HistorySeat, steps: &[Step]) -> HistorySeat
    requires picked { steps.now ≡ S.steps }
    requires table { (seat.old.table_id ≡ table.now.shared.table_id) × (0 < table.now.shared.table_id.words) }
    requires seat { (list : _) × (calls : _) × IsRecorderSeat list (calls ∷ []) seat.old.id seat.old.me }
    ensures recorder { (seat.new.table_id ≡ seat.old.table_id) × (seat.new.id ≡ seat.old.id)
        × (seat.new.me ≡ (left_with steps.now seat.old.me.0, seat.old.me.1)) }
    ensures calls { (result.table_id ≡ seat.old.table_id)
        × (result.me ≡ (right_with steps.now seat.old.me.0, [])) }
{
    table.shared.split_seat::<Enter<S>>(seat)
}
