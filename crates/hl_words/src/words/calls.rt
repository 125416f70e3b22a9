//! A rider's calls under the lock where the master and the recorder lie.
ghost use Rattle.std.specs.Prelude.{◌≡◌, ◌+◌, ◌<◌, ◌≤◌, [], ◌∷◌, ◌++◌, length};
ghost use Rattle.hl_history.specs.Lists.{entry, IsOf};
ghost use Rattle.hl_words.specs.declared.view.OffsetWords.{OffsetWords as OFFSETS};
ghost use Rattle.hl_words.specs.declared.view.RiderView.{RiderView as VIEW};
ghost use Rattle.hl_words.specs.Rule.{RisesTo};
ghost use Rattle.hl_words.specs.Seats.{left_called, right_called};
ghost use Rattle.hl_words.specs.States.{IsMasterSeat, with_call, all_called};

use crate::master::Master;
use crate::rider::Rider;
use crate::rule::{CallAt, Deal, LoadBlank, Place};
use crate::seed::{Realm, Recorder, WordSeat, WordTable};
use crate::words::Words;
use hl_model::Step;
use std::marker::Brand;
use std::mem;

impl<L: Realm> Words<L> {
    /// Notes a call of a rider, which puts these steps behind the recorder's list, of which so many are cut
    /// then: the rider's newest call tells the list before them, and the steps. That list begins with what
    /// each of its earlier calls left. Among what the riders do to cells, the call stands here, in the one
    /// order that `close` tells: it met the list where the call before it left it, with as many steps and as
    /// many of them cut.
    ///
    /// To be made once the steps were counted by [`Master::enter`], and those of all calls before it were
    /// noted.
    #[inline(always)]
    pub fn enter(
        &self,
        master: &mut Master<L>,
        recorder: &mut Recorder<L>,
        rider: &mut Rider<L>,
        steps: &[Step],
        cut: u64,
    )
        requires noted { (master.old.called.steps ≡ length recorder.old) × (master.old.called.cut ≤ cut) }
        requires counted { master.old.total ≡ length recorder.old + length steps.now }
        ensures list { recorder.new ≡ recorder.old ++ steps.now }
        ensures rider { rider.new ≡ with_call master.old.called.cut cut
            (entry recorder.old steps.now) rider.old }
        ensures master { master.new ≡ all_called cut master.old }
        ensures rises { IsOf recorder.old rider.old.calls }
    {
        let shared = &self.table.shared;
        let (_, blank) = shared.load_new_seat::<LoadBlank>(0);
        let seat = mem::replace(&mut rider.seat, blank);
        shared.join_seat::<Deal>(&mut master.seat, seat);
        rider.seat = call_at::<Brand>(&self.table, &mut master.seat, master.total, cut);
        self.history.enter(recorder, &mut rider.calls, steps);
    }
}

// The master's seat, which stands for one rider, deals it out with a call that left so many steps, of which
// so many are cut. S names both in a type, since what a seat deals out is fixed by the type of the split.
#[inline(always)]
fn call_at<S: Place>(table: &WordTable, seat: &mut WordSeat, steps: u64, cut: u64) -> WordSeat
    requires picked { record { steps = steps; cut = cut } ≡ S.left }
    requires table { (seat.old.table_id ≡ table.now.shared.table_id) × (0 < table.now.shared.table_id.words) }
    requires seat { (last : OFFSETS) × (rider : VIEW)
        × IsMasterSeat seat.old.me.0.called last (rider ∷ []) seat.old.id seat.old.me }
    requires rises { RisesTo seat.old.me.0.called (record { steps = steps; cut = cut }) }
    ensures master { (seat.new.table_id ≡ seat.old.table_id) × (seat.new.id ≡ seat.old.id)
        × (seat.new.me ≡ (left_called (record { steps = steps; cut = cut }) seat.old.me.0, seat.old.me.1)) }
    ensures rider { (result.table_id ≡ seat.old.table_id)
        × (result.me ≡ (right_called (record { steps = steps; cut = cut }) seat.old.me.0, [])) }
{
    table.shared.split_seat::<CallAt<S>>(seat)
}
