//! The end of the words, once all riders are back.
ghost use Rattle.std.specs.Prelude.{◌≡◌, ◌≢◌, ◌==◌, ◌+◌, [], ◌∷◌, map, length, IfOk, OnOk, IfErr};
ghost use Rattle.std.specs.Option.{IfSome};
ghost use Rattle.std.specs.List.{sum_by, AllByRecursion};
ghost use Rattle.hl_history.specs.Lists.{IsOneList};
ghost use Rattle.hl_words.specs.Rule.{IsRuledAt};
ghost use Rattle.hl_words.specs.Seats.{IsKnown, knowing};
ghost use Rattle.hl_words.specs.States.{AreTied, IsMasterSeat, with_records, with_no_records, known_to_all};

use crate::last::LastWords;
use crate::master::Master;
use crate::past::Past;
use crate::rider::Rider;
use crate::rule::{Attest, Deal};
use crate::seed::{HistoryOf, Realm, Recorder, WordSeat};
use crate::words::Words;
use hl_history::{CallRecord, Gathered};
use std::sync::ledger::Share;

impl<L: Realm> Words<L> {
    /// Ends the words, and tells what each one holds. If a rider is missing, all is handed back. Else
    /// the master's total is the sum of the riders' shares, and the rule holds of what the words hold,
    /// of the master's stores, of exactly what these riders stored and loaded, and of their calls, the
    /// newest of which left the one list where the master knows it.
    pub fn close(
        self,
        master: Master<L>,
        riders: Vec<Rider<L>>,
    ) -> Result<LastWords, (Words<L>, Master<L>, Vec<Rider<L>>)>
        ensures all { OnOk result (length riders.items ≡ self.riders) }
        ensures total { OnOk result (master.total ≡ sum_by (λ r. r.share) riders.items) }
        ensures cells { IfOk result (λ last. last.cells ≡ self.cells) }
        ensures rule { IfOk result (λ last.
            IsRuledAt self.cells last.words master.offsets master.called (map (λ r. r.view) riders.items)) }
        ensures missing { IfErr result (λ _. length riders.items ≢ self.riders) }
        ensures back { IfErr result (λ back. (back.0 ≡ self) × (back.1 ≡ master) × (back.2 ≡ riders)) }
    {
        if !self.has_all(riders.as_slice()) {
            return Err((self, master, riders));
        }
        Ok(self.end(master, None, riders, None))
    }

    /// Ends the words as `close` does. Besides, if no rider is missing, the recorder's list is the one list of
    /// exactly these riders' calls, which also stand among their touches, and of each past that was kept some
    /// rider has its name and made the touches that it tells.
    pub fn close_with_recorder(
        self,
        master: Master<L>,
        recorder: Recorder<L>,
        riders: Vec<Rider<L>>,
        pasts: Option<Vec<Past<L>>>,
    ) -> Result<
        LastWords,
        (
            Words<L>,
            Master<L>,
            Recorder<L>,
            Vec<Rider<L>>,
            Option<Vec<Past<L>>>,
        ),
    >
        ensures all { OnOk result (length riders.items ≡ self.riders) }
        ensures total { OnOk result (master.total ≡ sum_by (λ r. r.share) riders.items) }
        ensures cells { IfOk result (λ last. last.cells ≡ self.cells) }
        ensures rule { IfOk result (λ last.
            IsRuledAt self.cells last.words master.offsets master.called (map (λ r. r.view) riders.items)) }
        ensures list { OnOk result (IsOneList recorder (map (λ r. r.calls) riders.items)) }
        ensures tied { OnOk result (AllByRecursion (λ r. AreTied r.view.touches r.calls) riders.items) }
        ensures known { OnOk result (IfSome pasts
            (λ all. AllByRecursion (IsKnown (map (λ r. r.view) riders.items)) all.items)) }
        ensures missing { IfErr result (λ _. length riders.items ≢ self.riders) }
        ensures back { IfErr result (λ back. (back.0 ≡ self) × (back.1 ≡ master)
            × (back.2 ≡ recorder) × (back.3 ≡ riders) × (back.4 ≡ pasts)) }
    {
        if !self.has_all(riders.as_slice()) {
            return Err((self, master, recorder, riders, pasts));
        }
        Ok(self.end(master, Some(recorder), riders, pasts))
    }

    // Whether these riders are as many as were dealt out.
    fn has_all(&self, riders: &[Rider<L>]) -> bool
        ensures { result ≡ (length riders.now == self.now.riders) }
    {
        riders.len() == self.room.riders
    }

    // Ends the words, whose riders are all there, and also the list if the recorder is there.
    fn end(
        self,
        master: Master<L>,
        recorder: Option<Recorder<L>>,
        riders: Vec<Rider<L>>,
        pasts: Option<Vec<Past<L>>>,
    ) -> LastWords
        requires { length riders.items ≡ self.riders }
        ensures total { master.total ≡ sum_by (λ r. r.share) riders.items }
        ensures cells { result.cells ≡ self.cells }
        ensures rule { IsRuledAt self.cells result.words master.offsets master.called
            (map (λ r. r.view) riders.items) }
        ensures list { IfSome recorder (λ list. IsOneList list (map (λ r. r.calls) riders.items)) }
        ensures known { IfSome pasts
            (λ all. AllByRecursion (IsKnown (map (λ r. r.view) riders.items)) all.items) }
        ensures tied { AllByRecursion (λ r. AreTied r.view.touches r.calls) riders.items }
    {
        let Master {
            seat,
            mut book,
            share,
            ..
        } = master;
        let mut ended = Ended {
            seat,
            share,
            records: gathered(recorder),
        };
        self.gather(&mut ended, riders);
        self.attest(&mut ended.seat, pasts);
        book.audit(&mut ended.share);
        let Words {
            table,
            room,
            history,
            of: _,
        } = self;
        let Ended {
            seat,
            share: _,
            records,
        } = ended;
        if let Some(records) = records {
            history.close(records);
        }
        LastWords::of(table.close_with(seat), room.cells)
    }

    // Takes the riders back.
    fn gather(&self, ended: &mut Ended<L>, mut riders: Vec<Rider<L>>)
        requires seat { let old = ended.old.seat
            in (old.table_id ≡ L.table.words)
            × IsMasterSeat old.me.0.called old.me.0.offsets [] old.id old.me }
        ensures seat { let old = ended.old.seat
            in let new = ended.new.seat
            in (new.table_id ≡ L.table.words)
            × IsMasterSeat old.me.0.called old.me.0.offsets (map (λ r. r.view) riders.items) new.id new.me }
        ensures parts { ended.new.share.parts ≡ ended.old.share.parts + length riders.items }
        ensures amount { ended.new.share.amount
            ≡ ended.old.share.amount + sum_by (λ r. r.share) riders.items }
        ensures records { ended.new.records
            ≡ with_records (map (λ r. r.calls) riders.items) ended.old.records }
        ensures tied { AllByRecursion (λ r. AreTied r.view.touches r.calls) riders.items }
    {
        while let Some(rider) = riders.pop() {
            let Rider {
                seat,
                share,
                calls,
                ..
            } = rider;
            self.table.shared.join_seat::<Deal>(&mut ended.seat, seat);
            ended.share.merge(share);
            self.take_back(&mut ended.records, calls);
        }
    }

    // Takes pasts back, if there are any.
    fn attest(&self, seat: &mut WordSeat, pasts: Option<Vec<Past<L>>>)
        requires { seat.old.table_id ≡ L.table.words }
        ensures { (seat.new.table_id ≡ seat.old.table_id) × (seat.new.id ≡ seat.old.id)
            × (seat.new.me ≡ (knowing (known_to_all (λ all. all.items) pasts) seat.old.me.0, seat.old.me.1)) }
    {
        if let Some(pasts) = pasts {
            self.attest_all(seat, pasts);
        }
    }

    // Takes pasts back.
    fn attest_all(&self, seat: &mut WordSeat, mut pasts: Vec<Past<L>>)
        requires { seat.old.table_id ≡ L.table.words }
        ensures { (seat.new.table_id ≡ seat.old.table_id) × (seat.new.id ≡ seat.old.id)
            × (seat.new.me ≡ (knowing pasts.items seat.old.me.0, seat.old.me.1)) }
    {
        while let Some(past) = pasts.pop() {
            let Past { badge, of: _ } = past;
            self.table
                .shared
                .join_seat::<Attest>(seat, badge.into_seat());
        }
    }

    // Takes a rider's record of calls back, if the recorder is there.
    fn take_back(
        &self,
        records: &mut Option<Gathered<HistoryOf<L>>>,
        calls: CallRecord<HistoryOf<L>>,
    )
        ensures { records.new ≡ with_records (calls ∷ []) records.old }
    {
        if let Some(gathered) = records {
            self.history.take_back(gathered, calls);
        }
    }
}

// What the riders are taken back into at the end: the master's seat and its share, and the recorder's list and
// records, if the recorder is there.
struct Ended<L: Realm> {
    seat: WordSeat,
    share: Share<L>,
    records: Option<Gathered<HistoryOf<L>>>,
}

// The recorder's list, with no record yet.
fn gathered<L: Realm>(recorder: Option<Recorder<L>>) -> Option<Gathered<HistoryOf<L>>>
    ensures { result ≡ with_no_records recorder }
{
    match recorder {
        Some(recorder) => Some(recorder.gather()),
        None => None,
    }
}
