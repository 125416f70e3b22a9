//! What a session asks of the one list: each answer is that of the list which its rider's newest call met.
ghost use Rattle.std.specs.Prelude.{◌≡◌, []};
ghost use Rattle.hl_domain.specs.Riders.{LooksAtAll, LooksAtFrame, LooksAtHolders};
ghost use Rattle.hl.specs.Reports.{ReportsBy};
ghost use Rattle.hl.specs.Sessions.{KeepsAllButRider};
ghost use Rattle.hl.specs.Traces.{Meets, OnlyMeets};

use super::Session;
use crate::reports::{HOLDERS, put_refused, put_report};
use hl_action::{Promise, Task};
use hl_domain::{ArrayVec, FrameState, Holder};
use hl_epoch::Epochs;
use hl_model::{Fault, Snapshot};
use hl_words::Realm;
use std::io::Write;
use std::sync::Wait;

impl<'a, R: Wait, L: Realm, F: Task, P: Promise, E: Epochs + Drop> Session<'a, R, L, F, P, E> {
    /// All quantities of now, the number of steps since the last cut, and the number of steps cut in all. It takes the
    /// lock, and is never refused; so do the others here.
    pub fn snapshot(&mut self) -> (Snapshot, u64, u64)
        ensures met { LooksAtAll F self.old.log result self.old.pass.rider self.new.pass.rider }
        ensures did { Meets [] self.old self.new }
        ensures kept { KeepsAllButRider self.old self.new }
    {
        self.log.snapshot_by(self.rt, self.pass.rider_mut())
    }

    /// The ticket of the oldest pending action, and into the row the slots that hold it up, as
    /// [`Domain::holders`](hl_domain::Domain::holders) tells them; `None`, and no slot, if no action is pending.
    pub fn holders<const N: usize>(&mut self, row: &mut ArrayVec<Holder, N>) -> Option<u64>
        ensures met { LooksAtHolders F self.old.log N result row.new.items self.old.pass.rider self.new.pass.rider }
        ensures did { Meets [] self.old self.new }
        ensures kept { KeepsAllButRider self.old self.new }
    {
        self.log.holders_by(self.rt, self.pass.rider_mut(), row)
    }

    /// What the frame of a page is at, and the page that was last entered there; `None` if it is free. For a page that a
    /// `Busy` names.
    pub fn frame_of(&mut self, page: u64) -> (FrameState, Option<u64>)
        ensures met { LooksAtFrame F self.old.log page result self.old.pass.rider self.new.pass.rider }
        ensures did { Meets [] self.old self.new }
        ensures kept { KeepsAllButRider self.old self.new }
    {
        self.log.frame_of_by(self.rt, self.pass.rider_mut(), page)
    }

    /// Writes what the log is at, as [`report`](crate::report) does: by two calls of the session, the second of which met
    /// no earlier list than the first. Behind it stands a line `refused_writes`, if the device refuses what the crew writes
    /// ([`refused_writes`](Session::refused_writes)).
    ///
    /// Fault: `Stream` if a write failed or took no byte; a beginning of the report was then written, and not all of it.
    pub fn report<W: Write>(&mut self, writer: &mut W) -> Result<(), Fault>
        ensures reports { ReportsBy F self.old.log result self.old.pass.rider self.new.pass.rider
            (W.contents writer.old) (W.contents writer.new) }
        ensures did { OnlyMeets self.old self.new }
        ensures kept { KeepsAllButRider self.old self.new }
    {
        let told = self.snapshot();
        let mut holders = ArrayVec::<Holder, HOLDERS>::new();
        let oldest = self.holders(&mut holders);
        let refused = self.refused_writes();
        match put_report(writer, &told, oldest, holders.as_slice()) {
            Ok(()) => put_refused(writer, refused),
            Err(fault) => Err(fault),
        }
    }
}
