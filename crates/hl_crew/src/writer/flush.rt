//! A page of a crew that serves: one writer takes it, copies it, writes it and answers it, with its own rider.
ghost use Rattle.std.specs.Prelude.{◌^◌, ◌-◌};
ghost use Rattle.hl_crew.specs.Goes.{UpTo};
ghost use Rattle.hl_crew.specs.Looks.{LooksNext};
ghost use Rattle.hl_crew.specs.Pages.{FindsPage, Flushes, Passes, PassesIf};
ghost use Rattle.hl_crew.specs.Riders.{WritesPage, FailsPage};

use crate::ends::{Accepted, Flush};
use crate::gate::{Gate, Taken};
use crate::looks::{Look, Looker, or_nowhere};
use crate::messages::Over;
use crate::mode::Mode;
use crate::run::Run;
use crate::sleepers::Sleeper;
use crate::writer::WriterState;
use hl_action::{Promise, Task};
use hl_epoch::Epochs;
use hl_image::PageWriter;
use hl_model::Fault;
use hl_words::Realm;
use std::sync::Wait;
use std::sync::atomic::Ordering;

/// How many pages behind one that wasn't written are tried at most before that one is answered.
const BEHIND: u64 = 3;

impl<R: Wait, E: Epochs + Drop, F: Task, P: Promise, L: Realm, G: Gate, W: PageWriter> Look<
    WriterState<L, W>,
> for Run<'_, R, E, F, P, L, G> {
    ghost finds = { λ run. FindsPage F run.domain.now run.limits.cuts (G.lets run.gate.now)
        (WritesPage W.has W.wrote) (FailsPage W.has W.failed) W.failures };

    /// Flushes a page. If the journal is full and may be cut, it is cut, and a page is looked for once more.
    fn find(&self, own: &mut WriterState<L, W>) -> Result<bool, Over> {
        let flushed = self.flush(own, BEHIND);
        if self.has_made_room(&mut own.rider, &flushed) {
            or_nowhere(self.flush(own, BEHIND))
        } else {
            flushed
        }
    }
}

impl<R: Wait, E: Epochs + Drop, F: Task, P: Promise, L: Realm, G: Gate> Run<'_, R, E, F, P, L, G> {
    /// Looks for sealed pages, and flushes each.
    pub(crate) fn flush_all<W: PageWriter>(
        &self,
        own: &mut WriterState<L, W>,
        sleeper: &Sleeper,
    ) -> Result<(), Over>
        ensures { UpTo (LooksNext (FindsPage F self.now.domain.now self.now.limits.cuts
            (G.lets self.now.gate.now) (WritesPage W.has W.wrote) (FailsPage W.has W.failed) W.failures))
            (2 ^ 64 - 1) result own.old own.new }
    {
        let looker = Looker {
            rt: self.rt,
            ended: &self.ended,
            sleeper,
        };
        looker.look_on(self, own, u64::MAX)
    }

    // Takes a page, copies its words, writes their image once the gate lets it, and answers the page as written. If that
    // fails, it flushes a page behind that one, with one fewer that may fail, and then answers the first as failed: it may
    // be taken again. False if none was written.
    #[cycle(flush)]
    fn flush<W: PageWriter>(&self, own: &mut WriterState<L, W>, behind: u64) -> Result<bool, Over>
        ensures { Flushes F self.now.domain.now self.now.limits.cuts
            (G.lets self.now.gate.now) (WritesPage W.has W.wrote) (FailsPage W.has W.failed) W.failures
            behind result own.old own.new }
    {
        let load = match self.domain.flush_take(self.rt, &mut own.rider) {
            Ok(load) => load,
            Err(Fault::NoneSealed) => return Ok(false),
            Err(fault) => return Err(Over::of(&fault)),
        };
        let ok = self.write(own, Taken::of(&load)).ok();
        let passed = self.flush_behind(own, ok, behind);
        let flush = Flush { load, ok };
        let accepted = self.end_by(&mut own.rider, flush)?;
        own.counts.count(ok);
        self.tell(accepted, ok);
        passed
    }

    // Unless a page was written, flushes the next one behind it, if one more may fail.
    #[cycle(flush)]
    fn flush_behind<W: PageWriter>(
        &self,
        own: &mut WriterState<L, W>,
        ok: bool,
        behind: u64,
    ) -> Result<bool, Over>
        ensures { PassesIf F self.now.domain.now self.now.limits.cuts
            (G.lets self.now.gate.now) (WritesPage W.has W.wrote) (FailsPage W.has W.failed) W.failures
            (Passes F self.now.domain.now self.now.limits.cuts
            (G.lets self.now.gate.now) (WritesPage W.has W.wrote) (FailsPage W.has W.failed) W.failures
            behind) ok result own.old own.new }
    {
        if ok {
            return Ok(true);
        }
        if behind == 0 {
            return Ok(false);
        }
        self.flush(own, behind - 1)
    }

    // Wakes the flusher once a page was answered, if as written: the head may go on.
    fn tell(&self, _accepted: Accepted, ok: bool) {
        match self.mode {
            Mode::Until(stop) if ok => {
                self.has_written.store(true, Ordering::SeqCst);
                stop.ring();
            }
            _ => {}
        }
    }
}
