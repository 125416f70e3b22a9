ghost use Rattle.std.specs.Prelude.{is_none};
ghost use Rattle.std.specs.Thread.{IsSend, IsSync};
ghost use Rattle.hl_crew.specs.Riders.{FailsPage, WritesPage};
ghost use Rattle.hl_crew.specs.declared.state.CrewState.{CrewState};
ghost use Rattle.hl_crew.specs.Works.{AreNamed, IsNamed, WritesBy};

use crate::gate::Gate;
use crate::given::{Given, Left};
use crate::run::Run;
use crate::seats::{Done, Seat, Seats};
use crate::sleepers::{AllTold, Sleeper};
use crate::whole::Whole;
use crate::writer::WriterState;
use hl_action::{Promise, Task};
use hl_epoch::Epochs;
use hl_image::PageWriter;
use hl_words::Realm;
use std::sync::{Mutex, Wait};
use std::thread;
use std::thread::{JoinHandle, Scope, Threads};

impl<R, E, F, P, L, G> Run<'_, R, E, F, P, L, G>
where
    R: Threads + Wait + Sync,
    E: Epochs + Drop + Send,
    F: Task + Send,
    P: Promise + Send,
    L: Realm + Send + Sync,
    G: Gate + Sync,
{
    /// Runs the threads until all have ended. An error if a thread couldn't be made: those made are told to end.
    pub(crate) fn run_threads<'y, W: PageWriter + Send, K: Given<W> + Send>(
        &'y self,
        seats: &'y Seats<L, W, K>,
    ) -> Result<Whole, AllTold>
        requires named { (given : CrewState L W)
            × AreNamed F self.now.domain.now self.now.limits (G.lets self.now.gate.now)
            (WritesPage W.has W.wrote) (FailsPage W.has W.failed) W.failures
            (is_none self.now.channels) K.flusher K.first K.second K.cleaner given }
    {
        thread::scope(
            thread::scope_env(),
            self.rt,
            move |scope| -> Result<Whole, AllTold>
                requires runtime { IsSync R.row }
                requires epochs { IsSend E.row }
                requires jobs { IsSend F.row }
                requires promise { IsSend P.row }
                requires realm { IsSend L.row × IsSync L.row }
                requires page_writer { IsSend W.row }
                requires gate_shared { IsSync G.row }
                requires name { IsSend K.row }
                requires named { (given : CrewState L W)
                    × AreNamed F self.now.domain.now self.now.limits (G.lets self.now.gate.now)
                    (WritesPage W.has W.wrote) (FailsPage W.has W.failed) W.failures
                    (is_none self.now.channels) K.flusher K.first K.second K.cleaner given }
            { self.start(scope, seats) },
        )
    }

    // Makes the threads, the flusher behind the others. If it can't be made, these are told to end.
    fn start<'s, 'y, W: PageWriter + Send, K: Given<W> + Send>(
        &'y self,
        scope: &'s Scope<'s, &'y ()>,
        seats: &'y Seats<L, W, K>,
    ) -> Result<Whole, AllTold>
        requires named { (given : CrewState L W)
            × AreNamed F self.now.domain.now self.now.limits (G.lets self.now.gate.now)
            (WritesPage W.has W.wrote) (FailsPage W.has W.failed) W.failures
            (is_none self.now.channels) K.flusher K.first K.second K.cleaner given }
    {
        let first = self.start_writer(scope, &seats.first, &self.sleepers.first);
        let second = self.start_writer(scope, &seats.second, &self.sleepers.second);
        let cleaner = scope
            .spawn(
                move || -> Done
                    requires named { (given : CrewState L W)
                        × AreNamed F self.now.domain.now self.now.limits (G.lets self.now.gate.now)
                        (WritesPage W.has W.wrote) (FailsPage W.has W.failed) W.failures
                        (is_none self.now.channels) K.flusher K.first K.second K.cleaner given }
                { self.run_cleaner(&seats.cleaner) },
            )
            .ok();
        let flusher = if first.is_some() && second.is_some() && cleaner.is_some() {
            scope
                .spawn(
                    move || -> (Done, AllTold)
                        requires named { (given : CrewState L W)
                            × AreNamed F self.now.domain.now self.now.limits (G.lets self.now.gate.now)
                            (WritesPage W.has W.wrote) (FailsPage W.has W.failed) W.failures
                            (is_none self.now.channels) K.flusher K.first K.second K.cleaner given }
                    { self.run_flusher(&seats.flusher) },
                )
                .ok()
        } else {
            None
        };
        match Whole::of(first, second, cleaner, flusher) {
            Some(whole) => Ok(whole),
            None => Err(self.end()),
        }
    }

    // Makes a writer's thread. `None` if it couldn't be made.
    fn start_writer<'s, 'y, W: PageWriter + Send, K: Left<WriterState<L, W>> + Send>(
        &'y self,
        scope: &'s Scope<'s, &'y ()>,
        own: &'y Mutex<Seat<WriterState<L, W>, K>>,
        sleeper: &'y Sleeper,
    ) -> Option<JoinHandle<Done>>
        requires { IsNamed K.left (WritesBy F self.now.domain.now self.now.limits
            (G.lets self.now.gate.now) (WritesPage W.has W.wrote)
            (FailsPage W.has W.failed) W.failures (is_none self.now.channels)) }
    {
        scope
            .spawn(
                move || -> Done
                    requires { IsNamed K.left (WritesBy F self.now.domain.now self.now.limits
                        (G.lets self.now.gate.now) (WritesPage W.has W.wrote)
                        (FailsPage W.has W.failed) W.failures (is_none self.now.channels)) }
                { self.run_writer(own, sleeper) },
            )
            .ok()
    }
}
