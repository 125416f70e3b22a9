//! The flush of a whole log, once all of its threads have ended.
ghost use Rattle.std.specs.Prelude.{is_some};
ghost use Rattle.hl_traces.specs.Traces.{RiderTraces};
ghost use Rattle.hl.specs.Closings.{Tells};
ghost use Rattle.hl.specs.Flushes.{flush_rounds, keeps_any, FlushesLog};
ghost use Rattle.hl.specs.Sessions.{beside_crew};

use crate::log::Log;
use crate::refused::Refused;
use crate::rows::Worked;
use crate::session::{Beside, Session};
use crate::shared::Shared;
use crate::signals::Signals;
use crate::work::Work;
use hl_model::Fault;
use hl_words::{Realm, Rider};
use std::sync::Wait;
use std::thread::Threads;

/// What the session that flushes the log at its end was answered, or why it has no answer; and its rider.
pub(crate) type FlushTold<L> = Worked<L, Result<u64, Fault>>;

/// How many rounds the flush at a log's end makes at most: some ten seconds of naps.
const FLUSH_ROUNDS: u32 = 100_000;

impl<R: Threads + Wait + Sync, P: Work<R> + Sync> Shared<'_, R, P> {
    /// The session that flushes the whole log, while the crew still serves.
    pub(crate) fn flush_one<L: Realm + Send + Sync>(
        &self,
        log: &Log<L, P::Job>,
        rider: Rider<L>,
        signals: &Signals,
    ) -> FlushTold<L>
        requires { RiderTraces log.now.sizes rider }
        ensures { Tells P.Job log.now beside_crew (is_some self.now.duty.cut_above)
            (FlushesLog P.Job P.Job.gives keeps_any flush_rounds) rider result.1 result.0 }
    {
        let mut session = match Session::enter_beside(self.rt, log, rider, Beside::crew(signals)) {
            Ok(session) => session,
            Err(Refused { fault, back }) => return (Err(fault), back),
        };
        let out = session.flush_log(FLUSH_ROUNDS);
        match session.leave_by_tries(self.duty.cut_above().is_some()) {
            Ok(rider) => (Ok(out), rider),
            Err(Refused { fault, back }) => (Err(fault), back.abandon()),
        }
    }
}
