ghost use Rattle.std.specs.Prelude.{◌≡◌, None, OnOk, is_none, replicate};
ghost use Rattle.hl_crew.specs.Flushes.{AreFlushed};
ghost use Rattle.hl_crew.specs.Goes.{UpTo};
ghost use Rattle.hl_crew.specs.Pouches.{load_count};
ghost use Rattle.hl_crew.specs.Runs.{FlushesIf, MakesTurn, TurnsBy, TurnsNext, Serves, ServesOnce, ServesUntil};
ghost use Rattle.hl_crew.specs.Works.{IsNamed};

use crate::counts::Counts;
use crate::cutting::cut_if_due;
use crate::given::Left;
use crate::messages::{Channels, Over};
use crate::mode::Mode;
use crate::pouch::Pouch;
use crate::run::Run;
use crate::seats::{Done, Seat};
use crate::sleepers::AllTold;
use crate::stop::{Stop, Stopped};
use hl_action::{Promise, Task};
use hl_epoch::Epochs;
use hl_words::{Realm, Rider};
use std::sync::atomic::Ordering;
use std::sync::{Mutex, Wait};

mod acknowledgements;
mod actions;
mod asked;
mod lag;
mod pages;

pub(crate) use asked::Asked;

/// What the flusher has of its own.
#[derive(Drop)]
pub(crate) struct FlusherState<L: Realm> {
    pub(crate) rider: Rider<L>,
    /// The flushes of the pages that it sent.
    pub(crate) counts: Counts,
    /// What its own settle and close are to reach.
    pub(crate) asked: Asked,
}

impl<R: Wait, E: Epochs + Drop, F: Task, P: Promise, L: Realm, G> Run<'_, R, E, F, P, L, G> {
    /// The flusher's thread: makes its turns until they are over, and then ends the others.
    pub(crate) fn run_flusher<K: Left<FlusherState<L>>>(
        &self,
        own: &Mutex<Seat<FlusherState<L>, K>>,
    ) -> (Done, AllTold)
        requires { IsNamed K.left
            (TurnsBy F self.now.domain.now self.now.limits (is_none self.now.channels)) }
    {
        let mut guard = own.lock(self.rt);
        let seat = &mut *guard;
        if !seat.is_done {
            self.make_all_turns(&mut seat.own);
            seat.is_done = true;
        }
        (seat.done(), self.end())
    }

    // Makes its turns, as many as the limits say, or until the stop.
    fn make_all_turns(&self, own: &mut FlusherState<L>)
        ensures { TurnsBy F self.now.domain.now self.now.limits (is_none self.now.channels)
            own.old own.new }
    {
        match &self.mode {
            Mode::Turns => {
                let _ = self.make_turns(own);
            }
            Mode::Until(stop) => {
                let _ = self.serve(own, stop);
            }
        }
    }

    // Makes as many turns as the limits say, up to the first that failed. After each it wakes the cleaner.
    #[tactic(auto, using(crate::proofs::GoesLaws::going))]
    fn make_turns(&self, own: &mut FlusherState<L>) -> Result<(), Over>
        ensures { UpTo (TurnsNext F self.now.domain.now self.now.limits
            (is_none self.now.channels)) self.now.limits.turns result own.old own.new }
    {
        for _ in 0..self.limits.turns() {
            let made = self.turn(own);
            self.sleepers.cleaner.wake();
            made?;
        }
        Ok(())
    }

    // Makes turns until the stop is given, or the first after which it can't go on.
    fn serve<'y>(&self, own: &mut FlusherState<L>, stop: &'y Stop) -> Result<Stopped<'y>, Over>
        ensures { ServesUntil F self.now.domain.now self.now.limits
            (is_none self.now.channels) result own.old own.new }
    {
        let rt = self.rt;
        let mut vain = 0;
        for _ in rt.forever() {
            if let Some(stopped) = stop.stopped() {
                return Ok(stopped);
            }
            match self.serve_once(own, stop, vain) {
                Ok(after) => vain = after,
                Err(over) => return Err(over),
            }
        }
        unreachable!()
    }

    // Makes a turn, and rests if that got nowhere, and no page was written meanwhile. Returns how many such turns there
    // are in a row, with `vain` before it.
    fn serve_once(&self, own: &mut FlusherState<L>, stop: &Stop, vain: u64) -> Result<u64, Over>
        ensures { ServesOnce F self.now.domain.now self.now.limits
            (is_none self.now.channels) vain result own.old own.new }
    {
        let moved = self.serve_turn(own)?;
        let written = self.has_written.swap(false, Ordering::SeqCst);
        Ok(stop.rest_unless(self.rt, written || moved, vain))
    }

    /// Makes a turn. True if that entered a step. A full journal that may be cut
    /// doesn't end the turns.
    pub(crate) fn serve_turn(&self, own: &mut FlusherState<L>) -> Result<bool, Over>
        ensures { Serves F self.now.domain.now self.now.limits
            (is_none self.now.channels) result own.old own.new }
    {
        let share = own.rider.share();
        let made = self.turn(own);
        let has_moved = own.rider.share() != share;
        let made = made.and(Ok(has_moved));
        self.cut_if_full(&mut own.rider, made)
    }

    // One turn: the lag, the actions, the pages, and the cut.
    fn turn(&self, own: &mut FlusherState<L>) -> Result<(), Over>
        ensures { MakesTurn F self.now.domain.now self.now.limits
            (is_none self.now.channels) result own.old own.new }
    {
        self.keep_lag(own)?;
        self.run_actions(&mut own.rider)?;
        self.flush_sent(own)?;
        cut_if_due(self.rt, self.domain, &mut own.rider, self.limits.cuts());
        Ok(())
    }

    // Flushes pages, unless the writers take these themselves.
    fn flush_sent(&self, own: &mut FlusherState<L>) -> Result<(), Over>
        ensures { FlushesIf F self.now.domain.now (is_none self.now.channels) result
            own.old own.new }
    {
        let Some(channels) = &self.channels else {
            return Ok(());
        };
        let mut pouch = Pouch::new();
        let flushed = self.flush_by(channels, own, &mut pouch);
        pouch.forsake();
        flushed
    }

    // Sends pages to the writers, and answers each of them: no page is left in the pouch. If a call
    // of the domain or a channel failed, what is left there can't be answered.
    fn flush_by(
        &self,
        channels: &Channels,
        own: &mut FlusherState<L>,
        pouch: &mut Pouch,
    ) -> Result<(), Over>
        requires { pouch.old ≡ replicate 4 None }
        ensures none { OnOk result (load_count pouch.new ≡ 0) }
        ensures flushes { AreFlushed F self.now.domain.now result own.old own.new }
    {
        let mut sent = 0;
        let all_sent = self.send_pages(channels, &mut own.rider, pouch, &mut sent);
        let received = self.answer_acknowledged(channels, own, pouch, sent);
        let answered = self.answer_others(own, pouch);
        all_sent.and(received).and(answered)
    }
}
