//! One that is asked, and the values that the calls of an example use and give.
use crate::asked::{Either, NO_CALL, Taken};
use crate::call::Call;
use crate::jobs::{Anything, Asked, Tells, job};
use hl_domain::{Ending, Pass};
use hl_drain::Ask;
use hl_epoch::Epochs;
use hl_model::{Fault, Reply, Step, Tagged};
use hl_words::{Realm, Rider};
use std::alloc::{AllocError, Global};
use std::mem::swap;
use std::sync::Wait;
use std::test::Fail;

/// One that is asked, with a rider for what needs no slot, the passes of two slots, the riders that are idle, and what
/// was taken.
#[derive(Drop)]
pub(crate) struct Play<E: Epochs, L: Realm> {
    pub(crate) asked: Either<E, L>,
    pub(crate) rider: Rider<L>,
    passes: Vec<Option<Pass<L>>>,
    pub(crate) idle: Vec<Rider<L>>,
    pub(crate) taken: Vec<Taken>,
}

impl<E: Epochs + Drop, L: Realm> Play<E, L> {
    /// It was asked nothing yet.
    pub(crate) fn of(
        alloc: Global,
        asked: Either<E, L>,
        riders: Vec<Rider<L>>,
    ) -> Result<Play<E, L>, Fail> {
        let mut idle = riders;
        let rider = idle.pop().ok_or("a rider")?;
        let passes = vec![in alloc; None, None]?;
        Ok(Play {
            asked,
            rider,
            passes,
            idle,
            taken: Vec::new(alloc),
        })
    }

    /// What is left, where all riders are idle.
    pub(crate) fn close(self) -> Result<Option<Ending<Tells, Anything>>, AllocError> {
        let Play {
            asked,
            rider,
            mut idle,
            ..
        } = self;
        idle.push(rider)?;
        Ok(asked.close(idle))
    }

    /// What the call is answered.
    pub(crate) fn answer(&mut self, rt: &impl Wait, call: Call) -> Result<Reply, Fault> {
        match call {
            Call::Step(step) => self.make(rt, step),
            Call::Abandon(t) => self.abandon(t),
            Call::Claim(t) => self.claim(rt, t),
            Call::Stamp(t) => match self.passes.get(t as usize) {
                Some(Some(pass)) => Ok(Reply::Answer(pass.stamp())),
                _ => Err(NO_CALL),
            },
            Call::Forsake(page) => {
                let taken = self.find(Step::FlushDone { page, ok: true })?;
                Ok(taken.out.reply())
            }
            Call::Cut => Ok(Reply::Answer(self.asked.cut(rt, &mut self.rider))),
        }
    }

    fn abandon(&mut self, t: u64) -> Result<Reply, Fault> {
        let pass = self.leave(t).ok_or(NO_CALL)?;
        keep(&mut self.idle, pass.abandon())?;
        Ok(Reply::Left)
    }

    // The rider without a slot asks for one, in the place of an idle one; a refusal leaves each where it was.
    fn claim(&mut self, rt: &impl Wait, t: u64) -> Result<Reply, Fault> {
        let Some(idle) = self.idle.last_mut() else {
            return Err(NO_CALL);
        };
        swap(idle, &mut self.rider);
        let answer = self.acquire(rt, t);
        if let Some(idle) = self.idle.last_mut() {
            swap(idle, &mut self.rider);
        }
        answer
    }

    // Makes the step of a line.
    fn make(&mut self, rt: &impl Wait, step: Step) -> Result<Reply, Fault> {
        match step {
            Step::Acquire { t } => self.acquire(rt, t),
            Step::Release { t } => self.release(rt, t),
            Step::Refresh { t }
            | Step::Look { t, .. }
            | Step::Allocate { t, .. }
            | Step::Read { t, .. }
            | Step::Write { t, .. } => match self.passes.get_mut(t as usize) {
                Some(Some(pass)) => self.asked.of_pass(rt, pass, step),
                _ => Err(NO_CALL),
            },
            Step::Bump { tag } => self.bump(rt, job(tag, 10)),
            Step::Settle => self.bump(rt, Ask::Settle),
            Step::Close => self.bump(rt, Ask::Close),
            Step::Take | Step::FlushTake | Step::CleanTake => self.take(rt, step),
            Step::Done { .. } | Step::FlushDone { .. } | Step::CleanDone { .. } => {
                self.done(rt, step)
            }
            Step::Bare | Step::Raise { .. } | Step::Shift { .. } => {
                self.asked.of_rider(rt, &mut self.rider, step)
            }
        }
    }

    fn acquire(&mut self, rt: &impl Wait, t: u64) -> Result<Reply, Fault> {
        let rider = self.idle.pop().ok_or(NO_CALL)?;
        match self.asked.acquire(rt, t, rider) {
            Ok(pass) => {
                let view = pass.view();
                self.seat(t, pass);
                Ok(Reply::Looked(view))
            }
            Err((fault, rider)) => {
                keep(&mut self.idle, rider)?;
                Err(fault)
            }
        }
    }

    fn release(&mut self, rt: &impl Wait, t: u64) -> Result<Reply, Fault> {
        let pass = self.leave(t).ok_or(NO_CALL)?;
        match self.asked.release(rt, pass) {
            Ok(rider) => {
                keep(&mut self.idle, rider)?;
                Ok(Reply::Left)
            }
            Err((fault, pass)) => {
                self.seat(t, pass);
                Err(fault)
            }
        }
    }

    // Keeps the pass of a slot. The slots are 0 and 1.
    fn seat(&mut self, t: u64, pass: Pass<L>) {
        if let Some(place) = self.passes.get_mut(t as usize) {
            *place = Some(pass);
        }
    }

    fn leave(&mut self, t: u64) -> Option<Pass<L>> {
        self.passes.get_mut(t as usize)?.take()
    }

    // A refused bump hands back what it was asked to store.
    fn bump(&mut self, rt: &impl Wait, ask: Asked) -> Result<Reply, Fault> {
        let tag = tag_of(&ask);
        match self.asked.bump(rt, &mut self.rider, ask) {
            Ok(ticket) => Ok(Reply::Ticket(ticket)),
            Err((fault, back)) if tag_of(&back) == tag => Err(fault),
            Err(_) => Err(NO_CALL),
        }
    }

    fn take(&mut self, rt: &impl Wait, step: Step) -> Result<Reply, Fault> {
        let out = self.asked.take(rt, &mut self.rider, step)?;
        let reply = out.reply();
        keep(&mut self.taken, Taken { out })?;
        Ok(reply)
    }

    fn done(&mut self, rt: &impl Wait, step: Step) -> Result<Reply, Fault> {
        let out = self.find(step)?.into_out();
        let ok = !matches!(step, Step::FlushDone { ok: false, .. });
        match self.asked.done(rt, &mut self.rider, out, ok) {
            Ok(reply) => Ok(reply),
            Err((fault, out)) => {
                keep(&mut self.taken, Taken { out })?;
                Err(fault)
            }
        }
    }

    // What this line is done with.
    fn find(&mut self, step: Step) -> Result<Taken, Fault> {
        let place = self.taken.iter().position(|taken| taken.out.is_of(step));
        Ok(self.taken.remove(place.ok_or(NO_CALL)?))
    }
}

fn keep<T: Drop>(row: &mut Vec<T>, value: T) -> Result<(), Fault> {
    match row.push(value) {
        Ok(()) => Ok(()),
        Err(_) => Err(Fault::OutOfMemory),
    }
}

fn tag_of(ask: &Asked) -> Option<u64> {
    match ask {
        Ask::User(kept) => Some(kept.tag()),
        Ask::Settle | Ask::Close => None,
    }
}
