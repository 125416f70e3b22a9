//! A log of one thread, which is its own crew: between its operations it does what a crew's threads do.
use crate::counters::{Counters, Pause};
use crate::digest::Digest;
use crate::failure::Failure;
use hl::{Ask, Fault, Log, NoJob, Opening, Params, Part, Realm, Rider, Session, Step, with_log};
use hl_lag::lag_steps;
use std::alloc::Global;
use std::sync::Wait;

/// What the thread is to do.
#[derive(Clone, Copy)]
pub(crate) struct Plan {
    pub(crate) seed: u64,
    pub(crate) page_size: u64,
    pub(crate) frames: u64,
    pub(crate) counters: u64,
    /// How many words are leased at a time.
    pub(crate) piece: u64,
    pub(crate) turns: u64,
    /// How many operations come between two turns of the crew.
    pub(crate) operations: u64,
}

/// Makes the turns. Returns the digest of what was seen meanwhile, and of what they left.
pub(crate) fn run<R: Wait>(rt: &R, alloc: Global, plan: Plan) -> Result<u64, Failure> {
    let opening = Opening {
        params: Params::wide(plan.page_size, plan.frames, 4, 16).ok_or(Fault::Size)?,
        riders: 2,
        journal: 1 << 17,
        stamp: 1,
    };
    let image = vec![in alloc; 0; plan.page_size as usize].map_err(|_| Fault::OutOfMemory)?;
    let counters = Counters::new(alloc, plan.seed, 0, plan.counters, plan.piece)?;
    let hand = Hand {
        plan,
        counters,
        image,
        digest: Digest::new(),
    };
    match with_log(rt, alloc, opening, hand) {
        Ok(closed) => {
            let mut digest = closed.out?;
            let ending = closed.ending?;
            digest.add_snapshot(&ending.snapshot);
            Ok(digest.value())
        }
        Err(refused) => Err(refused.fault.into()),
    }
}

/// The thread.
#[derive(Drop)]
struct Hand {
    plan: Plan,
    counters: Counters,
    image: Vec<u64>,
    digest: Digest,
}

/// A thread that is alone has nobody to wait for.
#[derive(Drop)]
struct Alone;

impl Pause for Alone {
    fn pause(&mut self) {}
}

impl<R: Wait> Part<R> for Hand {
    type Job = NoJob;

    type Out = Result<Digest, Failure>;

    fn run<L: Realm + Send + Sync>(
        self,
        rt: &R,
        log: &Log<L, NoJob>,
        riders: Vec<Rider<L>>,
    ) -> (Result<Digest, Failure>, Vec<Rider<L>>) {
        let mut this = self;
        let mut riders = riders;
        let (Some(flusher), Some(rider)) = (riders.pop(), riders.pop()) else {
            return (Err(Fault::Size.into()), riders);
        };
        let mut flusher = flusher;
        let mut session = match Session::enter(rt, log, rider) {
            Ok(session) => session,
            Err(refused) => return (Err(refused.fault.into()), riders),
        };
        let made = this.make_turns(rt, log, &mut session, &mut flusher);
        session.cut();
        let rider = match session.leave() {
            Ok(rider) => rider,
            Err(refused) => refused.back.abandon(),
        };
        let _ = riders.push(rider);
        let _ = riders.push(flusher);
        let told = this.counters.tell(&mut this.digest);
        let out = match made {
            Ok(()) => told.map(|()| this.digest),
            Err(fault) => Err(fault.into()),
        };
        (out, riders)
    }
}

impl Hand {
    fn make_turns<R: Wait, L: Realm>(
        &mut self,
        rt: &R,
        log: &Log<L>,
        session: &mut Session<R, L>,
        flusher: &mut Rider<L>,
    ) -> Result<(), Fault> {
        for _ in 0..self.plan.turns {
            for _ in 0..self.plan.operations {
                let seen = self.counters.operate(session, &mut Alone)?;
                self.digest.add_view(seen);
            }
            self.keep_lag(rt, log, flusher)?;
            session.refresh()?;
            finish_all(rt, log, flusher)?;
            self.flush(rt, log, flusher)?;
            clean(rt, log, flusher)?;
            let (now, steps, _) = log.snapshot(rt);
            self.digest.add_snapshot(&now);
            if steps > 1 << 14 {
                self.digest.add(log.cut(rt, flusher));
            }
        }
        Ok(())
    }

    // The next steps of the lag, as a crew makes them: a quarter of the frames is kept free, and of the others a quarter
    // isn't mutable.
    fn keep_lag<R: Wait, L: Realm>(
        &mut self,
        rt: &R,
        log: &Log<L>,
        flusher: &mut Rider<L>,
    ) -> Result<(), Fault> {
        let (now, _, _) = log.snapshot(rt);
        self.digest.add_snapshot(&now);
        if now.pending > 0 || now.taken > 0 {
            return Ok(());
        }
        let params = log.params();
        let resident = params.frames() / 4 * 3;
        let mutable = resident / 4 * 3;
        if mutable == 0 || resident < mutable {
            return Ok(());
        }
        for step in &lag_steps(params, now.six, mutable, resident) {
            match *step {
                Step::Raise { x } => log.raise(rt, flusher, x)?,
                Step::Shift { x } => log.shift(rt, flusher, x)?,
                Step::Settle => bump(rt, log, flusher, Ask::Settle)?,
                _ => bump(rt, log, flusher, Ask::Close)?,
            };
        }
        Ok(())
    }

    // Flushes what is sealed: its words go into the digest.
    fn flush<R: Wait, L: Realm>(
        &mut self,
        rt: &R,
        log: &Log<L>,
        flusher: &mut Rider<L>,
    ) -> Result<(), Fault> {
        for _ in 0..log.params().frames() {
            if self.image.len() as u64 != log.params().page_size() {
                return Err(Fault::Size);
            }
            let load = match log.flush_take(rt, flusher) {
                Ok(load) => load,
                Err(Fault::NoneSealed) => return Ok(()),
                Err(fault) => return Err(fault),
            };
            let copied = log.copy_page(load.job(), flusher, &mut self.image);
            for word in &self.image {
                self.digest.add(*word);
            }
            if let Err((fault, load)) = log.flush_done(rt, flusher, load, copied.is_ok()) {
                load.forsake();
                return Err(fault);
            }
        }
        Ok(())
    }
}

// Stores an action.
fn bump<R: Wait, L: Realm>(
    rt: &R,
    log: &Log<L>,
    flusher: &mut Rider<L>,
    ask: Ask<hl::Kept<NoJob, hl::AnyAnswer>>,
) -> Result<u64, Fault> {
    log.bump(rt, flusher, ask).map_err(|(fault, _)| fault)
}

// Carries out all actions that are safe.
fn finish_all<R: Wait, L: Realm>(
    rt: &R,
    log: &Log<L>,
    flusher: &mut Rider<L>,
) -> Result<(), Fault> {
    for _ in 0..log.params().drain() {
        let ready = match log.take(rt, flusher) {
            Ok(ready) => ready,
            Err(Fault::Empty) => return Ok(()),
            Err(fault) => return Err(fault),
        };
        if let Err((fault, ran)) = log.done(rt, flusher, ready.run()) {
            ran.forsake();
            return Err(fault);
        }
    }
    Ok(())
}

// Cleans what is closed.
fn clean<R: Wait, L: Realm>(rt: &R, log: &Log<L>, flusher: &mut Rider<L>) -> Result<(), Fault> {
    for _ in 0..log.params().frames() {
        let mut broom = match log.clean_take(rt, flusher) {
            Ok(broom) => broom,
            Err(Fault::NoneClosed) => return Ok(()),
            Err(fault) => return Err(fault),
        };
        let swept = log.sweep(&mut broom, flusher);
        if let Err((fault, broom)) = log.clean_done(rt, flusher, broom) {
            broom.forsake();
            swept?;
            return Err(fault);
        }
    }
    Ok(())
}
