//! How long a thread waits for frames beside a crew that has been idle, if it wakes the crew and if it doesn't.
use hl::{Duty, Fault, NoJob, Opening, Params, Realm, Returned, Session, Work, with_threads};
use std::alloc::Global;
use std::sync::Wait;
use std::thread;
use std::thread::Threads;
use std::time::{Clock, Duration, Instant};

/// Words a page, and frames.
const PAGE: u64 = 64;

const FRAMES: u64 = 8;

/// How many pages a filling enters.
const PAGES: u64 = 2 * FRAMES;

/// How long the crew is left idle before each filling, in milliseconds: by then it sleeps its longest.
const IDLE: u64 = 400;

/// How often a record is tried to be placed, each time a millisecond after the last.
const TRIES: u64 = 10_000;

/// A thread that fills pages, now with a crew that it wakes and now without.
#[derive(Drop)]
struct Filler {
    rounds: u64,
}

/// How long it took in all, in microseconds.
#[derive(Clone, Copy)]
pub(crate) struct Waited {
    /// Where a thread without a frame woke the crew.
    pub(crate) rung: u64,
    /// Where it didn't.
    pub(crate) left: u64,
}

impl<R: Wait + Clock> Work<R> for Filler {
    type Job = NoJob;

    type Out = Result<Waited, Fault>;

    fn run<L: Realm + Send + Sync>(
        &self,
        rt: &R,
        session: &mut Session<R, L>,
        _number: u64,
    ) -> Result<Waited, Fault> {
        let mut waited = Waited { rung: 0, left: 0 };
        for _ in 0..self.rounds {
            waited.rung = waited.rung.saturating_add(fill(rt, session, true)?);
            waited.left = waited.left.saturating_add(fill(rt, session, false)?);
        }
        Ok(waited)
    }

    fn write_page(&self, _rt: &R, _page: u64, _image: &[u8]) -> bool {
        true
    }
}

// Lets the crew be idle, and then enters more pages than there are frames: how many microseconds that took.
fn fill<R: Wait + Clock, L: Realm>(
    rt: &R,
    session: &mut Session<R, L>,
    rings: bool,
) -> Result<u64, Fault> {
    session.refresh()?;
    thread::sleep(rt, Duration::from_millis(IDLE));
    let start = Instant::now(rt).map_err(|_| Fault::Stream)?;
    for _ in 0..PAGES {
        enter_page(rt, session, rings)?;
    }
    let passed = start.elapsed(rt).map_err(|_| Fault::Stream)?;
    Ok(u64::try_from(passed.as_micros()).unwrap_or(u64::MAX))
}

// Places a record of a whole page, as soon as a frame is free for it.
fn enter_page<R: Wait + Clock, L: Realm>(
    rt: &R,
    session: &mut Session<R, L>,
    rings: bool,
) -> Result<u64, Fault> {
    for _ in 0..TRIES {
        match session.allocate(PAGE) {
            Err(Fault::Busy { .. }) => {
                if rings {
                    session.help()?;
                } else {
                    session.refresh()?;
                }
                thread::sleep(rt, Duration::from_millis(1));
            }
            placed => return placed,
        }
    }
    session.allocate(PAGE)
}

/// How many rounds the program's words ask for; `None` if they ask for something else.
pub(crate) fn read(words: &[String]) -> Option<u64> {
    match words {
        [_, kind, rounds] if kind.as_str() == "rings" => rounds.parse().ok(),
        _ => None,
    }
}

/// Opens a log in which a thread fills pages so many times in each way, and closes it.
///
/// A fault where a call was refused, or memory or a thread; `Stream` if the clock failed.
pub(crate) fn run<R: Threads + Wait + Clock + Sync>(
    rt: &R,
    alloc: Global,
    rounds: u64,
) -> Result<Waited, Fault> {
    let params = Params::checked(PAGE, FRAMES, 1, 16).ok_or(Fault::Size)?;
    let opening = Opening {
        params,
        riders: 5,
        journal: 10_000,
        stamp: 1,
    };
    let duty = Duty::checked(params, 2, 4).ok_or(Fault::Size)?;
    let duty = duty.cutting_above(1_000);
    let closed = with_threads(rt, alloc, opening, duty, &Filler { rounds })?;
    let mut all = Waited { rung: 0, left: 0 };
    let Returned { outs, crew } = closed.out;
    crew?;
    closed.ending?;
    for out in outs {
        let waited = out??;
        all.rung = all.rung.saturating_add(waited.rung);
        all.left = all.left.saturating_add(waited.left);
    }
    Ok(all)
}
