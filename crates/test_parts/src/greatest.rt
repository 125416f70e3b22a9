//! Logs of `hl` with the greatest numbers that it takes: each slot, frame, place for actions and word of a page is used. A
//! body that gives up above some number is proved, since it may say that memory was refused.
use crate::gathering::Gathering;
use hl::{
    Ask, Closed, Config, Duty, Fault, Log, MemoryDevice, NoJob, Opening, Part, Realm, Rider,
    Session, Six, Sizes, Work, attempt, run_threads, with_log, with_memory, with_threads,
};
use std::process::Abort;
use std::sync::Wait;
use std::sync::atomic::{AtomicU64, Ordering};
use std::test::Fail;

/// The most threads, and so slots; frames; places for actions; and riders. The greatest stamp.
const THREADS: u64 = 1024;

const FRAMES: u64 = 1 << 16;

const ACTIONS: u64 = 4096;

const RIDERS: u64 = 2048;

const STAMP: u64 = 1 << 62;

/// The riders of one thread and a crew.
const FEW_RIDERS: u64 = 5;

/// Words of the shortest pages, and of the longest.
const SHORTEST: u64 = 4;

const LONGEST: u64 = 1 << 20;

/// Steps of a long journal: room for them is 512 MiB, of which nearly nothing is used.
const STEPS: u64 = 1 << 24;

/// How many pages each thread fills: few, since a thousand threads wait for one lock.
const PAGES: u64 = 4;

/// The bytes of the image of one of the shortest pages, and of one of the longest: 8 of its number, and 8 for each word.
const SHORT_IMAGE: u64 = 40;

const LONG_IMAGE: usize = 8_388_616;

/// How many of the longest pages are filled, in two frames.
const LONG_PAGES: u64 = 4;

/// How often a record is tried to be placed again while no frame is free.
const AGAIN: u32 = 100_000;

// Places a record of a whole page, and stores into its last word: whether that finds it.
fn fill_page<R: Wait, L: Realm>(
    session: &mut Session<R, L>,
    words: u64,
    word: u64,
) -> Result<bool, Fault> {
    let address = attempt(session, AGAIN, |session| session.allocate(words))?;
    let last = address.wrapping_add(words).wrapping_sub(1);
    session.store(last, word)?;
    Ok(session.load(last)? == word)
}

// Threads that fill pages while all are in their slots; what finishes uses the frames that are left, and each place for
// actions.
#[derive(Drop)]
struct Crowd {
    gathering: Gathering,
}

impl<R: Wait> Work<R> for Crowd {
    type Job = NoJob;

    type Out = Result<u64, Fault>;

    // How many pages had their word.
    fn run<L: Realm + Send + Sync>(
        &self,
        rt: &R,
        session: &mut Session<R, L>,
        number: u64,
    ) -> Result<u64, Fault> {
        self.gathering.wait_for_all(rt);
        let mut right = 0_u64;
        for page in 0..PAGES {
            session.keep_up()?;
            let word = number.wrapping_mul(PAGES).wrapping_add(page);
            right = right.saturating_add(u64::from(fill_page(session, SHORTEST, word)?));
        }
        Ok(right)
    }

    fn write_page(&self, _rt: &R, _page: u64, _image: &[u8]) -> bool {
        true
    }

    // How many actions were run.
    fn finish<L: Realm + Send + Sync>(
        &self,
        _rt: &R,
        session: &mut Session<R, L>,
    ) -> Option<Result<u64, Fault>> {
        Some(fill_all(session))
    }
}

// Fills the frames that are left, and each place for actions: how many actions were run.
fn fill_all<R: Wait, L: Realm>(session: &mut Session<R, L>) -> Result<u64, Fault> {
    if fill_frames(session)? {
        fill_places(session)
    } else {
        Ok(0)
    }
}

// Fills the frames that all threads left: whether there is none then for one page more.
fn fill_frames<R: Wait, L: Realm>(session: &mut Session<R, L>) -> Result<bool, Fault> {
    let mut are_right = true;
    for page in THREADS * PAGES..FRAMES {
        are_right = fill_page(session, SHORTEST, page)? && are_right;
    }
    Ok(are_right && session.allocate(1) == Err(Fault::Busy { page: FRAMES }))
}

// Stores an action in each place, and runs all: how many were run.
fn fill_places<R: Wait, L: Realm>(session: &mut Session<R, L>) -> Result<u64, Fault> {
    run_actions(session)?;
    for _ in 0..ACTIONS {
        session.bump(Ask::Settle)?;
    }
    match session.bump(Ask::Settle) {
        Err(refused) if refused.fault == Fault::DrainFull => run_actions(session),
        _ => Ok(0),
    }
}

// Runs the actions that are stored: how many.
fn run_actions<R: Wait, L: Realm>(session: &mut Session<R, L>) -> Result<u64, Fault> {
    session.refresh()?;
    let mut ran = 0_u64;
    for _ in 0..=ACTIONS {
        ran = ran.saturating_add(u64::from(session.help()?));
    }
    Ok(ran)
}

#[test]
fn a_log_of_many_threads_is_filled(rt: HostRuntime) -> Result<(), Fail> {
    let config = Config {
        page_size: SHORTEST,
        actions: ACTIONS,
        journal: STEPS,
        ..Config::for_threads(THREADS).with_frames(FRAMES)
    };
    let work = Crowd {
        gathering: Gathering::of(THREADS),
    };
    let finished = run_threads(&rt, rt.alloc(), config, &work)?;
    assert_eq!(rt; finished.outs.len() as u64, THREADS);
    assert!(rt; finished.outs.iter().all(|out| *out == Ok(PAGES)));
    assert_eq!(rt; finished.last, Some(Ok(ACTIONS)));
    assert_eq!(rt; finished.ending.snapshot.six.tail, FRAMES * SHORTEST);
    Ok(())
}

// All sizes the greatest but that of the pages; for so many riders.
fn greatest_of(riders: u64) -> Result<Opening, Fault> {
    let params = Sizes::checked(SHORTEST, FRAMES, THREADS, ACTIONS).ok_or(Fault::Size)?;
    Ok(Opening {
        params,
        riders,
        journal: STEPS,
        stamp: STAMP,
    })
}

// One thread fills pages of it, beside a crew. The device is first the work's, and then memory.
#[test]
fn a_log_of_the_greatest_sizes_is_used(rt: HostRuntime) -> Result<(), Fail> {
    let opening = greatest_of(FEW_RIDERS)?;
    let duty = Duty::checked(opening.params, 1, FRAMES - 1).ok_or(Fault::Size)?;
    let work = Crowd {
        gathering: Gathering::of(1),
    };
    let closed = with_threads(&rt, rt.alloc(), opening, duty, &work)?;
    assert_eq!(rt; closed.out.outs.as_slice(), [Ok(Ok(PAGES))].as_slice());
    let device = MemoryDevice::open(rt.alloc(), PAGES, SHORT_IMAGE)?;
    let closed = with_memory(&rt, rt.alloc(), opening, duty, &work, device)?;
    assert_eq!(rt; closed.out.outs.as_slice(), [Ok(Ok(PAGES))].as_slice());
    assert_eq!(rt; closed.ending?.snapshot.six.tail, PAGES * SHORTEST);
    Ok(())
}

// Tells how many riders it was given.
#[derive(Drop)]
struct Counting;

impl<R: Wait> Part<R> for Counting {
    type Job = NoJob;

    type Out = u64;

    fn run<L: Realm + Send + Sync>(
        self,
        _rt: &R,
        _log: &Log<L, NoJob>,
        riders: Vec<Rider<L>>,
    ) -> (u64, Vec<Rider<L>>) {
        (riders.len() as u64, riders)
    }
}

#[test]
fn a_log_has_the_most_riders(rt: HostRuntime) -> Result<(), Fail> {
    let closed = match with_log(&rt, rt.alloc(), greatest_of(RIDERS)?, Counting) {
        Ok(closed) => closed,
        Err(refused) => Err(refused.fault)?,
    };
    assert_eq!(rt; closed.out, RIDERS);
    assert_eq!(rt; closed.ending?.snapshot.frames, [0, 0, 0, 0, FRAMES]);
    Ok(())
}

// A thread that fills the longest pages. Each image is to have the word that was stored last on its page.
#[derive(Drop)]
struct LongPages {
    images: AtomicU64,
}

impl LongPages {
    fn none_written() -> LongPages {
        LongPages {
            images: AtomicU64::new(0),
        }
    }
}

impl<R: Wait> Work<R> for LongPages {
    type Job = NoJob;

    type Out = Result<u64, Fault>;

    fn run<L: Realm + Send + Sync>(
        &self,
        _rt: &R,
        session: &mut Session<R, L>,
        _number: u64,
    ) -> Result<u64, Fault> {
        let mut right = 0_u64;
        for page in 0..LONG_PAGES {
            right = right.saturating_add(u64::from(fill_page(session, LONGEST, page + 1)?));
        }
        Ok(right)
    }

    fn write_page(&self, _rt: &R, page: u64, image: &[u8]) -> bool {
        self.images
            .fetch_add(u64::from(is_long(image, page)), Ordering::SeqCst);
        true
    }
}

// Whether it is the image of this one of the longest pages: its last word is the page's number and one more, and the one
// before that 0.
fn is_long(image: &[u8], page: u64) -> bool {
    image.len() == LONG_IMAGE
        && image.get(..8) == Some(&page.to_be_bytes())
        && image.get(LONG_IMAGE - 16..LONG_IMAGE - 8) == Some(&[0; 8])
        && image.get(LONG_IMAGE - 8..) == Some(&page.wrapping_add(1).to_be_bytes())
}

fn long_pages() -> Config {
    Config {
        page_size: LONGEST,
        ..Config::for_threads(1).with_frames(2)
    }
}

// The same for those calls that have no rider for what finishes.
fn long_opening() -> Result<(Opening, Duty), Fault> {
    let (opening, duty) = long_pages().checked()?;
    let riders = opening.riders.saturating_sub(1);
    Ok((Opening { riders, ..opening }, duty))
}

// How many pages were flushed. At least two of four were, since there are two frames.
fn flushed_of(rt: &impl Abort, six: Six) -> u64 {
    let pages = six.flushed / LONGEST;
    assert!(rt; 2 <= pages && pages < LONG_PAGES);
    assert_eq!(rt; six.tail, LONG_PAGES * LONGEST);
    pages
}

#[test]
fn the_longest_pages_of_run_threads(rt: HostRuntime) -> Result<(), Fail> {
    let work = LongPages::none_written();
    let finished = run_threads(&rt, rt.alloc(), long_pages(), &work)?;
    assert_eq!(rt; finished.outs.as_slice(), [Ok(LONG_PAGES)].as_slice());
    let flushed = flushed_of(&rt, finished.ending.snapshot.six);
    assert_eq!(rt; work.images.load(Ordering::SeqCst), flushed);
    Ok(())
}

#[test]
fn the_longest_pages_of_with_threads(rt: HostRuntime) -> Result<(), Fail> {
    let work = LongPages::none_written();
    let (opening, duty) = long_opening()?;
    let closed = with_threads(&rt, rt.alloc(), opening, duty, &work)?;
    assert_eq!(rt; closed.out.outs.as_slice(), [Ok(Ok(LONG_PAGES))].as_slice());
    let flushed = flushed_of(&rt, closed.ending?.snapshot.six);
    assert_eq!(rt; work.images.load(Ordering::SeqCst), flushed);
    Ok(())
}

#[test]
fn the_longest_pages_of_with_memory(rt: HostRuntime) -> Result<(), Fail> {
    let work = LongPages::none_written();
    let (opening, duty) = long_opening()?;
    let device = MemoryDevice::open(rt.alloc(), LONG_PAGES, LONG_IMAGE as u64)?;
    let closed = with_memory(&rt, rt.alloc(), opening, duty, &work, device)?;
    let Closed { out, ending } = closed;
    assert_eq!(rt; out.outs.as_slice(), [Ok(Ok(LONG_PAGES))].as_slice());
    for page in 0..flushed_of(&rt, ending?.snapshot.six) {
        assert!(rt;
            out.device
                .image(page)
                .is_some_and(|image| is_long(image, page))
        );
    }
    Ok(())
}
