//! A log of `hl` by its configuration: when a work finishes, and what a number out of its range is called.
use crate::gathering::Gathering;
use hl::{Config, Fault, NoJob, Number, Realm, Session, Work, attempt, run_threads};
use std::sync::Wait;
use std::sync::atomic::AtomicU64;
use std::sync::atomic::Ordering::SeqCst;
use std::test::Fail;

/// How often an operation is tried again beside a crew.
const AGAIN: u32 = 100_000;

/// How many threads fill pages at a time.
const FILLING: u64 = 3;

/// How many calls that enter steps a session makes that finishes, of each kind.
const CALLS: u64 = 300;

// Threads that count how many of them have ended; what finishes tells how many had by then, and counts for ten.
#[derive(Drop)]
struct Ends {
    ended: AtomicU64,
}

impl<R: Wait> Work<R> for Ends {
    type Job = NoJob;

    type Out = u64;

    fn run<L: Realm + Send + Sync>(
        &self,
        _rt: &R,
        _session: &mut Session<R, L>,
        number: u64,
    ) -> u64 {
        self.ended.fetch_add(1, SeqCst);
        number
    }

    fn finish<L: Realm + Send + Sync>(&self, _rt: &R, _session: &mut Session<R, L>) -> Option<u64> {
        Some(self.ended.fetch_add(10, SeqCst))
    }

    fn write_page(&self, _rt: &R, _page: u64, _image: &[u8]) -> bool {
        true
    }
}

// The least number of frames; the threads leave in any order.
#[test]
fn a_work_finishes_once_and_after_its_threads(rt: HostRuntime) -> Result<(), Fail> {
    let work = Ends {
        ended: AtomicU64::new(0),
    };
    let config = Config {
        page_size: 4,
        ..Config::for_threads(3).with_frames(2)
    };
    let finished = run_threads(&rt, rt.alloc(), config, &work)?;
    assert_eq!(rt; finished.outs.as_slice(), [0, 1, 2].as_slice());
    assert_eq!(rt; finished.last, Some(3));
    assert_eq!(rt; work.ended.load(SeqCst), 13);
    Ok(())
}

// What finishes leaves no room in the journal, with no crew beside it that cuts.
#[derive(Drop)]
struct Fills;

impl<R: Wait> Work<R> for Fills {
    type Job = NoJob;

    type Out = bool;

    fn run<L: Realm + Send + Sync>(
        &self,
        _rt: &R,
        _session: &mut Session<R, L>,
        _number: u64,
    ) -> bool {
        false
    }

    fn finish<L: Realm + Send + Sync>(&self, _rt: &R, session: &mut Session<R, L>) -> Option<bool> {
        for _ in 0..64 {
            if session.refresh() == Err(Fault::JournalFull) {
                return Some(true);
            }
        }
        Some(false)
    }

    fn write_page(&self, _rt: &R, _page: u64, _image: &[u8]) -> bool {
        true
    }
}

#[test]
fn a_session_that_filled_the_journal_is_left(rt: HostRuntime) -> Result<(), Fail> {
    let config = Config {
        page_size: 4,
        journal: 33,
        ..Config::for_threads(1).with_frames(2)
    };
    let finished = run_threads(&rt, rt.alloc(), config, &Fills)?;
    assert_eq!(rt; finished.last, Some(true));
    assert_eq!(rt; finished.ending.journal.len(), 1);
    Ok(())
}

// Threads that fill pages once each of them is in its session: an entry at a full journal isn't tried again.
#[derive(Drop)]
struct FillsPages {
    gathering: Gathering,
}

impl<R: Wait> Work<R> for FillsPages {
    type Job = NoJob;

    type Out = Result<u64, Fault>;

    fn run<L: Realm + Send + Sync>(
        &self,
        rt: &R,
        session: &mut Session<R, L>,
        number: u64,
    ) -> Result<u64, Fault> {
        self.gathering.wait_for_all(rt);
        for _ in 0..8 {
            attempt(session, AGAIN, |session| session.append(&[number; 32]))?;
        }
        Ok(number)
    }

    fn write_page(&self, _rt: &R, _page: u64, _image: &[u8]) -> bool {
        true
    }
}

// A log of pages that take all touches of a session, with four frames and a journal of so many steps.
fn filled_pages(journal: u64) -> Config {
    Config {
        page_size: 32,
        journal,
        ..Config::for_threads(FILLING).with_frames(4)
    }
}

// A journal without room for a session's touches and a step is refused; in the shortest that has it, pages are filled
// that the crew flushes and whose frames it frees.
#[test]
fn the_shortest_journal_has_room_for_a_session(rt: HostRuntime) -> Result<(), Fail> {
    let work = FillsPages {
        gathering: Gathering::of(FILLING),
    };
    for journal in [0, 1, 2, 8, 32] {
        let config = filled_pages(journal);
        assert_eq!(rt; config.out_of_range(), Some(Number::Journal));
        let refused = run_threads(&rt, rt.alloc(), config, &work);
        assert_eq!(rt; refused.err(), Some(Fault::Size));
    }
    let finished = run_threads(&rt, rt.alloc(), filled_pages(33), &work)?;
    assert_eq!(rt; finished.outs.as_slice(), [Ok(0), Ok(1), Ok(2)].as_slice());
    assert!(rt; 20 * 32 <= finished.ending.snapshot.six.flushed);
    Ok(())
}

// What finishes makes more calls that enter steps than the journal has room for, with no crew beside it.
#[derive(Drop)]
struct Rests;

impl<R: Wait> Work<R> for Rests {
    type Job = NoJob;

    type Out = Result<u64, Fault>;

    fn run<L: Realm + Send + Sync>(
        &self,
        _rt: &R,
        _session: &mut Session<R, L>,
        number: u64,
    ) -> Result<u64, Fault> {
        Ok(number)
    }

    fn finish<L: Realm + Send + Sync>(
        &self,
        _rt: &R,
        session: &mut Session<R, L>,
    ) -> Option<Result<u64, Fault>> {
        Some(rests_and_refreshes(session))
    }

    fn write_page(&self, _rt: &R, _page: u64, _image: &[u8]) -> bool {
        true
    }
}

// How many times a session rested, and then was refreshed, with one round of help where that was refused.
fn rests_and_refreshes<R: Wait, L: Realm>(session: &mut Session<R, L>) -> Result<u64, Fault> {
    let mut calls = 0_u64;
    for _ in 0..CALLS {
        calls = calls.saturating_add(session.rest(|_| 1)?);
    }
    for _ in 0..CALLS {
        attempt(session, 1, |session| session.refresh())?;
        calls = calls.saturating_add(1);
    }
    Ok(calls)
}

#[test]
fn a_work_finishes_with_more_calls_than_the_journal_has_room_for(
    rt: HostRuntime,
) -> Result<(), Fail> {
    let config = Config {
        page_size: 4,
        journal: 64,
        ..Config::for_threads(1).with_frames(2)
    };
    let finished = run_threads(&rt, rt.alloc(), config, &Rests)?;
    assert_eq!(rt; finished.last, Some(Ok(2 * CALLS)));
    Ok(())
}

#[test]
fn a_number_out_of_its_range_is_displayed_with_it(rt: HostRuntime) -> Result<(), Fail> {
    let number = Config::for_threads(4).with_frames(1).out_of_range();
    assert_eq!(rt; number, Some(Number::Frames));
    let texts = [
        (Number::Threads, "threads: 1 to 1,024"),
        (Number::PageSize, "page_size: a power of two, 4 to 2^20"),
        (Number::Frames, "frames: 2 to 65,536"),
        (Number::Actions, "actions: 1 to 4,096"),
        (Number::Mutable, "mutable: 1 to resident"),
        (Number::Resident, "resident: less than frames"),
        (Number::Journal, "journal: 33 to 2^62"),
        (Number::Stamp, "stamp: at most 2^62"),
    ];
    for (number, text) in texts {
        let shown = format!(in rt.alloc(); "{number}")?;
        assert_eq!(rt; shown.as_str(), text);
    }
    Ok(())
}
