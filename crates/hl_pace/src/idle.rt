//! A crew that serves while there is nothing to do.
use hl::{Duty, Fault, NoJob, Opening, Params, Realm, Returned, Session, Work, with_threads};
use std::alloc::Global;
use std::sync::Wait;
use std::thread::{Parker, Threads};
use std::time::Duration;

/// A thread that sleeps in its session for this many seconds.
#[derive(Drop)]
struct Sleeper {
    seconds: u64,
}

impl<R: Wait> Work<R> for Sleeper {
    type Job = NoJob;

    type Out = ();

    fn run<L: Realm + Send + Sync>(&self, rt: &R, _session: &mut Session<R, L>, _number: u64) {
        Parker::new().park_timeout(rt, Duration::from_secs(self.seconds));
    }

    fn write_page(&self, _rt: &R, _page: u64, _image: &[u8]) -> bool {
        true
    }
}

/// How many seconds the program's words ask for; `None` if they ask for something else.
pub(crate) fn read(words: &[String]) -> Option<u64> {
    match words {
        [_, kind, seconds] if kind.as_str() == "idle" => seconds.parse().ok(),
        _ => None,
    }
}

/// Opens a log in which a thread sleeps for this many seconds, beside a crew that serves, and
/// closes it.
///
/// `OutOfMemory` if memory or a thread was refused.
pub(crate) fn run<R: Threads + Wait + Sync>(
    rt: &R,
    alloc: Global,
    seconds: u64,
) -> Result<(), Fault> {
    let params = Params::checked(64, 64, 4, 16).ok_or(Fault::Size)?;
    let opening = Opening {
        params,
        riders: 5,
        journal: 1_000,
        stamp: 1,
    };
    let duty = Duty::checked(params, 2, 32).ok_or(Fault::Size)?;
    let closed = with_threads(rt, alloc, opening, duty, &Sleeper { seconds })?;
    let Returned { outs, crew } = closed.out;
    crew?;
    closed.ending?;
    for out in outs {
        out?;
    }
    Ok(())
}
