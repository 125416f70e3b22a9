//! A log of `hl` with a crew that sleeps: how it is woken.
use hl::{Duty, Fault, NoJob, Opening, Params, Realm, Returned, Session, Work, with_threads};
use std::sync::Wait;
use std::test::Fail;
use std::thread;
use std::time::{Clock, Duration};

/// Words a page.
const PAGE: u64 = 4;

/// How long the crew is left idle, in milliseconds: by then it sleeps its longest, which is 160.
const IDLE: u64 = 400;

/// How often a session looks for the end of a crew's sleep, at most, a millisecond after each look.
const LOOKS: u64 = 400;

/// How often a crew is woken, and how often it is left to wake by itself.
const SLEEPS: u64 = 8;

// A thread that waits for the next turn of a crew that is asleep, by turns with waking it and without.
struct Waking;

// How many looks it took in all if the crew was woken, and if it was not.
#[derive(Drop)]
struct Looked {
    woken: u64,
    left: u64,
}

impl<R: Wait + Clock> Work<R> for Waking {
    type Job = NoJob;

    type Out = Result<Looked, Fault>;

    fn run<L: Realm + Send + Sync>(
        &self,
        rt: &R,
        session: &mut Session<R, L>,
        _number: u64,
    ) -> Result<Looked, Fault> {
        // The newest page stays mutable, so the first one raises nothing.
        session.allocate(PAGE)?;
        let (mut woken, mut left) = (0_u64, 0_u64);
        for _ in 0..SLEEPS {
            woken = woken.saturating_add(looks_to_a_turn(rt, session, true)?);
            left = left.saturating_add(looks_to_a_turn(rt, session, false)?);
        }
        Ok(Looked { woken, left })
    }

    fn write_page(&self, _rt: &R, _page: u64, _image: &[u8]) -> bool {
        true
    }
}

// Leaves the crew idle until it is asleep, and then enters a page, so that the read-only offset is to be raised: how many
// looks it takes until that is seen.
fn looks_to_a_turn<R: Wait + Clock, L: Realm>(
    rt: &R,
    session: &mut Session<R, L>,
    wakes: bool,
) -> Result<u64, Fault> {
    thread::sleep(rt, Duration::from_millis(IDLE));
    let before = session.refresh()?.read_only;
    session.allocate(PAGE)?;
    if wakes {
        session.ring();
    }
    for looks in 0..LOOKS {
        thread::sleep(rt, Duration::from_millis(1));
        if session.refresh()?.read_only != before {
            return Ok(looks);
        }
    }
    Ok(LOOKS)
}

// A crew that is asleep makes a turn once a session wakes it. By itself it sleeps some 80 looks more. The two sums are
// compared with each other, since on a busy machine both are longer.
#[test]
fn a_session_wakes_its_crew(rt: HostRuntime) -> Result<(), Fail> {
    let params = Params::checked(PAGE, 64, 1, 16).ok_or(Fault::Size)?;
    let duty = Duty::checked(params, 1, 32).ok_or(Fault::Size)?;
    let opening = Opening {
        params,
        riders: 5,
        journal: 10_000,
        stamp: 1,
    };
    let closed = with_threads(&rt, rt.alloc(), opening, duty, &Waking)?;
    let Returned { outs, crew } = closed.out;
    crew?;
    closed.ending?;
    for out in outs {
        let Looked { woken, left } = out??;
        assert!(rt; woken < left / 2);
    }
    Ok(())
}
