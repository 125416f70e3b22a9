//! Whole records of `hl`: that they are placed and stored, and loaded, while nothing is in the way.
use hl::{Duty, Fault, NoJob, Opening, Params, Realm, Returned, Session, Work, with_threads};
use std::sync::Wait;
use std::test::Fail;

/// Words a page.
const PAGE: u64 = 128;

/// A record for which a session has no room for touches at once.
const LONG: usize = 100;

// A thread that appends a long record and a short one, and loads both.
struct Appending;

impl<R: Wait> Work<R> for Appending {
    type Job = NoJob;

    type Out = Result<bool, Fault>;

    fn run<L: Realm + Send + Sync>(
        &self,
        _rt: &R,
        session: &mut Session<R, L>,
        _number: u64,
    ) -> Result<bool, Fault> {
        append_and_load(session)
    }

    fn write_page(&self, _rt: &R, _page: u64, _image: &[u8]) -> bool {
        true
    }
}

// Whether both records are where they should be, and what is asked of them amiss is refused.
fn append_and_load<R: Wait, L: Realm>(session: &mut Session<R, L>) -> Result<bool, Fault> {
    let mut long = [0_u64; LONG];
    for (word, at) in long.iter_mut().zip(7_u64..) {
        *word = at;
    }
    let first = session.append(&long)?;
    let second = session.append(&[1, 2, 3])?;
    let mut loaded = [0_u64; LONG];
    session.load_into(first, &mut loaded)?;
    let mut few = [0_u64; 3];
    session.load_into(second, &mut few)?;
    let places = first == 0 && second == LONG as u64;
    Ok(places && loaded == long && few == [1, 2, 3] && is_refused(session, second))
}

// A record of no words or of more than a page has no place, and what lies above the tail isn't loaded.
fn is_refused<R: Wait, L: Realm>(session: &mut Session<R, L>, second: u64) -> bool {
    let mut four = [9_u64; 4];
    let above = session.load_into(second, &mut four);
    above == Err(Fault::Beyond { tail: 103 })
        && four == [9; 4]
        && session.append(&[]) == Err(Fault::Size)
        && session.append(&[0; 129]) == Err(Fault::Size)
}

#[test]
fn records_are_appended_and_loaded(rt: HostRuntime) -> Result<(), Fail> {
    let params = Params::checked(PAGE, 4, 1, 16).ok_or(Fault::Size)?;
    let duty = Duty::checked(params, 2, 3).ok_or(Fault::Size)?;
    let opening = Opening {
        params,
        riders: 5,
        journal: 10_000,
        stamp: 1,
    };
    let closed = with_threads(&rt, rt.alloc(), opening, duty, &Appending)?;
    let Returned { outs, crew } = closed.out;
    crew?;
    closed.ending?;
    for out in outs {
        assert!(rt; out??);
    }
    Ok(())
}
