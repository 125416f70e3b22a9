//! What one thread does in its session: it places a record of the counters' length, and adds its numbers.
ghost use Rattle.hl.specs.Traces.{acts, IsFresh};
ghost use Rattle.example_counters.specs.Counters.{AddsEach, AddsNothing, AddsOne};

use crate::{Add, COUNTERS, Sums};
use hl::{Realm, Session};
use std::sync::Wait;

/// Makes those of the adds that are this thread's, and returns what it added to each counter. Nothing else is written.
pub(crate) fn add_all<R: Wait, L: Realm>(
    session: &mut Session<R, L>,
    adds: &[Add],
    thread: u64,
) -> Sums
    ensures { IsFresh session.old → AddsEach result (acts session.new) }
{
    let mut sums = [0; 4];
    // That of one of the threads is the log's first record, which begins at address 0. Each thread's own lies there or above
    // it, so that the thread sees the counters below its tail.
    place(session);
    for add in adds {
        if add.thread == thread {
            add_one(session, &mut sums, *add);
        }
    }
    sums
}

// Places a record of the counters' length.
fn place<R: Wait, L: Realm>(session: &mut Session<R, L>)
    ensures { AddsNothing (acts session.old) (acts session.new) }
{
    let _ = session.allocate(COUNTERS);
}

// Makes one of the adds, in a session that is up to date. One that is refused is not counted.
fn add_one<R: Wait, L: Realm>(session: &mut Session<R, L>, sums: &mut Sums, add: Add)
    ensures { AddsEach sums.old (acts session.old) → AddsEach sums.new (acts session.new) }
{
    keep_up(session);
    if add.counter >= COUNTERS {
        return;
    }
    if add_to(session, add.counter, add.number) {
        let at = add.counter as usize;
        sums[at] = sums[at].wrapping_add(add.number);
    }
}

// Brings the session up to date, so that it has room for a touch. If that is refused, it goes on as it is.
fn keep_up<R: Wait, L: Realm>(session: &mut Session<R, L>)
    ensures { AddsNothing (acts session.old) (acts session.new) }
{
    let _ = session.keep_up();
}

// Adds a number to a counter; whether that was accepted.
fn add_to<R: Wait, L: Realm>(session: &mut Session<R, L>, counter: u64, number: u64) -> bool
    ensures { AddsOne counter number result (acts session.old) (acts session.new) }
{
    match session.fetch_add(counter, number) {
        Ok(_) => true,
        Err(_) => false,
    }
}
