//! What a protected thread does: it entered where a slot was free, its pass lends its rider, and it is told who holds
//! an action up.
use crate::jobs::{Anything, Pages, Tells, passed, released};
use crate::opened::{Opening, Turn, make_over_both};
use hl_domain::{ArrayVec, Ask, Ending, FrameState, Holder, Pass, Reply, Step};
use hl_epoch::Epochs;
use hl_model::Fault;
use hl_words::{Realm, Rider};
use std::process::Abort;
use std::sync::Wait;
use std::test::Fail;

struct Settles;

impl Turn for Settles {
    fn make<R: Wait + Abort, E: Epochs + Drop, L: Realm>(
        &self,
        rt: &R,
        domain: &Pages<E, L>,
        riders: &mut Vec<Rider<L>>,
    ) -> Result<(), Fail> {
        let first = passed(domain.enter(rt, riders.pop().ok_or("a rider")?))?;
        let second = passed(domain.enter(rt, riders.pop().ok_or("a rider")?))?;
        let third = riders.pop().ok_or("a rider")?;
        riders.push(no_slot_left(rt, domain, third))?;
        for rider in settle_and_release(rt, domain, first, second)? {
            riders.push(rider)?;
        }
        Ok(())
    }

    fn see(&self, rt: &impl Abort, ending: &Ending<Tells, Anything>) {
        let releases = [Step::Release { t: 0 }, Step::Release { t: 1 }];
        assert!(rt; ending.cut == 8 && ending.journal.ends_with(&releases));
    }
}

fn settle_and_release<E: Epochs + Drop, L: Realm>(
    rt: &(impl Wait + Abort),
    domain: &Pages<E, L>,
    mut first: Pass<L>,
    mut second: Pass<L>,
) -> Result<[Rider<L>; 2], Fault> {
    assert!(rt; first.slot() == 0 && second.slot() == 1);
    settle(rt, domain, &mut first, &mut second);
    cut_and_take(rt, domain, &mut first)?;
    let one = released(domain.release(rt, first))?;
    Ok([one, released(domain.release(rt, second))?])
}

fn no_slot_left<E: Epochs + Drop, L: Realm>(
    rt: &(impl Wait + Abort),
    domain: &Pages<E, L>,
    rider: Rider<L>,
) -> Rider<L> {
    match domain.enter(rt, rider) {
        Err((Fault::NoSlot, rider)) => rider,
        _ => panic!(rt; "both slots are protected"),
    }
}

// The first settles what it placed, with a store that hasn't entered; each holds that up until it refreshes.
fn settle<E: Epochs + Drop, L: Realm>(
    rt: &(impl Wait + Abort),
    domain: &Pages<E, L>,
    first: &mut Pass<L>,
    second: &mut Pass<L>,
) {
    assert_eq!(rt; domain.allocate(rt, first, 4), Ok(0));
    assert_eq!(rt; domain.store(first, 1, 7), Ok(()));
    assert_eq!(rt; domain.raise(rt, first.rider_mut(), 4), Ok(4));
    assert!(rt; matches!(domain.bump(rt, first.rider_mut(), Ask::Settle), Ok(1)));
    let both = [Holder { slot: 0, epoch: 1 }, Holder { slot: 1, epoch: 1 }];
    held_by(rt, domain, &both);
    assert_eq!(rt; domain.frame_of(rt, 0), (FrameState::Opened, Some(0)));
    assert!(rt; domain.refresh(rt, first).is_ok());
    held_by(rt, domain, &both[1..]);
    assert!(rt; domain.refresh(rt, second).is_ok());
    held_by(rt, domain, &[]);
}

// The oldest action is that of ticket 1, and these hold it up.
fn held_by<E: Epochs + Drop, L: Realm>(
    rt: &(impl Wait + Abort),
    domain: &Pages<E, L>,
    holders: &[Holder],
) {
    let mut row = ArrayVec::<Holder, 64>::new();
    assert_eq!(rt; domain.holders(rt, &mut row), Some(1));
    assert!(rt; *row == *holders);
}

// The journal is full: the pass cuts it, and goes on.
fn cut_and_take<E: Epochs + Drop, L: Realm>(
    rt: &(impl Wait + Abort),
    domain: &Pages<E, L>,
    pass: &mut Pass<L>,
) -> Result<(), Fault> {
    assert_eq!(rt; domain.bare(rt, pass.rider_mut()), Err(Fault::JournalFull));
    assert_eq!(rt; domain.cut(rt, pass.rider_mut()), 8);
    let ran = domain.take(rt, pass.rider_mut())?.run();
    match domain.done(rt, pass.rider_mut(), ran) {
        Ok(reply) => assert_eq!(rt; reply, Reply::Settled(4)),
        Err((fault, ran)) => {
            ran.forsake();
            return Err(fault);
        }
    }
    assert_eq!(rt; domain.frame_of(rt, 2), (FrameState::Sealed, Some(0)));
    let mut row = ArrayVec::<Holder, 64>::new();
    assert!(rt; domain.holders(rt, &mut row).is_none() && row.is_empty());
    Ok(())
}

/// Two threads enter, settle and cut with a pass in their hands.
#[test]
fn a_protected_thread_settles_and_cuts(rt: HostRuntime) -> Result<(), Fail> {
    make_over_both(&rt, rt.alloc(), &Opening::small(8)?, &Settles)
}
