//! An address that goes through the four regions of the log, as the thread that placed its record is told.
use crate::jobs::{Anything, Pages, Tells, passed, released};
use crate::opened::{Opening, Turn, make_over_both};
use hl_domain::{Ask, Ending, Pass, Region, Reply};
use hl_epoch::Epochs;
use hl_model::Fault;
use hl_words::{Realm, Rider};
use std::process::Abort;
use std::sync::Wait;
use std::test::Fail;

struct GoesThrough;

impl Turn for GoesThrough {
    fn make<R: Wait + Abort, E: Epochs + Drop, L: Realm>(
        &self,
        rt: &R,
        domain: &Pages<E, L>,
        riders: &mut Vec<Rider<L>>,
    ) -> Result<(), Fail> {
        let mut pass = passed(domain.enter(rt, riders.pop().ok_or("a rider")?))?;
        let mut other = riders.pop().ok_or("another rider")?;
        grow_old(rt, domain, &mut pass, &mut other)?;
        leave_its_frame(rt, domain, &mut pass, &mut other)?;
        riders.push(other)?;
        riders.push(released(domain.release(rt, pass))?)?;
        Ok(())
    }

    fn see(&self, rt: &impl Abort, ending: &Ending<Tells, Anything>) {
        assert!(rt; ending.snapshot.six.safe_read_only == 4 && ending.snapshot.six.head == 4);
    }
}

// The last word of the first page is to the pass in this region.
fn is_in<E: Epochs + Drop, L: Realm>(
    rt: &impl Abort,
    domain: &Pages<E, L>,
    pass: &mut Pass<L>,
    region: Region,
) {
    assert_eq!(rt; domain.region(pass, 3), Ok(region));
    assert_eq!(rt; domain.region(pass, 4), Err(Fault::Beyond { tail: 4 }));
}

// A raise counts once the pass saw it, a settle once it is done.
fn grow_old<E: Epochs + Drop, L: Realm>(
    rt: &(impl Wait + Abort),
    domain: &Pages<E, L>,
    pass: &mut Pass<L>,
    other: &mut Rider<L>,
) -> Result<(), Fault> {
    assert_eq!(rt; domain.allocate(rt, pass, 4), Ok(0));
    assert_eq!(rt; domain.raise(rt, other, 4), Ok(4));
    assert!(rt; matches!(domain.bump(rt, other, Ask::Settle), Ok(1)));
    is_in(rt, domain, pass, Region::Mutable);
    domain.refresh(rt, pass)?;
    let ran = domain.take(rt, other)?.run();
    is_in(rt, domain, pass, Region::Fuzzy);
    match domain.done(rt, other, ran) {
        Ok(reply) => assert_eq!(rt; reply, Reply::Settled(4)),
        Err((fault, ran)) => {
            ran.forsake();
            return Err(fault);
        }
    }
    is_in(rt, domain, pass, Region::ReadOnly);
    Ok(())
}

// A shift counts once the pass saw it.
fn leave_its_frame<E: Epochs + Drop, L: Realm>(
    rt: &(impl Wait + Abort),
    domain: &Pages<E, L>,
    pass: &mut Pass<L>,
    other: &mut Rider<L>,
) -> Result<(), Fault> {
    let load = domain.flush_take(rt, other)?;
    if let Err((fault, load)) = domain.flush_done(rt, other, load, true) {
        load.forsake();
        return Err(fault);
    }
    assert_eq!(rt; domain.shift(rt, other, 4), Ok(4));
    is_in(rt, domain, pass, Region::ReadOnly);
    domain.refresh(rt, pass)?;
    is_in(rt, domain, pass, Region::Evicted);
    Ok(())
}

#[test]
fn an_address_goes_through_the_regions(rt: HostRuntime) -> Result<(), Fail> {
    make_over_both(&rt, rt.alloc(), &Opening::small(40)?, &GoesThrough)
}
