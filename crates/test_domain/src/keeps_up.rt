//! A pass that is kept up: no step enters while nothing is new, and a refresh does once something is, if the journal has
//! room.
use crate::jobs::{Anything, Pages, Tells, passed, released};
use crate::opened::{Opening, Turn, make_over_both};
use hl_domain::{Ending, Pass};
use hl_epoch::Epochs;
use hl_model::Fault;
use hl_words::{Realm, Rider};
use std::process::Abort;
use std::sync::Wait;
use std::test::Fail;

struct KeepsUp;

impl Turn for KeepsUp {
    fn make<R: Wait + Abort, E: Epochs + Drop, L: Realm>(
        &self,
        rt: &R,
        domain: &Pages<E, L>,
        riders: &mut Vec<Rider<L>>,
    ) -> Result<(), Fail> {
        let rider = riders.pop().ok_or("a rider")?;
        let mut other = riders.pop().ok_or("another rider")?;
        riders.push(keep_through(rt, domain, rider, &mut other)?)?;
        riders.push(other)?;
        Ok(())
    }

    // The steps of the pass, two bumps and a raise were cut, before the release.
    fn see(&self, rt: &impl Abort, ending: &Ending<Tells, Anything>) {
        assert!(rt; ending.cut == 41 && ending.journal.len() == 1);
    }
}

// The acquire is the pass's first step. Each refresh enters one more, behind the touches.
fn keep_through<E: Epochs + Drop, L: Realm>(
    rt: &(impl Wait + Abort),
    domain: &Pages<E, L>,
    rider: Rider<L>,
    other: &mut Rider<L>,
) -> Result<Rider<L>, Fail> {
    let mut pass = passed(domain.enter(rt, rider))?;
    keep_while_it_moves(rt, domain, &mut pass, other);
    refuse_while_full(rt, domain, &mut pass, other);
    Ok(released(domain.release(rt, pass))?)
}

fn keep_while_it_moves<E: Epochs + Drop, L: Realm>(
    rt: &(impl Wait + Abort),
    domain: &Pages<E, L>,
    pass: &mut Pass<L>,
    other: &mut Rider<L>,
) {
    keep(rt, domain, pass, 1, 1);
    assert_eq!(rt; domain.bare(rt, other), Ok(1));
    keep(rt, domain, pass, 2, 2);
    keep(rt, domain, pass, 2, 2);
    assert_eq!(rt; domain.allocate(rt, pass, 4), Ok(0));
    assert_eq!(rt; domain.raise(rt, other, 4), Ok(4));
    keep(rt, domain, pass, 4, 2);
    assert!(rt; pass.view().read_only == 4);
    assert_eq!(rt; domain.allocate(rt, pass, 4), Ok(4));
    for word in 0..32 {
        assert_eq!(rt; domain.store(pass, 5, word), Ok(()));
    }
    keep(rt, domain, pass, 38, 2);
}

// A bump fills the journal: neither the pass's refresh nor a lease has room, and neither keeps the lock.
fn refuse_while_full<E: Epochs + Drop, L: Realm>(
    rt: &(impl Wait + Abort),
    domain: &Pages<E, L>,
    pass: &mut Pass<L>,
    other: &mut Rider<L>,
) {
    assert_eq!(rt; domain.bare(rt, other), Ok(2));
    assert_eq!(rt; domain.keep_up(rt, pass), Err(Fault::JournalFull));
    assert!(rt; matches!(domain.lease(rt, pass, 1), Err(Fault::JournalFull)));
    assert_eq!(rt; domain.cut(rt, other), 41);
}

// Keeps the pass up: then it has entered so many steps in all, and its slot has this epoch.
fn keep<E: Epochs + Drop, L: Realm>(
    rt: &(impl Wait + Abort),
    domain: &Pages<E, L>,
    pass: &mut Pass<L>,
    share: u64,
    epoch: u64,
) {
    assert!(rt; domain.keep_up(rt, pass).is_ok());
    assert_eq!(rt; pass.rider().share(), share);
    assert_eq!(rt; pass.epoch(), epoch);
}

#[test]
fn a_pass_keeps_up(rt: HostRuntime) -> Result<(), Fail> {
    make_over_both(&rt, rt.alloc(), &Opening::small(41)?, &KeepsUp)
}
