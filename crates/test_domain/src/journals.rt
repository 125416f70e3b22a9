//! How many steps a journal holds, after each cut anew.
use crate::jobs::{Anything, Pages, Tells};
use crate::opened::{Opening, Turn, make_over_both};
use hl_domain::Ending;
use hl_epoch::Epochs;
use hl_model::Fault;
use hl_words::{Realm, Rider};
use std::process::Abort;
use std::sync::Wait;
use std::test::Fail;

// Fills the journal twice and cuts it, and fills it once more: each time it takes so many steps, and no more.
#[derive(Clone, Copy)]
struct Fills {
    steps: u64,
}

impl Turn for Fills {
    fn make<R: Wait + Abort, E: Epochs + Drop, L: Realm>(
        &self,
        rt: &R,
        domain: &Pages<E, L>,
        riders: &mut Vec<Rider<L>>,
    ) -> Result<(), Fail> {
        let rider = riders.last_mut().ok_or("a rider")?;
        let mut cut = 0u64;
        for _ in 0..2 {
            fill(rt, domain, rider, self.steps);
            assert_eq!(rt; domain.cut(rt, rider), self.steps);
            cut = cut.wrapping_add(self.steps);
            let (_, kept, cut_in_all) = domain.snapshot(rt);
            assert!(rt; kept == 0 && cut_in_all == cut);
        }
        fill(rt, domain, rider, self.steps);
        Ok(())
    }

    fn see(&self, rt: &impl Abort, ending: &Ending<Tells, Anything>) {
        assert_eq!(rt; ending.cut, self.steps.wrapping_mul(2));
        assert_eq!(rt; ending.journal.len() as u64, self.steps);
    }
}

// As many bumps as the journal has room for, and one that is refused.
fn fill<E: Epochs + Drop, L: Realm>(
    rt: &(impl Wait + Abort),
    domain: &Pages<E, L>,
    rider: &mut Rider<L>,
    steps: u64,
) {
    for _ in 0..steps {
        assert!(rt; domain.bare(rt, rider).is_ok());
    }
    let before = domain.snapshot(rt);
    assert_eq!(rt; domain.bare(rt, rider), Err(Fault::JournalFull));
    assert!(rt; domain.snapshot(rt) == before);
}

/// A journal has room for exactly as many steps as was asked for, after each cut anew.
#[test]
fn a_journal_holds_what_was_asked_for(rt: HostRuntime) -> Result<(), Fail> {
    for steps in [1, 3, 33, 1000, 5000] {
        make_over_both(&rt, rt.alloc(), &Opening::small(steps)?, &Fills { steps })?;
    }
    Ok(())
}
