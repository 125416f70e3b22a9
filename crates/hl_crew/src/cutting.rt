//! How the journal is cut: where it is due, and where it is full.
ghost use Rattle.std.specs.Prelude.{◌≡◌, ◌&&◌};
ghost use Rattle.hl_crew.specs.Cutting.{EndsTurn, MakesRoom, OrCuts};
ghost use Rattle.hl_crew.specs.Overs.{is_full, is_over_full, makes_room};

use crate::limits::Cuts;
use crate::messages::Over;
use crate::run::Run;
use hl_action::{Promise, Task};
use hl_domain::Domain;
use hl_epoch::Epochs;
use hl_model::Fault;
use hl_words::{Realm, Rider};
use std::sync::Wait;

/// Cuts the journal as is due where a turn ends: never; always; or if it has more than so many steps.
pub fn cut_if_due<R: Wait, E: Epochs + Drop, F: Task, P: Promise, L: Realm>(
    rt: &R,
    domain: &Domain<E, F, P, L>,
    rider: &mut Rider<L>,
    cuts: Cuts,
)
    ensures { EndsTurn F domain.now cuts rider.old rider.new }
{
    let is_due = match cuts {
        Cuts::Never => false,
        Cuts::EachTurn => true,
        Cuts::Above(steps) => domain.snapshot_by(rt, rider).1 > steps,
    };
    if is_due {
        domain.cut(rt, rider);
    }
}

/// Whether what met this fault is to be tried again: the journal was full, and was cut, as it may be. Nothing else is cut.
pub fn make_room<R: Wait, E: Epochs + Drop, F: Task, P: Promise, L: Realm>(
    rt: &R,
    domain: &Domain<E, F, P, L>,
    rider: &mut Rider<L>,
    may_cut: bool,
    fault: &Fault,
) -> bool
    ensures room { MakesRoom F domain.now result rider.old rider.new }
    ensures answer { result ≡ (may_cut && is_full fault.now) }
{
    let is_cut = may_cut && matches!(fault, Fault::JournalFull);
    if is_cut {
        domain.cut(rt, rider);
    }
    is_cut
}

impl<R: Wait, E: Epochs + Drop, F: Task, P: Promise, L: Realm, G> Run<'_, R, E, F, P, L, G> {
    /// Returns how a turn ended. If it failed because the journal is full, and the limits make room, the journal is cut:
    /// what is left is done in the next turn. That got somewhere if a step was dropped: else the next turn would find the
    /// journal as full.
    pub(crate) fn cut_if_full(
        &self,
        rider: &mut Rider<L>,
        done: Result<bool, Over>,
    ) -> Result<bool, Over>
        ensures { OrCuts F self.now.domain.now self.now.limits.cuts done result rider.old rider.new }
    {
        match done {
            Err(Over::Full) if self.limits.makes_room() => {
                Ok(self.domain.cut(self.rt, rider) > 0)
            }
            done => done,
        }
    }

    /// Cuts the journal if a look for a page failed because it is full, and the limits make room. Returns whether it did.
    pub(crate) fn has_made_room(&self, rider: &mut Rider<L>, found: &Result<bool, Over>) -> bool
        ensures room { MakesRoom F self.now.domain.now result rider.old rider.new }
        ensures answer { result ≡ (makes_room self.now.limits.cuts && is_over_full found.now) }
    {
        let is_cut = self.limits.makes_room() && matches!(found, Err(Over::Full));
        if is_cut {
            self.domain.cut(self.rt, rider);
        }
        is_cut
    }
}
