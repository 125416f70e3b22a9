//! A keeper's journal.
ghost use Rattle.std.specs.Prelude.{◌≡◌, ◌+◌, ◌≤◌, ◌||◌, nat_lt, None, List, [], ◌∷◌, length, IfOk, IfErr};
ghost use Rattle.hl_model.specs.declared.fault.Fault.TheVariants.{OutOfMemory};
ghost use Rattle.hl_model.specs.declared.step.Step.{Step as STEP};
ghost use Rattle.hl_model.specs.Bases.{base_of};
ghost use Rattle.hl_model.specs.Replies.{unless_fault};
ghost use Rattle.hl_core.specs.Standing.{Stands};
ghost use Rattle.hl_keeper.specs.Keepers.{steps_most};
ghost use Rattle.hl_keeper.specs.Journals.{full_fault, with_steps};

use hl_core::Core;
use hl_epoch::Epochs;
use hl_laws::Base;
use hl_model::{Fault, Sizes, Step, Tagged, with_room};
use std::alloc::Global;
use std::marker::Model;

/// How many steps a keeper counts in all.
const STEPS_MOST: u64 = 1 << 62;

/// The steps since the last cut, and the base of those that were cut. It has exactly the room that opening made: it
/// never grows.
#[derive(Drop)]
pub(crate) struct Journal {
    pub(crate) base: Base,
    // How many steps were cut.
    pub(crate) cut: u64,
    // How many steps it may keep.
    pub(crate) limit: u64,
    // Last, beside what else each call writes.
    pub(crate) steps: Vec<Step>,
}

impl Model for Journal {
    ghost use Rattle.std.specs.Prelude.{vec_capacity};
    ghost use Rattle.hl_keeper.specs.Journals.{JournalState, IsJournal};

    ghost Value = { JournalState };

    ghost view = { λ j. record { base = j.base; cut = j.cut; steps = j.steps.items; limit = j.limit } };

    ghost invariant = { λ j. IsJournal
        (record { base = j.base; cut = j.cut; steps = j.steps.items; limit = j.limit })
        (vec_capacity j.steps) };
}

impl Journal {
    /// The empty journal of an allocator of these sizes, which may keep this many steps.
    ///
    /// `OutOfMemory` if memory was refused.
    pub(crate) fn open(alloc: Global, params: Sizes, limit: u64) -> Result<Journal, Fault>
        ensures journal { IfOk result (λ journal.
            journal ≡ record { base = base_of params []; cut = 0; steps = []; limit = limit }) }
        ensures memory { IfErr result (λ fault. fault ≡ OutOfMemory) }
    {
        let base = Base::opening(alloc, params)?;
        let steps = with_room(alloc, limit)?;
        Ok(Journal {
            base,
            cut: 0,
            steps,
            limit,
        })
    }

    /// Whether there is room for this many steps more.
    ///
    /// `JournalFull` if there isn't.
    #[inline(always)]
    pub(crate) fn room(&self, count: u64) -> Result<(), Fault>
        requires { count ≤ 33 }
        ensures { result ≡ unless_fault (full_fault self.now count) tt }
    {
        if self.is_full_at(count) {
            return Err(Fault::JournalFull);
        }
        Ok(())
    }

    #[inline(always)]
    fn is_full_at(&self, count: u64) -> bool
        requires { count ≤ 33 }
        ensures { let kept = length self.now.steps
            in let now = self.now
            in result ≡ (nat_lt now.limit (kept + count) || nat_lt steps_most (now.cut + kept + count)) }
    {
        let kept = self.steps.len() as u64;
        self.limit < kept + count || STEPS_MOST < self.cut + kept + count
    }

    /// Puts a step behind the others.
    #[inline(always)]
    pub(crate) fn note(&mut self, step: Step)
        requires { full_fault self.old 1 ≡ None }
        ensures { self.new ≡ with_steps (step ∷ []) self.old }
    {
        self.steps.push_reserved(step);
    }

    /// Replaces its base by the core's, and drops its steps, which lead there; returns how many
    /// were dropped.
    pub(crate) fn cut<E: Epochs, J: Tagged>(&mut self, core: &Core<E, J>) -> u64
        requires { self.old.base.sizes ≡ core.now.sizes }
        ensures count { result ≡ length self.old.steps }
        ensures base { (A : List STEP) → Stands J.tag core.now A → self.new.base ≡ base_of core.now.sizes A }
        ensures cut { self.new.cut ≡ self.old.cut + length self.old.steps }
        ensures steps { self.new.steps ≡ [] }
        ensures limit { self.new.limit ≡ self.old.limit }
    {
        let count = self.steps.len() as u64;
        core.base_into(&mut self.base);
        self.steps.clear();
        self.cut += count;
        count
    }
}
