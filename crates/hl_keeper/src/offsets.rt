//! The steps that move an offset, and with it its word.
ghost use Rattle.std.specs.Prelude.{◌≡◌, List, [], ◌∷◌, ◌++◌, OnErr, IfOk, MatchResult};
ghost use Rattle.hl_model.specs.declared.step.Step.TheVariants.{Raise as RAISE, Shift as SHIFT};
ghost use Rattle.hl_model.specs.Offsets.{read_only, head};
ghost use Rattle.hl_keeper.specs.Passes.{Shares};
ghost use Rattle.hl_keeper.specs.Calls.{Makes, Keeps, SameStamps};
ghost use Rattle.hl_keeper.specs.Stores.{with_told, IsAbove};

use crate::keeper::Keeper;
use hl_action::{Promise, Task};
use hl_epoch::Epochs;
use hl_model::{Fault, Reply, Step};
use hl_words::{Master, Realm, Rider, Which, Words};

impl<E: Epochs + Drop, F: Task, P: Promise, L: Realm> Keeper<E, F, P, L> {
    /// Moves the read-only offset up to x, and stores its word.
    ///
    /// Faults: `JournalFull`, `NotAbove`, `AboveTail`.
    pub fn raise(&mut self, words: &Words<L>, rider: &mut Rider<L>, x: u64) -> Result<u64, Fault>
        ensures made { Makes self.old (RAISE x)
            (λ A. read_only (A ++ RAISE x ∷ [])) self.new result }
        ensures keeps { Keeps self.old self.new result }
        ensures stamps { SameStamps self.old self.new }
        ensures rider { Shares 1 result rider.old rider.new }
        ensures same { IfOk result (λ raised. raised ≡ x) }
    {
        self.one(words, rider, &Step::Raise { x })?;
        Ok(x)
    }

    /// Moves the head up to x, at most to the flushed offset, and stores its word.
    ///
    /// Faults: `JournalFull`, `NotAbove`, `NotPage`, `AboveFlushed`.
    pub fn shift(&mut self, words: &Words<L>, rider: &mut Rider<L>, x: u64) -> Result<u64, Fault>
        ensures made { Makes self.old (SHIFT x)
            (λ A. head (A ++ SHIFT x ∷ [])) self.new result }
        ensures keeps { Keeps self.old self.new result }
        ensures stamps { SameStamps self.old self.new }
        ensures rider { Shares 1 result rider.old rider.new }
        ensures same { IfOk result (λ shifted. shifted ≡ x) }
    {
        self.one(words, rider, &Step::Shift { x })?;
        Ok(x)
    }
}

/// Stores what a step's answer tells into its word, if it has one.
#[inline(always)]
pub(crate) fn store_told<L: Realm>(words: &Words<L>, master: &mut Master<L>, reply: Reply)
    requires { let old = master.old.offsets in IsAbove old (with_told reply old) }
    ensures { let old = master.old
        in let offsets = with_told reply old.offsets
        in master.new ≡ record { offsets = offsets; total = old.total; called = old.called } }
{
    match reply {
        Reply::Raised(x) => words.store_offset(master, Which::ReadOnly, x),
        Reply::Shifted(x) => words.store_offset(master, Which::Head, x),
        Reply::Ticket(x) | Reply::Bumped(x) => words.store_offset(master, Which::Ended, x),
        Reply::Settled(x) => words.store_offset(master, Which::SafeReadOnly, x),
        _ => {}
    }
}
