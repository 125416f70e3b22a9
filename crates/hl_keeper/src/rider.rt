//! One step of a rider, as the calls about offsets and pages make it, and the bare bump.
ghost use Rattle.std.specs.Prelude.{◌≡◌, true, false, List, [], ◌∷◌, ◌++◌, OnErr, MatchResult};
ghost use Rattle.hl_model.specs.declared.step.Step.TheVariants.{Bare as BARE};
ghost use Rattle.hl_model.specs.Actions.{bumps};
ghost use Rattle.hl_model.specs.Replies.{answer_of};
ghost use Rattle.hl_core.specs.Steps.{is_acted};
ghost use Rattle.hl_keeper.specs.Passes.{Shares};
ghost use Rattle.hl_keeper.specs.Keepers.{IsKeeper};
ghost use Rattle.hl_keeper.specs.Stamps.{is_acquire};
ghost use Rattle.hl_keeper.specs.Calls.{Makes, Keeps, SameStamps};

use crate::call::note;
use crate::keeper::Keeper;
use crate::offsets::store_told;
use hl_action::{Promise, Task};
use hl_epoch::Epochs;
use hl_model::{Fault, Reply, Step};
use hl_words::{Realm, Rider, Words};

impl<E: Epochs + Drop, F: Task, P: Promise, L: Realm> Keeper<E, F, P, L> {
    /// Makes one step, which stamps no slot, and takes no job in or out; if it moves an offset or ends an epoch, stores
    /// its word.
    #[inline(always)]
    pub(crate) fn one(
        &mut self,
        words: &Words<L>,
        rider: &mut Rider<L>,
        step: &Step,
    ) -> Result<Reply, Fault>
        requires acted { is_acted step.now ≡ true }
        requires unstamped { is_acquire step.now ≡ false }
        ensures made { Makes self.old step.now
            (λ A. answer_of self.old.core.sizes A (A ++ step.now ∷ []) step.now) self.new result }
        ensures keeps { Keeps self.old self.new result }
        ensures stamps { SameStamps self.old self.new }
        ensures rider { Shares 1 result rider.old rider.new }
        ensures valid { IsKeeper self.old }
    {
        self.room(1)?;
        let reply = self.core.act(step)?;
        store_told(words, &mut self.master, reply);
        note(&mut self.journal, &mut self.master, rider, *step);
        Ok(reply)
    }

    /// Ends the current epoch, and stores its word alone; returns the epoch that ended.
    ///
    /// Faults: `JournalFull`, `EpochsSpent`, `WindowFull`.
    pub fn bare(&mut self, words: &Words<L>, rider: &mut Rider<L>) -> Result<u64, Fault>
        ensures made { Makes self.old BARE
            (λ A. bumps (A ++ BARE ∷ [])) self.new result }
        ensures keeps { Keeps self.old self.new result }
        ensures stamps { SameStamps self.old self.new }
        ensures rider { Shares 1 result rider.old rider.new }
    {
        match self.one(words, rider, &Step::Bare)? {
            Reply::Bumped(ended) => Ok(ended),
            _ => unreachable!(),
        }
    }
}
