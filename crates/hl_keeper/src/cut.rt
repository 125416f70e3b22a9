ghost use Rattle.std.specs.Prelude.{◌≡◌, ◌+◌, List, [], length};
ghost use Rattle.hl_model.specs.declared.step.Step.{Step as STEP};
ghost use Rattle.hl_model.specs.Bases.{base_of};
ghost use Rattle.hl_keeper.specs.Keepers.{KeeperStands};
ghost use Rattle.hl_keeper.specs.Calls.{SameStamps};

use crate::keeper::Keeper;
use hl_action::{Promise, Task};
use hl_epoch::Epochs;
use hl_words::{Realm, Rider, Words};

impl<E: Epochs + Drop, F: Task, P: Promise, L: Realm> Keeper<E, F, P, L> {
    /// Drops the steps since the last cut, and replaces the base by the current one; returns how
    /// many were dropped. It is no step: the keeper stands where it stood. It is never refused, and
    /// takes no memory.
    pub fn cut(&mut self, _words: &Words<L>, _rider: &mut Rider<L>) -> u64
        ensures count { result ≡ length self.old.journal }
        ensures standing { (A : List STEP) → KeeperStands self.old A → KeeperStands self.new A }
        ensures base { (A : List STEP) → KeeperStands self.old A
            → self.new.base ≡ base_of self.old.core.sizes A }
        ensures journal { self.new.journal ≡ [] }
        ensures cut { self.new.cut ≡ self.old.cut + length self.old.journal }
        ensures core { self.new.core ≡ self.old.core }
        ensures limit { self.new.limit ≡ self.old.limit }
        ensures stamp { self.new.stamp ≡ self.old.stamp }
        ensures counts { (self.new.total ≡ self.old.total) × (self.new.called ≡ self.old.called) }
        ensures stamps { SameStamps self.old self.new }
        ensures rider { _rider.new ≡ _rider.old }
    {
        self.journal.cut(&self.core)
    }
}
