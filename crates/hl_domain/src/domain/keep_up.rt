//! A refresh that takes the lock only if anything is new.
ghost use Rattle.std.specs.Prelude.{◌≡◌, ◌≤◌, Ok, true, false};
ghost use Rattle.hl_words.specs.declared.which.Which.TheVariants.{Ended};
ghost use Rattle.hl_words.specs.Views.{greatest_of, looked};
ghost use Rattle.hl_keeper.specs.Passes.{seen, last_ended, LooksOn};
ghost use Rattle.hl_domain.specs.Domains.{after_news, stays_current, Refreshed};

use crate::domain::Domain;
use hl_action::{Promise, Task};
use hl_epoch::Epochs;
use hl_keeper::{Pass, unlocked};
use hl_model::{Fault, View};
use hl_words::Realm;
use std::sync::Wait;

impl<E: Epochs + Drop, F: Task, P: Promise, L: Realm> Domain<E, F, P, L> {
    /// Brings a pass up to date, as an engine's thread wants before each operation. It loads three words, without the
    /// lock: the read-only offset, the head, and the last epoch that ended. If neither offset is above the one that the
    /// pass saw, its slot's epoch has not ended, and it has room for a touch, that is all, and it returns what it
    /// saw. Else this is a [`refresh`](Domain::refresh).
    ///
    /// Faults, those of a refresh: `Stranger`, `JournalFull`.
    #[inline(always)]
    pub fn keep_up(&self, rt: &impl Wait, pass: &mut Pass<L>) -> Result<View, Fault>
        ensures kept { stays_current pass.old pass.new ≡ true
            → (result ≡ Ok (seen pass.old)) × (pass.new ≡ after_news pass.old pass.new) }
        ensures refreshed { stays_current pass.old pass.new ≡ false
            → Refreshed F self.now (after_news pass.old pass.new) pass.new result }
        ensures rises { LooksOn pass.old pass.new }
        ensures ended { greatest_of Ended (looked pass.old.rider.view.touches) ≤ last_ended pass.new }
    {
        if unlocked::keeps_up(&self.words, pass) {
            return Ok(pass.view());
        }
        // Taken apart, so that only a refresh's answer goes by way of memory: the other one, written there as well, would
        // be read at once and waited for.
        match self.refresh(rt, pass) {
            Ok(view) => Ok(view),
            Err(fault) => Err(fault),
        }
    }
}
