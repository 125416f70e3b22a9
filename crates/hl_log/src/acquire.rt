//! A pass for a slot.
ghost use Rattle.std.specs.Prelude.{◌≡◌, List, IfSome, MatchOption, OnOk, OnErr};
ghost use Rattle.hl_model.specs.declared.step.Step.{Step as STEP};
ghost use Rattle.hl_model.specs.declared.step.Step.TheVariants.{Acquire as ACQUIRE};
ghost use Rattle.hl_model.specs.Views.{slot_view};
ghost use Rattle.hl_model.specs.Replies.{extended};
ghost use Rattle.hl_pass.specs.Passes.{rested_in, stamped};
ghost use Rattle.hl_pass.specs.Stamps.{next_stamp};
ghost use Rattle.hl_log.specs.Calls.{KnownAt};
ghost use Rattle.hl_log.specs.Logs.{StandsAt, Makes, DealsOne, IsStamped};
ghost use Rattle.hl_log.specs.Passes.{with_own, epoch_told, IsRisen, IsVacant};

use crate::call::epoch_told;
use crate::log::Log;
use crate::pass::Pass;
use crate::shared::Shared;
use hl_model::{Fault, Reply, Step, View};
use hl_pass::PassView;
use std::sync::Arc;

impl Log {
    /// Returns a pass that acts for no slot yet, with one of the riders that are left. None if the owners of the shared
    /// words can't be counted further, or no rider is left; then nothing is changed.
    pub fn vacant(&mut self, slot: u64) -> Option<Pass>
        ensures pass { IfSome result (λ pass. IsVacant self.old slot pass) }
        ensures log { MatchOption result (self.new ≡ self.old) (λ _. DealsOne self.old self.new) }
    {
        let shared = Arc::try_clone(&self.shared).ok()?;
        let words: &Shared = &self.shared;
        let rider = words.words.deal(&mut self.master)?;
        let own = PassView {
            slot,
            stamp: 0,
            epoch: 0,
            held: View::default(),
            view: View::default(),
        };
        Some(Pass { shared, own, rider })
    }

    /// Protects the slot of a vacant pass, which then acts for it: the slot's epoch and view.
    ///
    /// Faults: `NoSlot`, `Occupied`; then nothing is changed.
    pub fn acquire(&mut self, pass: &mut Pass) -> Result<Reply, Fault>
        requires there { pass.old.shared ≡ self.old.shared }
        ensures made { Makes self.old (ACQUIRE pass.old.own.slot) self.new result }
        ensures refused { OnErr result ((self.new ≡ self.old) × (pass.new ≡ pass.old)) }
        ensures stamps { OnOk result (IsStamped self.old pass.old.own.slot self.new) }
        ensures pass { let p = pass.old
            in let log = self.old
            in OnOk result ((A : List STEP) → StandsAt self.new A → pass.new
            ≡ with_own (stamped (next_stamp log.stamps)
            (rested_in (slot_view log.core.sizes p.own.slot A) (epoch_told result p.own.epoch) p.own)) p) }
        ensures known { let step = ACQUIRE pass.old.own.slot
            in (A : List STEP) → StandsAt self.old A
            → OnOk result (KnownAt self.new (extended self.old.core.sizes A step) pass.new) }
        ensures risen { OnOk result (IsRisen pass.new) }
    {
        let t = pass.own.slot;
        let reply = self.core.act(&Step::Acquire { t })?;
        pass.own.stamp = self.stamps.give(t);
        let epoch = epoch_told(Ok(reply), pass.own.epoch);
        pass.own.rest_in(epoch, self.core.view(t));
        Ok(reply)
    }
}
