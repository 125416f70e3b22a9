ghost use Rattle.std.specs.Prelude.{◌≡◌, List, OnErr};
ghost use Rattle.hl_model.specs.declared.step.Reply.TheVariants.{Left as LEFT};
ghost use Rattle.hl_model.specs.declared.step.Step.{Step};
ghost use Rattle.hl_model.specs.declared.step.Step.TheVariants.{Acquire as ACQUIRE, Refresh as REFRESH, Release as RELEASE};
ghost use Rattle.hl_model.specs.Views.{view_of};
ghost use Rattle.hl_model.specs.Replies.{protected_fault, unless_fault};
ghost use Rattle.hl_core.specs.Standing.{Stands};
ghost use Rattle.hl_core.specs.Steps.{Made, as_reply, entered_reply};

use crate::state::Core;
use hl_epoch::Epochs;
use hl_model::{Fault, Slot, Tagged, View};

impl<E: Epochs, J: Tagged> Core<E, J> {
    /// Slot t becomes protected; returns what it has from now on: the current epoch, and the offsets as they
    /// are for its view.
    ///
    /// Faults, in their order: `NoSlot` if t is S or more, `Occupied` if the slot is protected.
    #[inline(always)]
    pub fn acquire(&mut self, t: u64) -> Result<Slot, Fault>
        ensures made { Made J.tag self.old (ACQUIRE t) self.new (as_reply entered_reply result) }
        ensures refused { OnErr result (self.new ≡ self.old) }
        ensures jobs { self.new.drain.pending ≡ self.old.drain.pending }
        ensures sizes { self.new.sizes ≡ self.old.sizes }
    {
        let view = self.present();
        self.table.acquire(t)?;
        self.views.set(t, Some(view));
        let epoch = self.table.current();
        Ok(Slot { epoch, view })
    }

    /// Slot t moves on; returns what it has from now on: the current epoch, and the offsets as they are for
    /// its view.
    ///
    /// Faults, in their order: `NoSlot` if t is S or more, `NotProtected` if the slot isn't protected.
    #[inline(always)]
    pub fn refresh(&mut self, t: u64) -> Result<Slot, Fault>
        ensures made { Made J.tag self.old (REFRESH t) self.new (as_reply entered_reply result) }
        ensures refused { OnErr result (self.new ≡ self.old) }
        ensures jobs { self.new.drain.pending ≡ self.old.drain.pending }
        ensures sizes { self.new.sizes ≡ self.old.sizes }
    {
        let view = self.present();
        self.table.refresh(t)?;
        self.views.set(t, Some(view));
        let epoch = self.table.current();
        Ok(Slot { epoch, view })
    }

    /// Slot t is protected no longer.
    ///
    /// Faults, in their order: `NoSlot` if t is S or more, `NotProtected` if the slot isn't protected.
    #[inline(always)]
    pub fn release(&mut self, t: u64) -> Result<(), Fault>
        ensures made { Made J.tag self.old (RELEASE t) self.new (as_reply (λ _. LEFT) result) }
        ensures refused { OnErr result (self.new ≡ self.old) }
        ensures jobs { self.new.drain.pending ≡ self.old.drain.pending }
        ensures sizes { self.new.sizes ≡ self.old.sizes }
    {
        self.table.release(t)?;
        self.views.set(t, None);
        Ok(())
    }

    /// The view of a protected slot, or the fault of a slot that isn't.
    #[inline(always)]
    pub(crate) fn seen(&self, t: u64) -> Result<View, Fault>
        ensures { (A : List Step) → Stands J.tag self.now A
            → result ≡ unless_fault (protected_fault self.now.sizes A t) (view_of self.now.sizes t A) }
    {
        match self.views.get(t) {
            None => Err(Fault::NoSlot),
            Some(None) => Err(Fault::NotProtected),
            Some(Some(view)) => Ok(view),
        }
    }

    /// The view of whoever enters now.
    #[inline(always)]
    fn present(&self) -> View
        ensures { let log = self.now.offsets
            in result ≡ record { read_only = log.read_only; head = log.head; tail = log.tail } }
    {
        View {
            read_only: self.offsets.read_only(),
            head: self.offsets.head(),
            tail: self.offsets.tail(),
        }
    }
}
