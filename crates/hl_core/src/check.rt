ghost use Rattle.std.specs.Prelude.{◌≡◌, ◌==◌, Bool, List};
ghost use Rattle.std.specs.List.{list_any};
ghost use Rattle.hl_model.specs.declared.step.Step.{Step as STEP};
ghost use Rattle.hl_model.specs.declared.step.Step.TheVariants.{Take as TAKE, Done as DONE, Raise as RAISE, Shift as SHIFT, FlushTake as FLUSH_TAKE, FlushDone as FLUSH_DONE, CleanTake as CLEAN_TAKE, CleanDone as CLEAN_DONE};
ghost use Rattle.hl_model.specs.Replies.{acquire_fault, bare_fault, bump_fault, fault_of, unless_fault};
ghost use Rattle.hl_core.specs.Standing.{Stands};

use crate::rise::may_end_epoch;
use crate::state::Core;
use hl_epoch::Epochs;
use hl_model::{Fault, Step, Tagged, Waiting};

impl<E: Epochs, J: Tagged> Core<E, J> {
    /// Returns the fault that the step would meet, or `Ok` if it would be accepted. Changes nothing.
    #[inline(always)]
    pub fn check(&self, step: &Step) -> Result<(), Fault>
        ensures { (A : List STEP) → Stands J.tag self.now A
            → result ≡ unless_fault (fault_of self.now.sizes A step.now) tt }
    {
        match *step {
            Step::Acquire { t } => self.may_acquire(t),
            Step::Refresh { t } | Step::Release { t } => self.seen(t).map(|_| ()),
            Step::Bump { .. } | Step::Settle | Step::Close => self.may_bump(),
            Step::Bare => self.may_bare(),
            Step::Take => self.may_take(),
            Step::Done { ticket } => self.may_end(ticket),
            Step::Raise { x } => self.may_raise(x),
            Step::Shift { x } => self.may_shift(x),
            Step::Allocate { t, n } => self.may_allocate(t, n).map(|_| ()),
            Step::Look { t, read_only, head } => self.may_look(t, read_only, head).map(|_| ()),
            Step::Write { t, a, .. } => self.may_write(t, a),
            Step::Read { t, a } => self.may_read(t, a),
            Step::FlushTake => self.may_take_to_flush(),
            Step::FlushDone { page, .. } => self.may_end_flush(page),
            Step::CleanTake => self.may_take_to_clean(),
            Step::CleanDone { page } => self.may_end_cleaning(page),
        }
    }

    fn may_acquire(&self, t: u64) -> Result<(), Fault>
        ensures { (A : List STEP) → Stands J.tag self.now A
            → result ≡ unless_fault (acquire_fault self.now.sizes A t) tt }
    {
        match self.views.get(t) {
            None => Err(Fault::NoSlot),
            Some(None) => Ok(()),
            Some(Some(_)) => Err(Fault::Occupied),
        }
    }

    fn may_bump(&self) -> Result<(), Fault>
        ensures { (A : List STEP) → Stands J.tag self.now A
            → result ≡ unless_fault (bump_fault self.now.sizes A) tt }
    {
        if !self.drain.has_room() {
            return Err(Fault::DrainFull);
        }
        self.may_bare()
    }

    fn may_bare(&self) -> Result<(), Fault>
        ensures { (A : List STEP) → Stands J.tag self.now A
            → result ≡ unless_fault (bare_fault self.now.sizes A) tt }
    {
        may_end_epoch(&self.table)
    }

    fn may_take(&self) -> Result<(), Fault>
        ensures { (A : List STEP) → Stands J.tag self.now A
            → result ≡ unless_fault (fault_of self.now.sizes A TAKE) tt }
    {
        let Some(front) = self.drain.front() else {
            return Err(Fault::Empty);
        };
        let safe = self.table.safe();
        if front > safe {
            return Err(Fault::NotReady { front, safe });
        }
        Ok(())
    }

    pub(crate) fn may_end(&self, ticket: u64) -> Result<(), Fault>
        ensures { (A : List STEP) → Stands J.tag self.now A
            → result ≡ unless_fault (fault_of self.now.sizes A (DONE ticket)) tt }
    {
        if has_ticket(self.drain.taken_row(), ticket) {
            Ok(())
        } else {
            Err(Fault::NotTaken)
        }
    }

    fn may_raise(&self, x: u64) -> Result<(), Fault>
        ensures { (A : List STEP) → Stands J.tag self.now A
            → result ≡ unless_fault (fault_of self.now.sizes A (RAISE x)) tt }
    {
        if x <= self.offsets.read_only() {
            return Err(Fault::NotAbove);
        }
        if x > self.offsets.tail() {
            return Err(Fault::AboveTail);
        }
        Ok(())
    }

    fn may_shift(&self, x: u64) -> Result<(), Fault>
        ensures { (A : List STEP) → Stands J.tag self.now A
            → result ≡ unless_fault (fault_of self.now.sizes A (SHIFT x)) tt }
    {
        if x <= self.offsets.head() {
            return Err(Fault::NotAbove);
        }
        if x % self.params.page_size() != 0 {
            return Err(Fault::NotPage);
        }
        if x > self.frames.flushed_until() {
            return Err(Fault::AboveFlushed);
        }
        Ok(())
    }

    fn may_take_to_flush(&self) -> Result<(), Fault>
        ensures { (A : List STEP) → Stands J.tag self.now A
            → result ≡ unless_fault (fault_of self.now.sizes A FLUSH_TAKE) tt }
    {
        match self.frames.next_to_flush(self.offsets.safe_read_only()) {
            Some(_) => Ok(()),
            None => Err(Fault::NoneSealed),
        }
    }

    fn may_end_flush(&self, page: u64) -> Result<(), Fault>
        ensures { (A : List STEP) (ok : Bool) → Stands J.tag self.now A
            → result ≡ unless_fault (fault_of self.now.sizes A (FLUSH_DONE page ok)) tt }
    {
        if self.frames.is_in_flight(page) {
            Ok(())
        } else {
            Err(Fault::NotInFlight)
        }
    }

    fn may_take_to_clean(&self) -> Result<(), Fault>
        ensures { (A : List STEP) → Stands J.tag self.now A
            → result ≡ unless_fault (fault_of self.now.sizes A CLEAN_TAKE) tt }
    {
        match self.frames.next_to_clean(self.offsets.closed()) {
            Some(_) => Ok(()),
            None => Err(Fault::NoneClosed),
        }
    }

    fn may_end_cleaning(&self, page: u64) -> Result<(), Fault>
        ensures { (A : List STEP) → Stands J.tag self.now A
            → result ≡ unless_fault (fault_of self.now.sizes A (CLEAN_DONE page)) tt }
    {
        if self.frames.is_cleaning(page) {
            Ok(())
        } else {
            Err(Fault::NotCleaning)
        }
    }
}

/// Whether one of these actions has this ticket.
fn has_ticket(actions: &[Waiting], ticket: u64) -> bool
    ensures { result ≡ list_any (λ w. w.ticket == ticket) actions.now }
{
    actions.iter().any(|waiting| waiting.ticket == ticket)
}
