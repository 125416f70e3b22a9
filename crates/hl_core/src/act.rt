ghost use Rattle.std.specs.Prelude.{◌≡◌, true, OnErr};
ghost use Rattle.hl_core.specs.Steps.{Made, is_acted, entered_reply};

use crate::state::Core;
use hl_epoch::Epochs;
use hl_model::{Fault, Reply, Slot, Step, Tagged};

impl<E: Epochs, J: Tagged + Drop> Core<E, J> {
    /// Makes a step of which no job goes in or comes out: any but a take and a bump that stores an action. It
    /// is the step's own call, with what it returns as a reply. The faults are tried in their order, and
    /// a refused step changes nothing.
    #[inline(always)]
    pub fn act(&mut self, step: &Step) -> Result<Reply, Fault>
        requires { is_acted step.now ≡ true }
        ensures made { Made J.tag self.old step.now self.new result }
        ensures refused { OnErr result (self.new ≡ self.old) }
        ensures jobs { self.new.drain.pending ≡ self.old.drain.pending }
        ensures sizes { self.new.sizes ≡ self.old.sizes }
    {
        match *step {
            Step::Acquire { t } => self.acquire(t).map(entered),
            Step::Refresh { t } => self.refresh(t).map(entered),
            Step::Release { t } => self.release(t).map(|()| Reply::Left),
            Step::Bare => self.bare().map(Reply::Bumped),
            Step::Done { ticket } => self.done(ticket),
            Step::Raise { x } => self.raise(x).map(Reply::Raised),
            Step::Shift { x } => self.shift(x).map(Reply::Shifted),
            Step::Allocate { t, n } => self.allocate(t, n).map(Reply::At),
            Step::Look { t, read_only, head } => self.look(t, read_only, head).map(Reply::Looked),
            Step::Write { t, a, .. } => self.may_write(t, a).map(|()| Reply::Written),
            Step::Read { t, a } => self.may_read(t, a).map(|()| Reply::Readable),
            Step::FlushTake => self.flush_take().map(Reply::Page),
            Step::FlushDone { page, ok } => self.flush_done(page, ok).map(Reply::Flushed),
            Step::CleanTake => self.clean_take().map(Reply::Page),
            Step::CleanDone { page } => self.clean_done(page).map(Reply::Freed),
            Step::Bump { .. } | Step::Settle | Step::Close | Step::Take => unreachable!(),
        }
    }
}

// What a slot has, as the reply to the step by which it entered.
#[inline(always)]
fn entered(slot: Slot) -> Reply
    ensures { result ≡ entered_reply slot }
{
    let Slot { epoch, view } = slot;
    Reply::Entered { epoch, view }
}
