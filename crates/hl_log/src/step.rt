//! The steps that no pass makes.
ghost use Rattle.std.specs.Prelude.{◌≡◌, OnErr, IfOk};
ghost use Rattle.hl_model.specs.declared.step.Step.TheVariants.{Take as TAKE};
ghost use Rattle.hl_core.specs.Steps.{CameOut, take_reply};
ghost use Rattle.hl_pass.specs.Stores.{with_told, IsAbove};
ghost use Rattle.hl_log.specs.Logs.{Makes, Moves, IsOwn, IsBeside};

use crate::log::Log;
use crate::shared::Shared;
use hl_action::Firing;
use hl_model::{Fault, Reply, Step, Tag};
use hl_words::{RowMaster, Which};

impl Log {
    /// Makes a step that is no slot's and no page's. If it moved an offset or ended an epoch, the words
    /// tell passes of it.
    ///
    /// Faults: those of the step; a refused one changes nothing.
    #[inline(always)]
    pub fn step(&mut self, step: &Step) -> Result<Reply, Fault>
        requires { IsOwn step.now }
        ensures made { Moves self.old step.now self.new result }
        ensures refused { OnErr result (self.new ≡ self.old) }
    {
        self.make(step)
    }

    // The same for any step.
    #[inline(always)]
    pub(crate) fn make(&mut self, step: &Step) -> Result<Reply, Fault>
        ensures made { Moves self.old step.now self.new result }
        ensures refused { OnErr result (self.new ≡ self.old) }
    {
        let reply = self.core.step(step)?;
        tell(&self.shared, &mut self.master, reply);
        Ok(reply)
    }

    /// Takes the oldest pending action; returns its firing, and its tag if it is a job's.
    ///
    /// Faults: `Empty`, `NotReady`.
    #[inline(always)]
    pub fn take(&mut self) -> Result<(Firing, Option<Tag>), Fault>
        ensures made { Makes self.old TAKE self.new (take_reply result) }
        ensures out { let old = self.old.core
            in let new = self.new.core
            in IfOk result (λ taken. CameOut (λ t. t.0) old new taken.0.ticket taken.1) }
        ensures beside { IsBeside self.old self.new }
        ensures refused { OnErr result (self.new ≡ self.old) }
    {
        self.core.take()
    }
}

/// Stores what a reply told of an offset or of the epoch.
#[inline(always)]
fn tell(shared: &Shared, master: &mut RowMaster, reply: Reply)
    requires there { master.old.table ≡ shared.now.words.table }
    requires rises { IsAbove master.old.offsets (with_told reply master.old.offsets) }
    ensures { let old = master.old
        in master.new ≡ record (old) { offsets = with_told reply old.offsets } }
{
    let words = &shared.words;
    match reply {
        Reply::Raised(read_only) => words.store_offset(master, Which::ReadOnly, read_only),
        Reply::Shifted(head) => words.store_offset(master, Which::Head, head),
        Reply::Ticket(ended) | Reply::Bumped(ended) => {
            words.store_offset(master, Which::Ended, ended)
        }
        Reply::Settled(safe) => words.store_offset(master, Which::SafeReadOnly, safe),
        _ => {}
    }
}
