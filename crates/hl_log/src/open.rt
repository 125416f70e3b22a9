ghost use Rattle.std.specs.Prelude.{◌≡◌, ◌^◌, List, IfSome, []};
ghost use Rattle.hl_model.specs.declared.step.Step.{Step as STEP};
ghost use Rattle.hl_model.specs.Replies.{fault_of};
ghost use Rattle.hl_log.specs.Logs.{StandsAt};

use crate::log::Log;
use crate::shared::Shared;
use hl_core::Core;
use hl_counts::CountTable;
use hl_model::{Fault, Sizes, Step, Tag};
use hl_pass::Stamps;
use std::alloc::Global;
use std::sync::Arc;

impl Log {
    /// Returns a log at the empty list: epoch 1, no slot protected, no action, all offsets 0, and the words (by their
    /// type). The stamp tells its passes from those of other logs, if none of these has one near it. It can deal out
    /// 2^62 riders. None if memory was refused.
    pub fn open(alloc: Global, sizes: Sizes, stamp: u64) -> Option<Log>
        ensures { IfSome result (λ log. StandsAt log [] × (log.core.sizes ≡ sizes)
            × (log.shared.sizes ≡ sizes) × (log.stamps.own ≡ stamp) × (log.stamps.given ≡ 0)
            × (log.master.left ≡ 2 ^ 62)) }
    {
        let core = Core::open(alloc, sizes).ok()?;
        let (words, master) = Shared::open(alloc, sizes)?;
        let shared = Arc::new(alloc, words).ok()?;
        let stamps = Stamps::open(alloc, sizes.slots(), stamp).ok()?;
        Some(Log {
            core,
            shared,
            stamps,
            master,
        })
    }

    /// Its core, for queries.
    #[inline(always)]
    pub fn core(&self) -> &Core<CountTable, Tag>
        ensures { result.now ≡ self.now.core }
    {
        &self.core
    }

    /// Returns the fault that the step would meet, or None if it would be accepted. Changes nothing. It tells too that
    /// the log stands at some list.
    #[inline(always)]
    pub fn fault_of(&self, step: &Step) -> Option<Fault>
        ensures fault { (A : List STEP) → StandsAt self.now A
            → result ≡ fault_of self.now.core.sizes A step.now }
        ensures stands { (A : List STEP) × StandsAt self.now A }
    {
        self.core.check(step).err()
    }
}
