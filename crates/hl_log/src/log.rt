use crate::shared::Shared;
use hl_core::Core;
use hl_counts::CountTable;
use hl_model::Tag;
use hl_pass::Stamps;
use hl_words::RowMaster;
use std::alloc::Global;
use std::marker::Model;
use std::sync::Arc;

/// What lies under the caller's lock: the core, which counts its slots by epoch and has bare tags for jobs, the stamp
/// of each slot, and the right to store the four words and to deal riders out.
#[derive(Drop)]
pub struct Log {
    pub(crate) core: Core<CountTable, Tag>,
    pub(crate) shared: Arc<Shared, Global>,
    pub(crate) stamps: Stamps,
    pub(crate) master: RowMaster,
}

impl Model for Log {
    ghost use Rattle.hl_log.specs.Logs.{IsLog};
    ghost use Rattle.hl_log.specs.States.{LogState};

    ghost Value = { LogState };

    ghost view = { λ l. record {
      core = l.core;
      stamps = l.stamps;
      shared = l.shared.value;
      master = l.master;
    } };

    ghost invariant = { λ l. IsLog (record {
      core = l.core;
      stamps = l.stamps;
      shared = l.shared.value;
      master = l.master;
    }) };
}
