use crate::shared::Shared;
use hl_words::RowRider;
use std::alloc::Global;
use std::marker::Model;
use std::sync::Arc;

/// A page that is to be taken, or was, to be flushed or to be cleaned. Its words are copied or swept without the lock,
/// and its rider records it.
#[derive(Drop)]
pub struct Taken {
    pub(crate) shared: Arc<Shared, Global>,
    // The stamp of its log.
    pub(crate) origin: u64,
    pub(crate) page: u64,
    pub(crate) cleans: bool,
    pub(crate) swept: bool,
    pub(crate) rider: RowRider,
}

impl Model for Taken {
    ghost use Rattle.std.specs.Prelude.{◌≡◌};
    ghost use Rattle.hl_log.specs.States.{PageState};

    ghost Value = { PageState };

    ghost view = { λ t. record {
      shared = t.shared.value;
      origin = t.origin;
      page = t.page;
      cleans = t.cleans;
      swept = t.swept;
      rider = t.rider;
    } };

    ghost invariant = { λ t. t.rider.table ≡ t.shared.value.words.table };
}
