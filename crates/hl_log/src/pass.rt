ghost use Rattle.std.specs.Prelude.{◌≡◌};

use crate::shared::Shared;
use hl_model::View;
use hl_pass::PassView;
use hl_words::RowRider;
use std::alloc::Global;
use std::marker::Model;
use std::sync::Arc;

/// The right of a thread to act for the slot that it acquired. Its looks, stores and loads take no lock, and its rider
/// records them; a call under the log's lock begins with what it saw.
#[derive(Drop)]
pub struct Pass {
    pub(crate) shared: Arc<Shared, Global>,
    pub(crate) own: PassView,
    pub(crate) rider: RowRider,
}

impl Model for Pass {
    ghost use Rattle.std.specs.Prelude.{◌≡◌};
    ghost use Rattle.hl_log.specs.States.{PassState};

    ghost Value = { PassState };

    ghost view = { λ p. record { shared = p.shared.value; own = p.own; rider = p.rider } };

    ghost invariant = { λ p. p.rider.table ≡ p.shared.value.words.table };
}

impl Pass {
    /// What it sees.
    #[inline(always)]
    pub fn view(&self) -> View
        ensures { result ≡ self.now.own.view }
    {
        self.own.view
    }
}
