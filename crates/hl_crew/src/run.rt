ghost use Rattle.std.specs.Prelude.{◌≡◌, is_none};
ghost use Rattle.hl_crew.specs.Lags.{IsLag};
ghost use Rattle.hl_crew.specs.Limited.{is_until};

use crate::ended::EndFlag;
use crate::limits::Limits;
use crate::messages::{Channels, Message};
use crate::mode::Mode;
use crate::sleepers::{AllTold, Sleepers};
use hl_action::{Promise, Task};
use hl_domain::Domain;
use hl_epoch::Epochs;
use hl_words::Realm;
use std::sync::Wait;
use std::sync::atomic::AtomicBool;

/// A crew's run: what its threads work on and share. The limits stand here alone: all threads keep to the same.
#[derive(Drop)]
pub(crate) struct Run<'x, R, E: Epochs, F: Task, P: Promise, L: Realm, G> {
    pub(crate) rt: &'x R,
    pub(crate) domain: &'x Domain<E, F, P, L>,
    pub(crate) gate: &'x G,
    pub(crate) mode: Mode<'x>,
    pub(crate) limits: Limits,
    /// Between the flusher and the writers, unless these take their pages themselves.
    pub(crate) channels: Option<Channels>,
    pub(crate) sleepers: Sleepers,
    /// Raised once the flusher has made its turns.
    pub(crate) ended: EndFlag,
    /// Whether a writer has written a page that it took itself since the flusher asked.
    pub(crate) has_written: AtomicBool,
    ghost lag: { IsLag domain.now.sizes.frames limits.mutable limits.resident },
    ghost serves: { is_none channels ≡ is_until mode },
}

impl<R: Wait, E: Epochs + Drop, F: Task, P: Promise, L: Realm, G> Run<'_, R, E, F, P, L, G> {
    /// Returns whether the crew serves: its writers take their pages themselves.
    pub(crate) fn serves(&self) -> bool
        ensures { result ≡ is_none self.now.channels }
    {
        self.channels.is_none()
    }

    /// The flusher makes no more turns: each writer that waits gets the message to stop, and whoever looks for pages
    /// is woken, and ends once it finds none.
    pub(crate) fn end(&self) -> AllTold {
        if let Some(channels) = &self.channels {
            for _ in 0..2 {
                let _ = channels.jobs.send(self.rt, Message::Stop);
            }
        }
        self.sleepers.wake_last(self.ended.raise())
    }
}
