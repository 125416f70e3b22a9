ghost use Rattle.std.specs.Prelude.{◌≡◌, is_none, false};
ghost use Rattle.hl_crew.specs.Counting.{nothing};
ghost use Rattle.hl_crew.specs.Riders.{FailsPage, WritesPage};
ghost use Rattle.hl_crew.specs.Works.{IsNamed, WritesBy};

use crate::counts::Counts;
use crate::gate::Gate;
use crate::given::Left;
use crate::messages::{Channels, Message};
use crate::run::Run;
use crate::seats::{Done, Seat};
use crate::sleepers::Sleeper;
use hl_action::{Promise, Task};
use hl_epoch::Epochs;
use hl_image::PageWriter;
use hl_words::{Realm, Rider};
use std::sync::{Mutex, Wait};

mod buffers;
mod flush;
mod write;

pub(crate) use buffers::Buffers;
pub(crate) use write::Acknowledgement;

/// What a writer has of its own.
pub(crate) struct WriterState<L: Realm, W> {
    pub(crate) rider: Rider<L>,
    pub(crate) pages: W,
    pub(crate) buffers: Buffers<L>,
    /// The flushes of the pages that it took itself.
    pub(crate) counts: Counts,
}

impl<L: Realm, W> WriterState<L, W> {
    /// Returns a writer that has counted nothing.
    pub(crate) fn new(rider: Rider<L>, pages: W, buffers: Buffers<L>) -> WriterState<L, W>
        ensures { (result.rider ≡ rider) × (result.pages ≡ pages) × (result.counts ≡ nothing) }
    {
        WriterState {
            rider,
            pages,
            buffers,
            counts: Counts::none(),
        }
    }

    /// Returns its rider, its page writer, and what it counted.
    pub(crate) fn into_parts(self) -> (Rider<L>, W, Counts)
        ensures { result ≡ (self.rider, self.pages, self.counts) }
    {
        let WriterState {
            rider,
            pages,
            buffers: _,
            counts,
        } = self;
        (rider, pages, counts)
    }
}

impl<R: Wait, E: Epochs + Drop, F: Task, P: Promise, L: Realm, G: Gate> Run<'_, R, E, F, P, L, G> {
    /// A writer's thread: writes the pages that are sent; or takes pages itself, and sleeps here while there is none.
    pub(crate) fn run_writer<W: PageWriter, K: Left<WriterState<L, W>>>(
        &self,
        own: &Mutex<Seat<WriterState<L, W>, K>>,
        sleeper: &Sleeper,
    ) -> Done
        requires { IsNamed K.left (WritesBy F self.now.domain.now self.now.limits
            (G.lets self.now.gate.now) (WritesPage W.has W.wrote) (FailsPage W.has W.failed) W.failures
            (is_none self.now.channels)) }
    {
        let mut guard = own.lock(self.rt);
        let seat = &mut *guard;
        if !seat.is_done {
            self.write_all(&mut seat.own, sleeper);
            seat.is_done = true;
        }
        seat.done()
    }

    // Writes its pages, which are sent or which it takes.
    fn write_all<W: PageWriter>(&self, own: &mut WriterState<L, W>, sleeper: &Sleeper)
        ensures { WritesBy F self.now.domain.now self.now.limits (G.lets self.now.gate.now)
            (WritesPage W.has W.wrote) (FailsPage W.has W.failed) W.failures (is_none self.now.channels)
            own.old own.new }
    {
        match &self.channels {
            Some(channels) => self.write_on(own, channels),
            None => {
                let _ = self.flush_all(own, sleeper);
            }
        }
    }

    // Writes page after page, and acknowledges each, until it gets the message to stop or a channel fails.
    fn write_on<W: PageWriter>(&self, own: &mut WriterState<L, W>, channels: &Channels)
        ensures { WritesBy F self.now.domain.now self.now.limits (G.lets self.now.gate.now)
            (WritesPage W.has W.wrote) (FailsPage W.has W.failed) W.failures false own.old own.new }
    {
        for _ in self.rt.forever() {
            let Ok(Message::Write(taken)) = channels.jobs_sent.recv(self.rt) else {
                return;
            };
            let acknowledgement = self.write(own, taken);
            let sent = channels.acknowledgements.send(self.rt, acknowledgement);
            if sent.is_err() {
                return;
            }
        }
    }
}
