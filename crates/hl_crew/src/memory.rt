//! The memory that a crew takes: all of it before any of its threads is made.
ghost use Rattle.std.specs.Prelude.{◌≡◌, is_none, false, IfErr, IfOk};
ghost use Rattle.hl_model.specs.declared.fault.Fault.TheVariants.{OutOfMemory};

use crate::messages::Channels;
use crate::writer::Buffers;
use hl_action::{Promise, Task};
use hl_domain::Domain;
use hl_epoch::Epochs;
use hl_model::Fault;
use hl_words::Realm;
use std::alloc::Global;
use std::marker::Model;

/// The memory in which a crew that serves a domain of this realm copies pages: taken before, so that
/// [`Crew::serve_with`](crate::Crew::serve_with) takes none.
#[derive(Drop)]
pub struct CrewBuffers<L: Realm> {
    // A page's words and its image, for each writer.
    pub(crate) first: Buffers<L>,
    pub(crate) second: Buffers<L>,
}

impl<L: Realm> Model for CrewBuffers<L> {
    ghost Value = { Unit {0} };

    ghost view = { λ _. tt };
}

impl<L: Realm> CrewBuffers<L> {
    /// Takes the memory for one crew.
    ///
    /// Fault: `OutOfMemory` if memory was refused.
    pub fn open<E: Epochs + Drop, F: Task, P: Promise>(
        alloc: Global,
        domain: &Domain<E, F, P, L>,
    ) -> Result<CrewBuffers<L>, Fault>
        ensures { IfErr result (λ fault. fault ≡ OutOfMemory) }
    {
        let first = Buffers::open(alloc, domain)?;
        let second = Buffers::open(alloc, domain)?;
        Ok(CrewBuffers { first, second })
    }
}

/// All memory that a crew takes: its writers' buffers; and the channels, if its flusher sends the pages.
#[derive(Drop)]
pub(crate) struct CrewMemory<L: Realm> {
    pub(crate) channels: Option<Channels>,
    pub(crate) buffers: CrewBuffers<L>,
}

impl<L: Realm> CrewMemory<L> {
    /// Takes the memory of a crew whose flusher sends the pages.
    ///
    /// `OutOfMemory` if memory was refused.
    pub(crate) fn sending<E: Epochs + Drop, F: Task, P: Promise>(
        alloc: Global,
        domain: &Domain<E, F, P, L>,
    ) -> Result<CrewMemory<L>, Fault>
        ensures channels { IfOk result (λ memory. is_none memory.channels ≡ false) }
        ensures memory { IfErr result (λ fault. fault ≡ OutOfMemory) }
    {
        let channels = Channels::open(alloc).map_err(|_| Fault::OutOfMemory)?;
        let buffers = CrewBuffers::open(alloc, domain)?;
        Ok(CrewMemory {
            channels: Some(channels),
            buffers,
        })
    }
}
