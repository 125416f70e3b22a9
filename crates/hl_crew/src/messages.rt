ghost use Rattle.std.specs.Prelude.{◌≡◌};
ghost use Rattle.hl_crew.specs.Overs.{over_of};

use crate::gate::Taken;
use crate::writer::Acknowledgement;
use crossbeam_channel::{Receiver, Sender, bounded};
use hl_model::Fault;
use std::alloc::{AllocError, Global};

/// How many messages a channel holds: as many as a turn sends pages.
const CAPACITY: usize = 4;

/// What the flusher sends a writer.
#[derive(Drop)]
pub(crate) enum Message {
    /// To write a page.
    Write(Taken),
    /// To end.
    Stop,
}

/// The ends of both channels, which all threads share.
#[derive(Drop)]
pub(crate) struct Channels {
    pub(crate) jobs: Sender<Message>,
    pub(crate) jobs_sent: Receiver<Message>,
    pub(crate) acknowledgements: Sender<Acknowledgement>,
    pub(crate) acknowledged: Receiver<Acknowledgement>,
}

impl Channels {
    /// Both channels, of capacity 4.
    pub(crate) fn open(alloc: Global) -> Result<Channels, AllocError> {
        let (jobs, jobs_sent) = bounded(alloc, CAPACITY)?;
        let (acknowledgements, acknowledged) = bounded(alloc, CAPACITY)?;
        Ok(Channels {
            jobs,
            jobs_sent,
            acknowledgements,
            acknowledged,
        })
    }
}

/// Why turns are over before they are due.
#[derive(Clone, Copy, Debug, PartialEq, Eq)]
pub(crate) enum Over {
    /// The journal is full.
    Full,
    /// A channel has failed, or the domain doesn't know what is its own.
    Lost,
}

impl Over {
    /// What a call that the domain refused means.
    pub(crate) fn of(fault: &Fault) -> Over
        ensures { result ≡ over_of fault.now }
    {
        match fault {
            Fault::JournalFull => Over::Full,
            _ => Over::Lost,
        }
    }
}
