//! What the riders of a race and its crew share, and how they run beside each other.
ghost use Rattle.std.specs.Prelude.{◌≡◌};

use crate::race::Race;
use hl_action::{AnyAnswer, NoJob};
use hl_counts::CountTable;
use hl_crew::{CrewEnd, OpenGate, run_crew};
use hl_domain::Domain;
use hl_image::MemoryWriter;
use hl_model::Fault;
use hl_words::{Realm, Rider};
use std::alloc::{AllocError, Global};
use std::sync::Wait;
use std::sync::atomic::AtomicU64;
use std::thread::Threads;
use std::{array, thread};

/// How many riders a crew has.
pub(crate) const CREW: usize = 4;

/// How many pages may be written, and how many may be read, behind which the crew keeps the offsets.
const MUTABLE: u64 = 2;

const RESIDENT: u64 = 4;

/// How many pages a writer of the crew keeps.
const PAGES: u64 = 8192;

/// The domain of a race.
pub(crate) type Track<L> = Domain<CountTable, NoJob, AnyAnswer, L>;

/// What comes back from a crew, and whether it was refused. It has no page writers if memory for
/// these was refused.
#[derive(Drop)]
pub(crate) struct CrewBack<L: Realm> {
    pub(crate) riders: [Rider<L>; CREW],
    pub(crate) writers: Option<[MemoryWriter; 2]>,
    pub(crate) ended: Result<(), Fault>,
}

/// What the riders of a race and its crew share.
#[derive(Drop)]
pub(crate) struct Course<'x, R, L: Realm> {
    pub(crate) rt: &'x R,
    pub(crate) alloc: Global,
    pub(crate) domain: &'x Track<L>,
    pub(crate) race: Race,
    /// How many loads of the riders were answered by a word.
    pub(crate) loads: &'x AtomicU64,
    ghost frames: { domain.now.sizes.frames ≡ 8 },
}

impl<R: Threads + Wait + Sync, L: Realm + Send + Sync> Course<'_, R, L> {
    /// Runs the crew with the last four riders, and the others round by round beside it; all come back.
    ///
    /// `OutOfMemory` if memory for the others' threads was refused.
    pub(crate) fn run(
        &self,
        mut riders: Vec<Rider<L>>,
    ) -> Result<(Vec<Rider<L>>, CrewBack<L>), Fault> {
        let crew = crew_of(&mut riders)?;
        let (riders, crew) = thread::join(
            self.rt,
            || self.ride_all(riders),
            || self.flush_all(crew),
        );
        Ok((riders.map_err(|_| Fault::OutOfMemory)?, crew))
    }

    // Riders make their rounds, each in a thread and on a slot of its own.
    fn ride_all(&self, riders: Vec<Rider<L>>) -> Result<Vec<Rider<L>>, AllocError> {
        let jobs = riders
            .into_iter()
            .enumerate()
            .collect::<Vec<_>>(self.alloc)?;
        thread::map_vec(
            self.rt,
            jobs,
            &|(k, rider)| self.ride(rider, self.race.first_slot().saturating_add(k as u64)),
        )
    }

    // The crew makes its turns. Its riders and page writers come back even if it was refused.
    fn flush_all(&self, riders: [Rider<L>; CREW]) -> CrewBack<L> {
        let (one, other) = match open_writers(self.alloc) {
            Ok(writers) => writers,
            Err(fault) => {
                return CrewBack {
                    riders,
                    writers: None,
                    ended: Err(fault),
                };
            }
        };
        let ended = run_crew(
            self.rt,
            self.alloc,
            self.domain,
            riders,
            one,
            other,
            &OpenGate,
            MUTABLE,
            RESIDENT,
            self.race.rounds(),
            self.race.cut,
        );
        match ended {
            Ok(end) => {
                let CrewEnd {
                    riders,
                    writers,
                    ..
                } = end;
                CrewBack {
                    riders,
                    writers: Some(writers),
                    ended: Ok(()),
                }
            }
            Err(handed_back) => {
                let (fault, riders, one, other) = handed_back;
                let writers = [one, other];
                CrewBack {
                    riders,
                    writers: Some(writers),
                    ended: Err(fault),
                }
            }
        }
    }
}

// The last four riders, for the crew.
fn crew_of<L: Realm>(riders: &mut Vec<Rider<L>>) -> Result<[Rider<L>; CREW], Fault> {
    array::try_from_fn(|_| riders.pop().ok_or(Fault::Size))
}

// Two writers of images of 16 words with the page's number before them.
fn open_writers(alloc: Global) -> Result<(MemoryWriter, MemoryWriter), Fault> {
    let one = MemoryWriter::open(alloc, PAGES, 136)?;
    let other = MemoryWriter::open(alloc, PAGES, 136)?;
    Ok((one, other))
}
