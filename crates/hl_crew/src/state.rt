ghost use Rattle.std.specs.Prelude.{◌≡◌};
ghost use Rattle.hl_crew.specs.Riders.{crew_of};
ghost use Rattle.hl_crew.specs.Works.{all_counted, begun};

use crate::cleaner::CleanerState;
use crate::counts::Counts;
use crate::crew::{Crew, CrewRiders};
use crate::flusher::{Asked, FlusherState};
use crate::memory::CrewBuffers;
use crate::writer::WriterState;
use hl_words::Realm;

/// What each thread of a crew has of its own.
pub(crate) struct CrewState<L: Realm, W> {
    pub(crate) flusher: FlusherState<L>,
    pub(crate) first: WriterState<L, W>,
    pub(crate) second: WriterState<L, W>,
    pub(crate) cleaner: CleanerState<L>,
}

impl<L: Realm, W> CrewState<L, W> {
    /// Returns each thread with its rider, and the two writers with a page writer each.
    pub(crate) fn of(crew: Crew<L, W>, buffers: CrewBuffers<L>) -> CrewState<L, W>
        ensures { result ≡ begun crew }
    {
        let Crew {
            riders,
            first,
            second,
        } = crew;
        CrewState {
            flusher: FlusherState {
                rider: riders.flusher,
                counts: Counts::none(),
                asked: Asked::none(),
            },
            first: WriterState::new(riders.first_writer, first, buffers.first),
            second: WriterState::new(riders.second_writer, second, buffers.second),
            cleaner: CleanerState::new(riders.cleaner),
        }
    }

    /// Returns the crew, each at its place, and what its threads counted. A page that the cleaner still keeps is given up.
    pub(crate) fn into_crew(self) -> (Crew<L, W>, Counts)
        ensures crew { result.0 ≡ crew_of self }
        ensures counts { result.1 ≡ all_counted self }
    {
        let CrewState {
            flusher,
            first,
            second,
            cleaner,
        } = self;
        let (first_writer, first, by_first) = first.into_parts();
        let (second_writer, second, by_second) = second.into_parts();
        let riders = CrewRiders {
            flusher: flusher.rider,
            first_writer,
            second_writer,
            cleaner: cleaner.into_rider(),
        };
        let crew = Crew {
            riders,
            first,
            second,
        };
        (crew, flusher.counts.with(by_first).with(by_second))
    }
}
