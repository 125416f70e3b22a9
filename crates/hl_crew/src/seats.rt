ghost use Rattle.std.specs.Prelude.{◌≡◌, ◌&&◌, false, true};

use crate::cleaner::CleanerState;
use crate::flusher::FlusherState;
use crate::given::{Given, Left, OfCleaner, OfFirst, OfFlusher, OfSecond};
use crate::state::CrewState;
use crate::writer::WriterState;
use hl_words::Realm;
use std::marker::{Model, PhantomData};
use std::sync::Mutex;

/// What a thread has of its own, as it lies under its lock: what it was given, or what it left once its work was done.
pub(crate) struct Seat<S, K: Left<S>> {
    pub(crate) own: S,
    /// Whether its thread has done its work.
    pub(crate) is_done: bool,
    named: PhantomData<K>,
}

impl<S, K: Left<S>> Model for Seat<S, K> {
    ghost use Rattle.hl_crew.specs.Works.{SeatState};

    ghost Value = { SeatState S };

    ghost view = { λ seat. record { own = seat.own; is_done = seat.is_done } };

    ghost invariant = { λ seat. K.left seat.is_done seat.own };
}

/// That a thread has done its work. Only [`Seat::done`] makes one, so no thread can end without.
#[derive(Drop)]
pub(crate) struct Done {
    _made: (),
}

impl<S, K: Left<S>> Seat<S, K> {
    // The seat of a thread that hasn't begun.
    fn new(own: S) -> Seat<S, K>
        requires { K.left false own }
    {
        Seat {
            own,
            is_done: false,
            named: PhantomData,
        }
    }

    /// Its thread has done its work.
    pub(crate) fn done(&self) -> Done
        requires { self.now.is_done ≡ true }
    {
        Done { _made: () }
    }

    // What its thread has left, and whether it has done its work.
    fn into_parts(self) -> (S, bool)
        ensures { K.left result.1 result.0 }
    {
        let Seat {
            own,
            is_done,
            named: _,
        } = self;
        (own, is_done)
    }
}

/// Which threads of a crew have done their work.
#[derive(Clone, Copy)]
pub(crate) struct AreDone {
    flusher: bool,
    first: bool,
    second: bool,
    cleaner: bool,
}

impl AreDone {
    /// Returns whether all have.
    pub(crate) fn all(self) -> bool
        ensures { result ≡ (self.flusher && (self.first && (self.second && self.cleaner))) }
    {
        self.flusher && self.first && self.second && self.cleaner
    }
}

/// What each thread has of its own, under a lock that it takes once.
pub(crate) struct Seats<L: Realm, W, K: Given<W>> {
    pub(crate) flusher: Mutex<Seat<FlusherState<L>, OfFlusher<W, K>>>,
    pub(crate) first: Mutex<Seat<WriterState<L, W>, OfFirst<W, K>>>,
    pub(crate) second: Mutex<Seat<WriterState<L, W>, OfSecond<W, K>>>,
    pub(crate) cleaner: Mutex<Seat<CleanerState<L>, OfCleaner<W, K>>>,
}

impl<L: Realm, W, K: Given<W>> Seats<L, W, K> {
    /// A seat for each thread.
    pub(crate) fn of(state: CrewState<L, W>) -> Seats<L, W, K>
        requires flusher { K.flusher false state.flusher.rider state.flusher.counts state.flusher.asked }
        requires first { K.first false state.first.rider state.first.pages state.first.counts }
        requires second { K.second false state.second.rider state.second.pages state.second.counts }
        requires cleaner { K.cleaner false state.cleaner.rider state.cleaner.swept }
    {
        let CrewState {
            flusher,
            first,
            second,
            cleaner,
        } = state;
        Seats {
            flusher: Mutex::new(Seat::new(flusher)),
            first: Mutex::new(Seat::new(first)),
            second: Mutex::new(Seat::new(second)),
            cleaner: Mutex::new(Seat::new(cleaner)),
        }
    }

    /// What each thread has left, and which have done their work.
    pub(crate) fn end(self) -> (CrewState<L, W>, AreDone)
        ensures flusher { let left = result.0 in K.flusher result.1.flusher
            left.flusher.rider left.flusher.counts left.flusher.asked }
        ensures first { let left = result.0 in K.first result.1.first
            left.first.rider left.first.pages left.first.counts }
        ensures second { let left = result.0 in K.second result.1.second
            left.second.rider left.second.pages left.second.counts }
        ensures cleaner { let left = result.0 in K.cleaner result.1.cleaner
            left.cleaner.rider left.cleaner.swept }
    {
        let Seats {
            flusher,
            first,
            second,
            cleaner,
        } = self;
        let (flusher, by_flusher) = flusher.into_inner().into_parts();
        let (first, by_first) = first.into_inner().into_parts();
        let (second, by_second) = second.into_inner().into_parts();
        let (cleaner, by_cleaner) = cleaner.into_inner().into_parts();
        let state = CrewState {
            flusher,
            first,
            second,
            cleaner,
        };
        let are_done = AreDone {
            flusher: by_flusher,
            first: by_first,
            second: by_second,
            cleaner: by_cleaner,
        };
        (state, are_done)
    }
}
