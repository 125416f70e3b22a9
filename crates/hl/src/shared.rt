//! The threads of a log and its crew, side by side.
ghost use Rattle.std.specs.Prelude.{◌≡◌, ◌++◌, ◌+◌, ◌≤◌, map, length, vec_capacity, true, Some, is_some, ⊤, IfOk, IfSome};
ghost use Rattle.std.specs.List.{AllByRecursion};
ghost use Rattle.hl_words.specs.States.{new_riders};
ghost use Rattle.hl_traces.specs.Traces.{RiderTraces};
ghost use Rattle.hl_crew.specs.Riders.{riders_of};
ghost use Rattle.hl.specs.Closings.{AreLeft, CrewHasWorked, HasServed, HaveWorked, Tells, TellsCrew};
ghost use Rattle.hl.specs.declared.sink.Sink.{Sink};
ghost use Rattle.hl.specs.Devices.{device_has, has_page};
ghost use Rattle.hl.specs.Flushes.{flush_rounds, keeps_any, FlushesLog};
ghost use Rattle.hl.specs.LastSession.{TellsFlush};
ghost use Rattle.hl.specs.Sessions.{beside_crew};

use crate::at_end::FlushTold;
use crate::log::Log;
use crate::memory::MemoryDevice;
use crate::refused::Refused;
use crate::rows::{CrewParts, Place, Rows, Worked, part};
use crate::session::{Beside, Session};
use crate::signals::Signals;
use crate::sink::{Named, Sink};
use crate::told::Told;
use crate::work::Work;
use hl_crew::{Crew, CrewReport, CrewRiders, Duty, OpenGate};
use hl_model::Fault;
use hl_words::{Realm, Rider};
use std::alloc::Global;
use std::marker::Brand;
use std::sync::Wait;
use std::thread;
use std::thread::Threads;

/// What each thread returned, or why it got no session, or couldn't leave its own.
pub type Outs<T> = Vec<Result<T, Fault>>;

/// What the threads of a log returned, and what its crew did.
#[derive(Drop)]
pub struct Returned<T> {
    /// What each thread returned, by the threads' numbers.
    pub outs: Outs<T>,
    /// What the crew did; `OutOfMemory` if a thread of it couldn't be made. The threads then worked without it.
    pub crew: Result<CrewReport, Fault>,
}

/// What threads left, and the device in memory, if there is one.
pub(crate) type Left<T> = (Returned<T>, Option<MemoryDevice>);

// What a crew that served hands back: its riders, the device in memory, if there is one, and its report.
type Served<L> = (
    CrewRiders<L>,
    Option<MemoryDevice>,
    Result<CrewReport, Fault>,
);

// What the threads left, and the rider that flushed the log behind them, if there is one.
type Worker<L, T> = (Vec<Place<L, T>>, Option<FlushTold<L>>);

/// What the threads of a log and its crew work with.
#[derive(Drop)]
pub(crate) struct Shared<'x, R, P> {
    pub(crate) rt: &'x R,
    pub(crate) alloc: Global,
    /// What the crew keeps to.
    pub(crate) duty: Duty,
    pub(crate) work: &'x P,
}

impl<R: Threads + Wait + Sync, P: Work<R> + Sync> Shared<'_, R, P> {
    /// Runs a thread for each of these riders but the crew's, and the crew: what they left, and the riders. Nobody asks
    /// for memory, so all comes back.
    pub(crate) fn run_all<L: Realm + Send + Sync>(
        &self,
        log: &Log<L, P::Job>,
        rows: Rows<L, P::Out>,
        device: Option<MemoryDevice>,
    ) -> (Left<P::Out>, Vec<Rider<L>>)
        requires new { let all = map (λ place. place.1) rows.places.items ++ riders_of rows.crew.riders
            in all ≡ new_riders (length all) }
        requires duty { self.now.duty.frames ≡ log.now.sizes.frames }
        ensures kind { is_some result.0.1 ≡ is_some device }
        ensures crew { TellsCrew self.now.duty result.0.0.crew }
        ensures left { AreLeft P.Job log.now (is_some self.now.duty.cut_above)
            (P.returns self.now.work.now) (P.took self.now.work.now)
            (length rows.places.items + 4) result.0 result.1.items }
        ensures room { length rows.places.items + 6 ≤ vec_capacity result.1 }
    {
        let (left, riders, _) = self.run_and_flush(log, rows, device, None);
        (left, riders)
    }

    /// The same; and once all threads have ended this rider flushes the whole log, while the crew still serves.
    pub(crate) fn run_and_flush<L: Realm + Send + Sync>(
        &self,
        log: &Log<L, P::Job>,
        rows: Rows<L, P::Out>,
        device: Option<MemoryDevice>,
        flusher: Option<Rider<L>>,
    ) -> (Left<P::Out>, Vec<Rider<L>>, Option<FlushTold<L>>)
        requires new { let all = map (λ place. place.1) rows.places.items ++ riders_of rows.crew.riders
            in all ≡ new_riders (length all) }
        requires duty { self.now.duty.frames ≡ log.now.sizes.frames }
        requires enters { IfSome flusher (RiderTraces log.now.sizes) }
        ensures kind { is_some result.0.1 ≡ is_some device }
        ensures crew { TellsCrew self.now.duty result.0.0.crew }
        ensures left { AreLeft P.Job log.now (is_some self.now.duty.cut_above)
            (P.returns self.now.work.now) (P.took self.now.work.now)
            (length rows.places.items + 4) result.0 result.1.items }
        ensures room { length rows.places.items + 6 ≤ vec_capacity result.1 }
        ensures flushed { TellsFlush P.Job log.now (is_some self.now.duty.cut_above)
            (FlushesLog P.Job P.Job.gives keeps_any flush_rounds) flusher result.2 }
    {
        let Rows {
            crew,
            places,
            outs,
            riders,
        } = rows;
        let signals = Signals::new();
        // If the first one's thread can't be made, it runs after the second: a crew that ran first would wait for its stop.
        let ((crew, device, served), told) = thread::join(
            self.rt,
            || -> Served<L>
                requires { self.now.duty.frames ≡ log.now.sizes.frames }
                ensures { HasServed self.entry.now.duty log.entry.now.sizes
                    (device_has (P.took self.entry.now.work.now) result.1)
                    (riders_of crew.riders) (riders_of result.0) result.2 × (is_some result.1 ≡ is_some device) }
            { self.serve_behind(log, crew, device, &signals) },
            || -> Told<Worker<L, P::Out>>
                requires threads { AllByRecursion (RiderTraces log.now.sizes) (map (λ place. place.1) places.items) }
                requires flusher { IfSome flusher (RiderTraces log.now.sizes) }
                ensures worked { HaveWorked P.Job log.entry.now (is_some self.entry.now.duty.cut_above)
                    (P.returns self.entry.now.work.now)
                    (map (λ place. place.1) places.items) result.left.0.items }
                ensures flushed { TellsFlush P.Job log.entry.now (is_some self.entry.now.duty.cut_above)
                    (FlushesLog P.Job P.Job.gives keeps_any flush_rounds) flusher result.left.1 }
            { self.work_all(log, places, flusher, &signals) },
        );
        let (worked, flushed) = told.into_left();
        let (outs, mut riders) = part(worked, outs, riders);
        crew.put_back_reserved(&mut riders);
        let returned = Returned { outs, crew: served };
        ((returned, device), riders, flushed)
    }

    // Each rider's thread, in its place, then the flush of the log, and then the crew's stop.
    fn work_all<L: Realm + Send + Sync>(
        &self,
        log: &Log<L, P::Job>,
        mut places: Vec<Place<L, P::Out>>,
        flusher: Option<Rider<L>>,
        signals: &Signals,
    ) -> Told<Worker<L, P::Out>>
        requires threads { AllByRecursion (RiderTraces log.now.sizes) (map (λ place. place.1) places.items) }
        requires flusher { IfSome flusher (RiderTraces log.now.sizes) }
        ensures worked { HaveWorked P.Job log.now (is_some self.now.duty.cut_above)
            (P.returns self.now.work.now) (map (λ place. place.1) places.items) result.left.0.items }
        ensures flushed { TellsFlush P.Job log.now (is_some self.now.duty.cut_above)
            (FlushesLog P.Job P.Job.gives keeps_any flush_rounds) flusher result.left.1 }
    {
        self.work_each(log, &mut places, signals);
        let flushed = match flusher {
            Some(rider) => Some(self.flush_one(log, rider, signals)),
            None => None,
        };
        Told::of((places, flushed), &signals.stop)
    }

    // Each rider's thread: at each place stands then what the thread returned, and its rider.
    fn work_each<L: Realm + Send + Sync>(
        &self,
        log: &Log<L, P::Job>,
        places: &mut [Place<L, P::Out>],
        signals: &Signals,
    )
        requires { AllByRecursion (RiderTraces log.now.sizes) (map (λ place. place.1) places.old) }
        ensures { HaveWorked P.Job log.now (is_some self.now.duty.cut_above)
            (P.returns self.now.work.now) (map (λ place. place.1) places.old) places.new }
    {
        let threads = places.len().max(1);
        thread::for_each_mut(
            self.rt,
            places,
            threads,
            &|number: usize, place: &mut Place<L, P::Out>|
                requires { RiderTraces log.now.sizes place.now.1 }
                ensures { Tells P.Job log.entry.now beside_crew (is_some self.entry.now.duty.cut_above)
                    (P.returns self.entry.now.work.now number) place.entry.now.1 place.exit.now.1 place.exit.now.0 }
            { self.work_at(log, place, number as u64, signals) },
        );
    }

    // A thread's work, at its place.
    fn work_at<L: Realm + Send + Sync>(
        &self,
        log: &Log<L, P::Job>,
        place: &mut Place<L, P::Out>,
        number: u64,
        signals: &Signals,
    )
        requires { RiderTraces log.now.sizes place.old.1 }
        ensures { Tells P.Job log.now beside_crew (is_some self.now.duty.cut_above)
            (P.returns self.now.work.now number) place.old.1 place.new.1 place.new.0 }
    {
        let Some((_, rider)) = place.held.take() else {
            unreachable!()
        };
        place.held = Some(self.work_one(log, rider, number, signals));
    }

    // A thread's time in its session, which it leaves by tries if the duty cuts: others may fill the journal meanwhile.
    fn work_one<L: Realm + Send + Sync>(
        &self,
        log: &Log<L, P::Job>,
        rider: Rider<L>,
        number: u64,
        signals: &Signals,
    ) -> Worked<L, P::Out>
        requires { RiderTraces log.now.sizes rider }
        ensures { Tells P.Job log.now beside_crew (is_some self.now.duty.cut_above)
            (P.returns self.now.work.now number) rider result.1 result.0 }
    {
        let mut session = match Session::enter_beside(self.rt, log, rider, Beside::crew(signals)) {
            Ok(session) => session,
            Err(Refused { fault, back }) => return (Err(fault), back),
        };
        let out = self.work.run(self.rt, &mut session, number);
        // Of the session that `run` left no more is known than its type, and that says which log it is of.
        session.log().known();
        log.known();
        match session.leave_by_tries(self.duty.cut_above().is_some()) {
            Ok(rider) => (Ok(out), rider),
            Err(Refused { fault, back }) => (Err(fault), back.abandon()),
        }
    }

    // The crew serves; its riders and the device come back even if it was refused.
    fn serve_behind<L: Realm + Send + Sync>(
        &self,
        log: &Log<L, P::Job>,
        parts: CrewParts<L>,
        device: Option<MemoryDevice>,
        signals: &Signals,
    ) -> Served<L>
        requires { self.now.duty.frames ≡ log.now.sizes.frames }
        ensures { HasServed self.now.duty log.now.sizes (device_has (P.took self.now.work.now) result.1)
            (riders_of parts.riders) (riders_of result.0)
            result.2 × (is_some result.1 ≡ is_some device) }
    {
        self.serve_named::<Brand, L>(log, parts, device, signals)
    }

    // The same, with page writers that name the work.
    fn serve_named<T: Named<P> + Send, L: Realm + Send + Sync>(
        &self,
        log: &Log<L, P::Job>,
        parts: CrewParts<L>,
        device: Option<MemoryDevice>,
        signals: &Signals,
    ) -> Served<L>
        requires duty { self.now.duty.frames ≡ log.now.sizes.frames }
        requires work { T.work ≡ Some self.now.work.now }
        requires kind { T.in_memory ≡ is_some device }
        ensures served { HasServed self.now.duty log.now.sizes (device_has (P.took self.now.work.now) result.1)
            (riders_of parts.riders) (riders_of result.0)
            result.2 × (is_some result.1 ≡ is_some device) }
        ensures works { IfOk result.2 (λ report. CrewHasWorked P.Job log.now self.now.duty
            (λ (sink : Sink R P T T.Named) page bytes. has_page
            (λ page bytes. IfSome T.work (λ work. P.took work page bytes)) sink.memory page bytes)
            (λ _ _ _ _. ⊤) (λ _ _ _ _. ⊤) (λ sink. sink.failures) parts.riders result.0 report) }
    {
        let (first, second) = MemoryDevice::into_parts(device);
        let CrewParts { riders, buffers } = parts;
        let crew = Crew {
            riders,
            first: Sink::<R, P, T>::new(self.rt, self.work, first, &signals.refusals),
            second: Sink::<R, P, T>::new(self.rt, self.work, second, &signals.refusals),
        };
        let (crew, served) = crew.serve_with(
            self.rt,
            buffers,
            log,
            &OpenGate,
            self.duty,
            &signals.stop,
        );
        let first = crew.first.into_memory();
        let device = MemoryDevice::of_parts(first, crew.second.into_memory());
        (crew.riders, device, served)
    }
}
