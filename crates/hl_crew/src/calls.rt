ghost use Rattle.std.specs.Prelude.{◌≡◌, ◌≢◌, [], ◌∷◌, Err, true, is_none, IfOk, IfErr};
ghost use Rattle.hl_crew.specs.Lags.{IsLag};
ghost use Rattle.hl_crew.specs.Limited.{duty_cuts, duty_limits, run_cuts, run_limits, is_until};
ghost use Rattle.hl_crew.specs.Riders.{AreAsGiven, RidersStay, FailsPage, WritesPage, riders_of};
ghost use Rattle.hl_crew.specs.Rounds.{HasWorked, HasWorkedInPart, CountHasWorked};
ghost use Rattle.hl_crew.specs.Works.{AreNamed, begun, counts_of};
ghost use Rattle.hl_model.specs.declared.fault.Fault.TheVariants.{OutOfMemory, Size};

use crate::crew::{Crew, CrewReport, CrewRiders};
use crate::duty::Duty;
use crate::ended::EndFlag;
use crate::gate::Gate;
use crate::given::Given;
use crate::limits::Limits;
use crate::memory::{CrewBuffers, CrewMemory};
use crate::mode::Mode;
use crate::run::Run;
use crate::seats::Seats;
use crate::sleepers::Sleepers;
use crate::state::CrewState;
use crate::stop::Stop;
use hl_action::{Promise, Task};
use hl_domain::Domain;
use hl_epoch::Epochs;
use hl_image::PageWriter;
use hl_model::Fault;
use hl_words::{Realm, Rider};
use std::alloc::Global;
use std::marker::Brand;
use std::sync::Wait;
use std::sync::atomic::AtomicBool;
use std::thread::Threads;

/// What [`run_crew`] returns.
#[derive(Drop)]
pub struct CrewEnd<L: Realm, W> {
    /// The riders, in their order.
    pub riders: [Rider<L>; 4],
    /// The page writers, in their order.
    pub writers: [W; 2],
    /// How many flushes were answered as ended well.
    pub written: u64,
    /// How many flushes were answered as failed.
    pub failed: u64,
    /// How many acknowledgements named a page that the flusher didn't hold.
    pub strangers: u64,
    // Of the threads that were made.
    limits: Limits,
}

impl<L: Realm, W> CrewEnd<L, W> {
    /// Returns the limits that all its threads kept to.
    pub fn limits(&self) -> Limits
        ensures { result ≡ self.now.limits }
    {
        self.limits
    }
}

/// Runs a crew on a domain for a given number of turns: a flusher, two writers and a cleaner, each
/// in a thread of its own. Of the riders the first is the flusher's, the next two are the writers',
/// the last is the cleaner's. About `mutable` pages at the tail may be written and about `resident`
/// may be read: `1 <= mutable <= resident <= F`. If `cut` is true, the journal is cut at the end of
/// each of the flusher's turns. The end has these four as the limits within which all threads did
/// their work, and it counts what they counted.
///
/// With as many resident pages as frames, the head never passes the page whose frame the page above
/// the tail needs, and no frame comes free: [`Duty`] excludes that.
///
/// If the riders had stored into cells only to sweep pages that they had taken to clean, so it is with those that
/// come back: where the crew took no page to clean, they stored nothing. If each of their stores was entered, so each is;
/// if their calls had made takes and dones, raises and shifts, settles and closes alone, so they have: a crew takes no
/// slot, allocates no page and writes no word. If `cut` is false and none of their calls had cut a step, none has.
///
/// `OutOfMemory` if memory or a thread was refused; then riders and page writers are handed back.
/// Steps that were made until then stay in the journal.
pub fn run_crew<R, E, F, P, L, W, G>(
    rt: &R,
    alloc: Global,
    domain: &Domain<E, F, P, L>,
    riders: [Rider<L>; 4],
    first: W,
    second: W,
    gate: &G,
    mutable: u64,
    resident: u64,
    turns: u64,
    cut: bool,
) -> Result<CrewEnd<L, W>, (Fault, [Rider<L>; 4], W, W)>
where
    R: Threads + Wait + Sync,
    E: Epochs + Drop + Send,
    F: Task + Send,
    P: Promise + Send,
    L: Realm + Send + Sync,
    W: PageWriter + Send,
    G: Gate + Sync,
    requires { IsLag domain.now.sizes.frames mutable resident }
    ensures limits { IfOk result (λ end. end.limits ≡ run_limits mutable resident turns cut) }
    ensures works { IfOk result (λ end. CountHasWorked F domain.now (run_limits mutable resident turns cut)
        (G.lets gate.now) (WritesPage W.has W.wrote) (FailsPage W.has W.failed) W.failures
        riders (first ∷ second ∷ []) end) }
    ensures stay { IfOk result (λ end. RidersStay (run_cuts cut) domain.now.sizes riders end.riders)
        × IfErr result (λ back. RidersStay (run_cuts cut) domain.now.sizes riders back.1) }
    ensures err { IfErr result (λ back. back.0 ≡ OutOfMemory) }
{
    let Ok(memory) = CrewMemory::sending(alloc, domain) else {
        return Err((Fault::OutOfMemory, riders, first, second));
    };
    let riders = CrewRiders::of(riders);
    let crew = Crew {
        riders,
        first,
        second,
    };
    let limits = Limits::of_run(mutable, resident, turns, cut);
    let mode = Mode::Turns;
    let (crew, report) = crew.run::<R, E, F, P, G, Brand>(rt, memory, domain, gate, limits, mode);
    let Crew {
        riders,
        first,
        second,
    } = crew;
    let riders = [
        riders.flusher,
        riders.first_writer,
        riders.second_writer,
        riders.cleaner,
    ];
    match report {
        Ok(report) => Ok(CrewEnd {
            riders,
            writers: [first, second],
            written: report.written,
            failed: report.failed,
            strangers: report.strangers,
            limits: report.limits(),
        }),
        Err(fault) => Err((fault, riders, first, second)),
    }
}

impl<L: Realm, W> Crew<L, W> {
    /// Serves a domain until the stop is given, as [`run_crew`] does for a number of turns: but each writer takes its
    /// pages itself, copies, writes and answers them, so no acknowledgement is a stranger. It sleeps while there is
    /// nothing to do. Once all threads have ended, the calling thread makes at most 1,000 rounds, of a turn of the
    /// flusher and all looks of the others, up to the first in which the flusher got nowhere or failed: so it ends once
    /// nothing is in flight. If the journal is full, it cuts it where the duty lets it; else a full journal ends it
    /// before its stop. The crew comes back, whatever it met. Its report has the duty's limits, within which all threads
    /// did their work, and counts what they counted. Of what the riders stored, and of the steps of their calls, the
    /// same holds as there; and by a duty that never cuts they cut no step, if they hadn't. If they had flushed nothing,
    /// then each page that those which come back flushed is with the writer of that rider, as the image of the words that
    /// the rider copied between its take and its answer: at the domain's end it is an image of the page, by `hl_images`.
    /// Of a page whose write failed, or whose answer was refused, nothing is said. Where the crew is refused, each of its
    /// threads did all its work or nothing: so then, too, a page writer got only images of pages that its rider took.
    ///
    /// A thread that has entered a page may wake it by [`Stop::ring`]; a crew that nobody wakes looks at least
    /// every 160 milliseconds, and sooner after it had something to do.
    ///
    /// Faults: `Size` if the duty was checked for another number of frames, and then nothing is done; `OutOfMemory` if
    /// memory or a thread was refused. Steps that were made until then stay in the journal.
    pub fn serve<R, E, F, P, G>(
        self,
        rt: &R,
        alloc: Global,
        domain: &Domain<E, F, P, L>,
        gate: &G,
        duty: Duty,
        stop: &Stop,
    ) -> (Crew<L, W>, Result<CrewReport, Fault>)
    where
        R: Threads + Wait + Sync,
        E: Epochs + Drop + Send,
        F: Task + Send,
        P: Promise + Send,
        L: Send + Sync,
        W: PageWriter + Send,
        G: Gate + Sync,
        ensures size { duty.frames ≢ domain.now.sizes.frames → result ≡ (self, Err Size) }
        ensures memory { duty.frames ≡ domain.now.sizes.frames
            → IfErr result.1 (λ fault. fault ≡ OutOfMemory) }
        ensures limits { IfOk result.1 (λ report. report.limits ≡ duty_limits duty) }
        ensures works { IfOk result.1 (λ report. HasWorked F domain.now (duty_limits duty) (G.lets gate.now)
            (WritesPage W.has W.wrote) (FailsPage W.has W.failed) W.failures true
            self result.0 (counts_of report)) }
        ensures in_part { IfErr result.1 (λ _. HasWorkedInPart F domain.now (duty_limits duty)
            (G.lets gate.now) (WritesPage W.has W.wrote) (FailsPage W.has W.failed) W.failures true
            self result.0) }
        ensures kept { AreAsGiven W.has (duty_cuts duty.cut_above) true domain.now.sizes
            (riders_of self.riders) result.0 }
    {
        if duty.frames() != domain.params().frames() {
            return (self, Err(Fault::Size));
        }
        match CrewBuffers::open(alloc, domain) {
            Ok(buffers) => self.serve_with(rt, buffers, domain, gate, duty, stop),
            Err(fault) => (self, Err(fault)),
        }
    }

    /// Serves a domain as [`Crew::serve`] does, in these buffers: so it takes no memory but for its threads. For a caller
    /// whose other threads are to begin only once all memory was taken.
    ///
    /// Faults: `Size` if the duty was checked for another number of frames, and then nothing is done; `OutOfMemory` if a
    /// thread couldn't be made. Steps that were made until then stay in the journal.
    pub fn serve_with<R, E, F, P, G>(
        self,
        rt: &R,
        buffers: CrewBuffers<L>,
        domain: &Domain<E, F, P, L>,
        gate: &G,
        duty: Duty,
        stop: &Stop,
    ) -> (Crew<L, W>, Result<CrewReport, Fault>)
    where
        R: Threads + Wait + Sync,
        E: Epochs + Drop + Send,
        F: Task + Send,
        P: Promise + Send,
        L: Send + Sync,
        W: PageWriter + Send,
        G: Gate + Sync,
        ensures size { duty.frames ≢ domain.now.sizes.frames → result ≡ (self, Err Size) }
        ensures memory { duty.frames ≡ domain.now.sizes.frames
            → IfErr result.1 (λ fault. fault ≡ OutOfMemory) }
        ensures limits { IfOk result.1 (λ report. report.limits ≡ duty_limits duty) }
        ensures works { IfOk result.1 (λ report. HasWorked F domain.now (duty_limits duty) (G.lets gate.now)
            (WritesPage W.has W.wrote) (FailsPage W.has W.failed) W.failures true
            self result.0 (counts_of report)) }
        ensures in_part { IfErr result.1 (λ _. HasWorkedInPart F domain.now (duty_limits duty)
            (G.lets gate.now) (WritesPage W.has W.wrote) (FailsPage W.has W.failed) W.failures true
            self result.0) }
        ensures kept { AreAsGiven W.has (duty_cuts duty.cut_above) true domain.now.sizes
            (riders_of self.riders) result.0 }
    {
        if duty.frames() != domain.params().frames() {
            return (self, Err(Fault::Size));
        }
        let memory = CrewMemory {
            channels: None,
            buffers,
        };
        let limits = Limits::of(duty);
        let mode = Mode::Until(stop);
        self.run::<R, E, F, P, G, Brand>(rt, memory, domain, gate, limits, mode)
    }

    // Runs a crew in this memory, within these limits, in this mode. One that serves then makes its last turns. The name
    // says what its threads are given and do.
    fn run<R, E, F, P, G, K>(
        self,
        rt: &R,
        memory: CrewMemory<L>,
        domain: &Domain<E, F, P, L>,
        gate: &G,
        limits: Limits,
        mode: Mode<'_>,
    ) -> (Crew<L, W>, Result<CrewReport, Fault>)
    where
        R: Threads + Wait + Sync,
        E: Epochs + Drop + Send,
        F: Task + Send,
        P: Promise + Send,
        L: Send + Sync,
        W: PageWriter + Send,
        G: Gate + Sync,
        K: Given<W> + Send,
        requires lag { IsLag domain.now.sizes.frames limits.mutable limits.resident }
        requires channels { is_none memory.channels ≡ is_until mode }
        requires named { AreNamed F domain.now limits (G.lets gate.now) (WritesPage W.has W.wrote)
            (FailsPage W.has W.failed) W.failures (is_until mode)
            K.flusher K.first K.second K.cleaner (begun self) }
        ensures memory { IfErr result.1 (λ fault. fault ≡ OutOfMemory) }
        ensures limits { IfOk result.1 (λ report. report.limits ≡ limits) }
        ensures works { IfOk result.1 (λ report. HasWorked F domain.now limits (G.lets gate.now)
            (WritesPage W.has W.wrote) (FailsPage W.has W.failed) W.failures (is_until mode.entry)
            self result.0 (counts_of report)) }
        ensures in_part { IfErr result.1 (λ _. HasWorkedInPart F domain.now limits (G.lets gate.now)
            (WritesPage W.has W.wrote) (FailsPage W.has W.failed) W.failures (is_until mode.entry)
            self result.0) }
        ensures kept { AreAsGiven W.has limits.cuts (is_until mode.entry) domain.now.sizes
            (riders_of self.riders) result.0 }
    {
        let CrewMemory { channels, buffers } = memory;
        let run = Run {
            rt,
            domain,
            gate,
            mode,
            limits,
            channels,
            sleepers: Sleepers::new(),
            ended: EndFlag::new(),
            has_written: AtomicBool::new(false),
        };
        let seats = Seats::<L, W, K>::of(CrewState::of(self, buffers));
        // If not all threads were made, those that were are told to end, and the seats tell.
        let _ = run.run_threads(&seats);
        let (mut state, done) = seats.end();
        run.end_rounds(&mut state, done.all());
        let (crew, counts) = state.into_crew();
        (crew, CrewReport::of(done.all(), counts, limits))
    }
}
