//! A log that threads use beside a crew, and one session more, opened and closed by one call, with one result.
ghost use Rattle.std.specs.Prelude.{◌≡◌, ◌++◌, ◌+◌, ◌*◌, ◌∷◌, ◌<◌, ◌≤◌, ◌&&◌, nat_le, nat_lt, if◌then◌else◌, [], length, slice_index, map, vec_len, vec_capacity, true, false, Some, None, Ok, Err, is_some, IfOk, MatchResult};
ghost use Rattle.hl_model.specs.declared.fault.Fault.TheVariants.{OutOfMemory, Size};
ghost use Rattle.hl_keeper.specs.Passes.{cell_at};
ghost use Rattle.hl_words.specs.States.{IsSeedOf, new_riders, RiderState};
ghost use Rattle.hl_traces.specs.Traces.{RiderTraces};
ghost use Rattle.hl_crew.specs.Limited.{duty_cuts};
ghost use Rattle.hl_crew.specs.Riders.{riders_of};
ghost use Rattle.hl.specs.Closings.{Tells, TellsCrew};
ghost use Rattle.hl.specs.Configs.{all_fit, behind, cuts_of, opening_of, sizes_of_config};
ghost use Rattle.hl.specs.Flushes.{flush_rounds, keeps_any, FlushesLog};
ghost use Rattle.hl.specs.LastSession.{answer_of_flusher, as_told, flushed_by, one_or_none, rider_of, AreFinished, Finishing, HasFailed, IsFinish, IsFirstFault, IsNoFinish, IsUnfinished};
ghost use Rattle.hl.specs.Openings.{opened_as, IsInRange};
ghost use Rattle.hl.specs.Sessions.{without_crew};
ghost use Rattle.hl.specs.Threads.{FinishedTrace};

use crate::at_end::FlushTold;
use crate::config::Config;
use crate::log::Log;
use crate::opening::Opening;
use crate::outcome::Finished;
use crate::refused::Refused;
use crate::rows::LastRows;
use crate::session::{Beside, Session};
use crate::shared::{Outs, Returned, Shared};
use crate::work::Work;
use hl_action::{AnyAnswer, NoJob, Task};
use hl_crew::CrewReport;
use hl_domain::Ending;
use hl_model::{Fault, Six, Sizes, cell_of};
use hl_words::{Realm, Rider, Seed};
use std::alloc::Global;
use std::marker::Brand;
use std::sync::Wait;
use std::thread::Threads;

// What the session that flushed a log at its end was answered, and its rider.
type Flusher<L> = (Result<u64, Fault>, Rider<L>);

/// Opens a log, runs its threads beside a crew as [`with_threads`](crate::with_threads) does, has the whole log flushed once
/// they have ended, if that is wanted, calls `Work::finish`, and closes the log. What they returned comes back with the ending, in one result.
///
/// All that the threads and `finish` did is one trace, as [`with_threads`](crate::with_threads) says, in which the acts of
/// `finish` stand under the number behind those of the threads (`FinishedTrace`), and those of the flush under the next: it
/// places the rest of the last page, and stores nothing. **With [`Config::flush_at_end`] the device has the log**: if
/// `flushed` is `Ok`, it has each page up to the tail, with the words that the trace leaves there, and so each record.
///
/// Faults, the first of these: `Size` if a number of the configuration is out of its range, and nothing was done;
/// `OutOfMemory` if memory was refused, before the threads ran: all is taken before; the fault by which the first of
/// the threads that have no result was refused its session, or couldn't leave it (`JournalFull` at each of 1,001 tries,
/// with a cut between two); that of the session of the flush; and that of the session of `finish`. After a fault nothing is left of the log: if its ending
/// is wanted all the same, take `with_threads`.
pub fn run_threads<R: Threads + Wait + Sync, P: Work<R> + Sync>(
    rt: &R,
    alloc: Global,
    config: Config,
    work: &P,
) -> Result<Finished<P::Out, P::Job>, Fault>
    ensures size { all_fit config ≡ false → result ≡ Err Size }
    ensures finished { all_fit config ≡ true → MatchResult result
        (AreFinished P.Job (opening_of config) (cuts_of config) config.flush_at_end (P.returns work.now)
        (P.took work.now) (P.finishes work.now) (FlushesLog P.Job P.Job.gives keeps_any flush_rounds))
        (IsUnfinished P.Job (opening_of config) (cuts_of config) config.flush_at_end (P.returns work.now)
        (P.took work.now) (P.finishes work.now) (FlushesLog P.Job P.Job.gives keeps_any flush_rounds)) }
    ensures sizes { IfOk result (λ finished. finished.sizes ≡ sizes_of_config config) }
    ensures cells { IfOk result (λ finished.
        finished.ending.words.cells ≡ finished.sizes.frames * finished.sizes.page_size) }
    ensures flushed { IfOk result (λ finished. let six = finished.ending.snapshot.six in MatchResult finished.flushed
        (λ flushed. (flushed ≡ six.flushed) × (six.tail ≤ six.flushed)) (λ _. six.flushed < six.tail)) }
    ensures crew { IfOk result (λ finished. MatchResult finished.crew
        (λ report. (report.limits.mutable ≡ config.mutable) × (report.limits.resident ≡ config.resident)
        × (report.limits.cuts ≡ cuts_of config))
        (λ fault. fault ≡ OutOfMemory)) }
    ensures one { all_fit config ≡ true → IfOk result (FinishedTrace (sizes_of_config config) config.flush_at_end
        (P.returns work.now) (P.took work.now) (P.finishes work.now)) }
{
    let (opening, duty) = match config.checked() {
        Ok(both) => both,
        Err(fault) => return Err(fault),
    };
    let seed = match Seed::make(alloc, opening.params, opening.riders as usize) {
        Ok(seed) => seed,
        Err(fault) => return Err(fault),
    };
    let shared = Shared {
        rt,
        alloc,
        duty,
        work,
    };
    run_over::<Brand, R, P>(&shared, seed, opening, config.flush_at_end)
}

// The same over the words of a seed.
fn run_over<L: Realm + Send + Sync, R: Threads + Wait + Sync, P: Work<R> + Sync>(
    shared: &Shared<'_, R, P>,
    seed: Seed,
    opening: Opening<Sizes>,
    flush: bool,
) -> Result<Finished<P::Out, P::Job>, Fault>
    requires seed { IsSeedOf L.name L.parts L.table seed }
    requires sizes { (seed.sizes ≡ opening.params) × (seed.riders ≡ opening.riders) }
    requires named { (seed.sizes ≡ L.sizes) × (opening.stamp ≡ L.stamp) × (opening.journal ≡ L.limit) }
    requires range { IsInRange opening }
    requires enough { 4 + behind flush ≤ opening.riders }
    requires duty { shared.now.duty.frames ≡ opening.params.frames }
    requires cuts { is_some shared.now.duty.cut_above ≡ true }
    ensures crew { IfOk result (λ finished. TellsCrew shared.now.duty finished.crew) }
    ensures sizes { IfOk result (λ finished. finished.sizes ≡ opening.params) }
    ensures cells { IfOk result (λ finished.
        finished.ending.words.cells ≡ finished.sizes.frames * finished.sizes.page_size) }
    ensures flushed { IfOk result (λ finished. let six = finished.ending.snapshot.six in MatchResult finished.flushed
        (λ flushed. (flushed ≡ six.flushed) × (six.tail ≤ six.flushed)) (λ _. six.flushed < six.tail)) }
    ensures finished { MatchResult result
        (AreFinished P.Job opening (duty_cuts shared.now.duty.cut_above) flush (P.returns shared.now.work.now)
        (P.took shared.now.work.now) (P.finishes shared.now.work.now)
        (FlushesLog P.Job P.Job.gives keeps_any flush_rounds))
        (IsUnfinished P.Job opening (duty_cuts shared.now.duty.cut_above) flush (P.returns shared.now.work.now)
        (P.took shared.now.work.now) (P.finishes shared.now.work.now)
        (FlushesLog P.Job P.Job.gives keeps_any flush_rounds)) }
{
    let (log, riders) = match Log::<L, P::Job>::open(
        shared.alloc,
        seed,
        opening.journal,
        opening.stamp,
    ) {
        Ok(opened) => opened,
        Err(fault) => return Err(fault),
    };
    match LastRows::open(shared.alloc, &log, riders, flush) {
        Ok(rows) => run_in(shared, log, rows, opening, flush),
        Err(fault) => Err(fault),
    }
}

// The same in rows that are there: each result is told, whatever memory does.
fn run_in<L: Realm + Send + Sync, R: Threads + Wait + Sync, P: Work<R> + Sync>(
    shared: &Shared<'_, R, P>,
    log: Log<L, P::Job>,
    rows: LastRows<L, P::Out>,
    opening: Opening<Sizes>,
    flush: bool,
) -> Result<Finished<P::Out, P::Job>, Fault>
    requires log { log ≡ opened_as opening }
    requires all { (map (λ place. place.1) rows.rows.places.items
        ++ riders_of rows.rows.crew.riders) ++ rows.last ∷ one_or_none rows.flusher ≡ new_riders opening.riders }
    requires flusher { is_some rows.flusher ≡ flush }
    requires duty { shared.now.duty.frames ≡ opening.params.frames }
    requires cuts { is_some shared.now.duty.cut_above ≡ true }
    ensures crew { IfOk result (λ finished. TellsCrew shared.now.duty finished.crew) }
    ensures sizes { IfOk result (λ finished. finished.sizes ≡ opening.params) }
    ensures cells { IfOk result (λ finished.
        finished.ending.words.cells ≡ finished.sizes.frames * finished.sizes.page_size) }
    ensures flushed { IfOk result (λ finished. let six = finished.ending.snapshot.six in MatchResult finished.flushed
        (λ flushed. (flushed ≡ six.flushed) × (six.tail ≤ six.flushed)) (λ _. six.flushed < six.tail)) }
    ensures finished { MatchResult result
        (AreFinished P.Job opening (duty_cuts shared.now.duty.cut_above) flush (P.returns shared.now.work.now)
        (P.took shared.now.work.now) (P.finishes shared.now.work.now)
        (FlushesLog P.Job P.Job.gives keeps_any flush_rounds))
        (HasFailed P.Job opening (duty_cuts shared.now.duty.cut_above) flush (P.returns shared.now.work.now)
        (P.took shared.now.work.now) (P.finishes shared.now.work.now)
        (FlushesLog P.Job P.Job.gives keeps_any flush_rounds)) }
{
    let LastRows {
        rows,
        last,
        flusher,
        all,
    } = rows;
    let ((returned, _device), riders, told) = shared.run_and_flush(&log, rows, None, flusher);
    let Returned { outs, crew } = returned;
    let outs = match all_of(all, outs) {
        Ok(outs) => outs,
        Err(fault) => return Err(fault),
    };
    let flusher = match flusher_of(told) {
        Ok(flusher) => flusher,
        Err(fault) => return Err(fault),
    };
    let (answer, behind) = part_flusher(flusher);
    match finish_log(shared, log, riders, last, behind) {
        Ok((last, ending)) => Ok(Finished {
            outs,
            last,
            flushed: flushed_by(answer, &ending.snapshot.six),
            crew,
            ending,
            sizes: opening.params,
        }),
        Err(fault) => Err(fault),
    }
}

// What all threads returned, put into an empty row with room for it; or the first fault among their results.
fn all_of<T: Drop>(room: Vec<T>, outs: Outs<T>) -> Result<Vec<T>, Fault>
    requires empty { room.items ≡ [] }
    requires room { length outs.items ≤ vec_capacity room }
    ensures { MatchResult result (λ all. outs.items ≡ map (λ out. Ok out) all.items)
        (IsFirstFault outs.items) }
{
    let mut all = room;
    for out in outs {
        all.push_reserved(out?);
    }
    Ok(all)
}

// What the session that flushed the log was answered, and its rider, if there is one; or why it has no answer.
fn flusher_of<L: Realm>(told: Option<FlushTold<L>>) -> Result<Option<Flusher<L>>, Fault>
    ensures { MatchResult result (λ flusher. told ≡ as_told flusher)
        (λ fault. (rider : RiderState) × (told ≡ Some (Err fault, rider))) }
{
    match told {
        None => Ok(None),
        Some((Ok(answer), rider)) => Ok(Some((answer, rider))),
        Some((Err(fault), _rider)) => Err(fault),
    }
}

// Parts what it was answered from its rider.
fn part_flusher<L: Realm>(
    flusher: Option<Flusher<L>>,
) -> (Option<Result<u64, Fault>>, Option<Rider<L>>)
    ensures answer { result.0 ≡ answer_of_flusher flusher }
    ensures rider { result.1 ≡ rider_of flusher }
{
    match flusher {
        Some((answer, rider)) => (Some(answer), Some(rider)),
        None => (None, None),
    }
}

// How far the log was flushed at its close, or why not.
fn flushed_by(answer: Option<Result<u64, Fault>>, six: &Six) -> Result<u64, Fault>
    ensures { result ≡ flushed_by answer six.now }
{
    if six.tail <= six.flushed {
        return Ok(six.flushed);
    }
    match answer {
        Some(Err(fault)) => Err(fault),
        _ => Err(Fault::AboveFlushed),
    }
}

// Puts a rider behind the others, and another behind it, if there is one.
fn push_last<L: Realm>(riders: &mut Vec<Rider<L>>, last: Rider<L>, behind: Option<Rider<L>>)
    requires { vec_len riders.old + 1 < vec_capacity riders.old }
    ensures { riders.new.items ≡ riders.old.items ++ last ∷ one_or_none behind }
{
    riders.push_reserved(last);
    if let Some(rider) = behind {
        riders.push_reserved(rider);
    }
}

// Calls `Work::finish` in a session of this rider, and closes the log with it behind the others, where there is room, and
// behind it the one that flushed.
fn finish_log<L: Realm + Send + Sync, R: Wait, P: Work<R>>(
    shared: &Shared<'_, R, P>,
    log: Log<L, P::Job>,
    mut riders: Vec<Rider<L>>,
    last: Rider<L>,
    behind: Option<Rider<L>>,
) -> Result<(Option<P::Out>, Ending<P::Job, AnyAnswer>), Fault>
    requires all { length riders.items + 1 + length (one_or_none behind) ≡ log.riders }
    requires room { vec_len riders + 1 < vec_capacity riders }
    requires enters { RiderTraces log.sizes last }
    ensures closed { MatchResult result
        (λ left. IsFinish P.Job log (duty_cuts shared.now.duty.cut_above) (P.finishes shared.now.work.now)
        riders.items last (one_or_none behind) left.0 left.1)
        (IsNoFinish P.Job log (duty_cuts shared.now.duty.cut_above) (P.finishes shared.now.work.now) last) }
{
    let (done, rider) = finish_one(shared, &log, last);
    push_last(&mut riders, rider, behind);
    let last = match done {
        Ok(last) => last,
        Err(fault) => return Err(fault),
    };
    let Ok(ending) = log.close(riders) else {
        unreachable!()
    };
    Ok((last, ending))
}

// The session that finishes: it cuts the journal as the crew did, and is left by tries, since the duty of such a log
// cuts.
fn finish_one<L: Realm + Send + Sync, R: Wait, P: Work<R>>(
    shared: &Shared<'_, R, P>,
    log: &Log<L, P::Job>,
    rider: Rider<L>,
) -> (Result<Option<P::Out>, Fault>, Rider<L>)
    requires { RiderTraces log.now.sizes rider }
    ensures { Tells P.Job log.now (without_crew (duty_cuts shared.now.duty.cut_above)) true
        (Finishing (P.finishes shared.now.work.now)) rider result.1 result.0 }
{
    let beside = Beside::no_crew(shared.duty);
    let mut session = match Session::enter_beside(shared.rt, log, rider, beside) {
        Ok(session) => session,
        Err(Refused { fault, back }) => return (Err(fault), back),
    };
    let out = shared.work.finish(shared.rt, &mut session);
    // Of the session that `finish` left no more is known than its type, and that says which log it is of.
    session.log().known();
    log.known();
    match session.leave_by_tries(true) {
        Ok(rider) => (Ok(out), rider),
        Err(Refused { fault, back }) => (Err(fault), back.abandon()),
    }
}
