//! A log that threads use beside a crew, opened and closed by one call.
ghost use Rattle.std.specs.Prelude.{◌≡◌, ◌≤◌, true, false, is_some, Err, IsOk, IfOk, IfErr};
ghost use Rattle.hl_model.specs.declared.fault.Fault.TheVariants.{OutOfMemory, Size};
ghost use Rattle.hl_model.specs.Sizes.{AreInRange};
ghost use Rattle.hl_words.specs.States.{IsSeedOf};
ghost use Rattle.hl.specs.Openings.{of_sizes, opened_as, IsInRange};
ghost use Rattle.hl.specs.Crews.{can_run};
ghost use Rattle.hl.specs.Closings.{AreAllReturned, AreLeft, IsClosed, TellsCrew};
ghost use Rattle.hl.specs.Threads.{HaveOneTrace};

use crate::log::Log;
use crate::memory::MemoryDevice;
use crate::open::Closed;
use crate::opening::Opening;
use crate::rows::Rows;
use crate::shared::{Left, Returned, Shared};
use crate::work::Work;
use hl_crew::Duty;
use hl_model::{Fault, HasSizes, Sizes};
use hl_words::{Realm, Seed};
use std::alloc::Global;
use std::marker::Brand;
use std::sync::Wait;
use std::thread::Threads;

/// Opens a log, runs a thread for each rider but four, and a crew with those four, and closes the
/// log. Each thread is in a session while it works, and the crew serves until all have ended. A
/// rider whose thread can't be made works after another, in that one's thread.
///
/// All memory is taken before the first thread is made. So once threads have begun, results and ending are there,
/// whatever is refused: no rider is missing, and `ending` is `Ok`.
///
/// The places of `outs` are the threads' numbers: in `IsClosed` the threads' riders stand in their order before the crew's
/// four. Each place holds what that thread returned, and then its rider, new at
/// first, entered a session of this log that wakes the crew, was in it as `Work::returns` says, and left it. Or it holds
/// the fault by which the rider was refused its session, or the thread, once it had run, couldn't leave its own. So what
/// a thread's calls met and did is tied to the one list of the ending.
///
/// By a duty that cuts, a leave that finds the journal full is tried again, up to 1,000 times, each after a cut
/// ([`leave_by_tries`](crate::Session::leave_by_tries)): a thread loses its result only if the last try finds no room
/// either, as where others fill the journal each time. By another duty a leave is tried once, and cuts nothing.
///
/// If each thread returned a value, **all that the threads did is one trace** (`HaveOneTrace`): one
/// list of plain [`Act`](hl_traces::Act)s, of each thread just its own, in its order. Each load, and each change, found what
/// the newest store before it at that very address left, or 0; no two records share an address. At the end the words in
/// memory, from the closed offset to the tail, are what the list leaves there, and the device took the image of each page
/// below the flushed offset, with the words that the list leaves.
///
/// If a rider's thread can't be made, it works after another. If one of the crew's can't, the riders work without a crew,
/// and `crew` is `OutOfMemory`; if that is the thread from which the crew makes the others, it serves after the riders. A
/// rider that waits for a frame then waits for good.
///
/// Faults: `Size` if the opening is out of range, has fewer than four riders, or another number of
/// frames than the duty was checked for; `OutOfMemory` if memory was refused, before the threads ran.
pub fn with_threads<R: Threads + Wait + Sync, P: Work<R> + Sync, S: HasSizes>(
    rt: &R,
    alloc: Global,
    opening: Opening<S>,
    duty: Duty,
    work: &P,
) -> Result<Closed<Returned<P::Out>, P::Job>, Fault>
    ensures size { can_run (of_sizes S.sizes_of opening) duty ≡ false → result ≡ Err Size }
    ensures memory { can_run (of_sizes S.sizes_of opening) duty ≡ true
        → IfErr result (λ fault. fault ≡ OutOfMemory) }
    ensures closed { let o = of_sizes S.sizes_of opening
        in IfOk result (IsClosed o (AreAllReturned P.Job (opened_as o) (is_some duty.cut_above)
        (P.returns work.now) (P.took work.now))) }
    ensures stands { IfOk result (λ closed. IsOk closed.ending) }
    ensures crew { IfOk result (λ closed. TellsCrew duty closed.out.crew) }
    ensures one { IfOk result (λ closed. HaveOneTrace P.Job (S.sizes_of opening.params)
        (P.returns work.now) (P.took work.now) closed.out.outs closed.ending) }
{
    let shared = Shared {
        rt,
        alloc,
        duty,
        work,
    };
    let Closed { out, ending } = shared.run(opening.of_sizes(), None)?;
    Ok(Closed { out: out.0, ending })
}

impl<R: Threads + Wait + Sync, P: Work<R> + Sync> Shared<'_, R, P> {
    /// Opens a log, runs its threads and its crew, which writes its pages to this device, or else to that of the work,
    /// and closes the log.
    pub(crate) fn run(
        &self,
        opening: Opening<Sizes>,
        device: Option<MemoryDevice>,
    ) -> Result<Closed<Left<P::Out>, P::Job>, Fault>
        ensures size { can_run opening self.now.duty ≡ false → result ≡ Err Size }
        ensures memory { can_run opening self.now.duty ≡ true
            → IfErr result (λ fault. fault ≡ OutOfMemory) }
        ensures kind { IfOk result (λ closed. is_some closed.out.1 ≡ is_some device) }
        ensures crew { IfOk result (λ closed. TellsCrew self.now.duty closed.out.0.crew) }
        ensures closed { IfOk result (IsClosed opening (AreLeft P.Job (opened_as opening)
            (is_some self.now.duty.cut_above) (P.returns self.now.work.now) (P.took self.now.work.now)
            opening.riders)) }
        ensures sizes { AreInRange opening.params }
    {
        if !has_room(&opening, self.duty) {
            return Err(Fault::Size);
        }
        let seed = Seed::make(self.alloc, opening.params, opening.riders as usize)?;
        self.run_over::<Brand>(seed, opening, device)
    }

    // The same over the words of a seed.
    fn run_over<L: Realm + Send + Sync>(
        &self,
        seed: Seed,
        opening: Opening<Sizes>,
        device: Option<MemoryDevice>,
    ) -> Result<Closed<Left<P::Out>, P::Job>, Fault>
        requires seed { IsSeedOf L.name L.parts L.table seed }
        requires sizes { (seed.sizes ≡ opening.params) × (seed.riders ≡ opening.riders) }
        requires named { (seed.sizes ≡ L.sizes) × (opening.stamp ≡ L.stamp) × (opening.journal ≡ L.limit) }
        requires range { IsInRange opening }
        requires four { 4 ≤ opening.riders }
        requires duty { self.now.duty.frames ≡ opening.params.frames }
        ensures memory { IfErr result (λ fault. fault ≡ OutOfMemory) }
        ensures kind { IfOk result (λ closed. is_some closed.out.1 ≡ is_some device) }
        ensures crew { IfOk result (λ closed. TellsCrew self.now.duty closed.out.0.crew) }
        ensures closed { IfOk result (IsClosed opening (AreLeft P.Job (opened_as opening)
            (is_some self.now.duty.cut_above) (P.returns self.now.work.now) (P.took self.now.work.now)
            opening.riders)) }
    {
        let (log, riders) = Log::<L, P::Job>::open(
            self.alloc,
            seed,
            opening.journal,
            opening.stamp,
        )?;
        let rows = Rows::open(self.alloc, &log, riders)?;
        let (out, riders) = self.run_all(&log, rows, device);
        let ending = match log.close(riders) {
            Ok(ending) => Ok(ending),
            Err((fault, _log, _riders)) => Err(fault),
        };
        Ok(Closed { out, ending })
    }
}

// Whether the opening is in range, has riders for the crew, and as many frames as its duty was checked for.
#[tactic(auto, unfolding(crate::specs::Crews::can_run))]
fn has_room(opening: &Opening<Sizes>, duty: Duty) -> bool
    ensures value { result ≡ can_run opening.now duty }
    ensures range { result ≡ true → IsInRange opening.now }
    ensures four { result ≡ true → 4 ≤ opening.now.riders }
    ensures duty { result ≡ true → duty.frames ≡ opening.now.params.frames }
    ensures sizes { AreInRange opening.now.params }
{
    let frames = opening.params.frames();
    opening.is_in_range() && 4 <= opening.riders && duty.frames() == frames
}
