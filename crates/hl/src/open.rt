//! A log that is opened, used and closed by one call.
ghost use Rattle.std.specs.Prelude.{◌≡◌, true, false, Err, IfOk, IfErr};
ghost use Rattle.hl_model.specs.declared.fault.Fault.TheVariants.{OutOfMemory, Size};
ghost use Rattle.hl_words.specs.States.{IsSeedOf, new_riders};
ghost use Rattle.hl.specs.Openings.{can_open, of_sizes, IsInRange, opened_as, was_refused};
ghost use Rattle.hl.specs.Closings.{IsClosed};

use crate::log::Log;
use crate::opening::Opening;
use crate::part::Part;
use crate::refused::Refused;
use hl_action::{AnyAnswer, NoJob, Task};
use hl_domain::Ending;
use hl_model::{Fault, HasSizes, Sizes};
use hl_words::{Realm, Seed};
use std::alloc::Global;
use std::marker::Brand;

/// What a part left.
#[derive(Drop)]
pub struct Closed<T, F: Task = NoJob> {
    /// What it returned.
    pub out: T,
    /// What is left of its log; `Stranger` if a rider was missing: the log was then dropped as it
    /// was.
    pub ending: Result<Ending<F, AnyAnswer>, Fault>,
}

/// Opens a log, lets the part use it, and closes it.
///
/// Faults, with the part handed back: `Size` if the opening is out of range, `OutOfMemory` if
/// memory was refused.
pub fn with_log<R, P: Part<R>, S: HasSizes>(
    rt: &R,
    alloc: Global,
    opening: Opening<S>,
    part: P,
) -> Result<Closed<P::Out, P::Job>, Refused<P>>
    requires wants { let o = of_sizes S.sizes_of opening
        in P.wants part (opened_as o) (new_riders o.riders) }
    ensures size { can_open (of_sizes S.sizes_of opening) ≡ false
        → result ≡ Err (was_refused Size part) }
    ensures memory { can_open (of_sizes S.sizes_of opening) ≡ true
        → IfErr result (λ refused. refused ≡ was_refused OutOfMemory part) }
    ensures closed { IfOk result (IsClosed (of_sizes S.sizes_of opening) (P.leaves part)) }
{
    log_of_sizes(rt, alloc, opening.of_sizes(), part)
}

// The same, of wide sizes.
fn log_of_sizes<R, P: Part<R>>(
    rt: &R,
    alloc: Global,
    opening: Opening<Sizes>,
    part: P,
) -> Result<Closed<P::Out, P::Job>, Refused<P>>
    requires wants { P.wants part (opened_as opening) (new_riders opening.riders) }
    ensures size { can_open opening ≡ false → result ≡ Err (was_refused Size part) }
    ensures memory { can_open opening ≡ true
        → IfErr result (λ refused. refused ≡ was_refused OutOfMemory part) }
    ensures closed { IfOk result (IsClosed opening (P.leaves part)) }
{
    if !opening.is_in_range() {
        return Err(Refused {
            fault: Fault::Size,
            back: part,
        });
    }
    match Seed::make(alloc, opening.params, opening.riders as usize) {
        Ok(seed) => over::<Brand, R, P>(rt, alloc, seed, opening, part),
        Err(fault) => Err(Refused { fault, back: part }),
    }
}

// The same over the words of a seed.
fn over<L: Realm + Send + Sync, R, P: Part<R>>(
    rt: &R,
    alloc: Global,
    seed: Seed,
    opening: Opening<Sizes>,
    part: P,
) -> Result<Closed<P::Out, P::Job>, Refused<P>>
    requires seed { IsSeedOf L.name L.parts L.table seed }
    requires sizes { (seed.sizes ≡ opening.params) × (seed.riders ≡ opening.riders) }
    requires named { (seed.sizes ≡ L.sizes) × (opening.stamp ≡ L.stamp) × (opening.journal ≡ L.limit) }
    requires range { IsInRange opening }
    requires wants { P.wants part (opened_as opening) (new_riders opening.riders) }
    ensures memory { IfErr result (λ refused. refused ≡ was_refused OutOfMemory part) }
    ensures closed { IfOk result (IsClosed opening (P.leaves part)) }
{
    let (log, riders) = match Log::<L, P::Job>::open(alloc, seed, opening.journal, opening.stamp) {
        Ok(opened) => opened,
        Err(fault) => return Err(Refused { fault, back: part }),
    };
    let (out, riders) = part.run::<L>(rt, &log, riders);
    let ending = match log.close(riders) {
        Ok(ending) => Ok(ending),
        Err((fault, _log, _riders)) => Err(fault),
    };
    Ok(Closed { out, ending })
}
