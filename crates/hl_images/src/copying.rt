//! A page's flush by one rider, from its take to its answer.
ghost use Rattle.std.specs.Prelude.{◌≡◌, ◌++◌, [], ◌∷◌, IsTrue, ℕ, length, List, IfOk, OnOk, IfErr, MatchResult};
ghost use Rattle.hl_model.specs.declared.step.Step.{Step as STEP};
ghost use Rattle.hl_model.specs.declared.step.Step.TheVariants.{FlushTake as FLUSH_TAKE, FlushDone as FLUSH_DONE};
ghost use Rattle.hl_model.specs.Pages.{flushed};
ghost use Rattle.hl_words.specs.States.{RiderState, with_view};
ghost use Rattle.hl_keeper.specs.Calls.{without_back, Makes, Ends};
ghost use Rattle.hl_keeper.specs.Pages.{first_cell, loaded_all, to_flush};
ghost use Rattle.hl_domain.specs.Domains.{call_of, MakesUnderLock};
ghost use Rattle.hl_images.specs.Flushes.{HasCopied, HasFlushed};
ghost use Rattle.hl_images.specs.Calls.{FlushesNext};

use hl_action::{Promise, Task};
use hl_domain::{Domain, Epochs, Fault, Load, Realm, Rider};
use std::sync::Wait;

/// Takes the least sealed page that is neither flushed nor in flight, and copies its words into P places, by
/// one rider. That the copy is an image of the page follows once this rider has answered the page as flushed:
/// see [`answer_copy`].
///
/// Faults: those of a flush take, `JournalFull` and `NoneSealed`; then nothing is copied.
pub fn copy_next<E: Epochs + Drop, F: Task, P: Promise, L: Realm>(
    rt: &impl Wait,
    domain: &Domain<E, F, P, L>,
    rider: &mut Rider<L>,
    out: &mut [u64],
) -> Result<Load, Fault>
    requires { length out.old ≡ domain.now.sizes.page_size }
    ensures met { let sizes = domain.now.sizes
        in (mid : RiderState)
        × MakesUnderLock F domain.now (call_of FLUSH_TAKE rider.old mid) result
        (λ old. Makes old FLUSH_TAKE (λ A. to_flush old.core.sizes old.stamp A))
        × MatchResult result
        (λ load. rider.new ≡ with_view (loaded_all (first_cell sizes load.page) out.new mid.view) mid)
        (λ _. (rider.new ≡ mid) × (out.new ≡ out.old)) }
    ensures copied { IfOk result
        (λ load. (list : List STEP) × HasCopied domain.now.sizes load.page out.new list rider.new) }
{
    match domain.flush_take(rt, rider) {
        Ok(load) => {
            // The page was taken from this domain, so its copy isn't refused.
            let Ok(()) = domain.copy_page(load.job(), rider, out) else {
                unreachable!()
            };
            Ok(load)
        }
        Err(fault) => Err(fault),
    }
}

/// Answers a page that this rider took and copied: flushed, if its image was written, else it may be taken
/// again. If it was written and the call is accepted, the rider has flushed the words that it copied, which
/// are an image of the page once the domain is ended: [`flushed_is_imaged`](crate::laws::flushed_is_imaged).
///
/// Faults, with the load handed back: those of [`Domain::flush_done`].
pub fn answer_copy<E: Epochs + Drop, F: Task, P: Promise, L: Realm>(
    rt: &impl Wait,
    domain: &Domain<E, F, P, L>,
    rider: &mut Rider<L>,
    load: Load,
    written: bool,
) -> Result<u64, (Fault, Load)>
    ensures met { let step = FLUSH_DONE load.page written
        in MakesUnderLock F domain.now (call_of step rider.old rider.new) (without_back result)
        (λ old. Ends old load.stamp step (λ A. flushed old.core.sizes (A ++ step ∷ []))) }
    ensures flushed { let sizes = domain.now.sizes
        in (image : List ℕ) (list : List STEP) → HasCopied sizes load.page image list rider.old
        → IsTrue written → OnOk result (HasFlushed sizes load.page image rider.new) }
    ensures refused { IfErr result (λ back. back.1 ≡ load) }
{
    domain.flush_done(rt, rider, load, written)
}

/// Takes the least sealed page that is neither flushed nor in flight, copies its words into P places, and
/// tells that it is flushed, by one rider: for a log whose device is this memory. Returns the page and the
/// flushed offset. The words are an image of the page once the domain is ended.
///
/// Faults: those of a flush take and of [`answer_copy`]; the latter with the page's load.
pub fn flush_next<E: Epochs + Drop, F: Task, P: Promise, L: Realm>(
    rt: &impl Wait,
    domain: &Domain<E, F, P, L>,
    rider: &mut Rider<L>,
    out: &mut [u64],
) -> Result<(u64, u64), (Fault, Option<Load>)>
    requires { length out.old ≡ domain.now.sizes.page_size }
    ensures met { FlushesNext F domain.now rider.old rider.new out.old out.new result }
    ensures flushed { IfOk result (λ flushed. HasFlushed domain.now.sizes flushed.0 out.new rider.new) }
{
    match copy_next(rt, domain, rider, out) {
        Ok(load) => {
            let page = load.job().page;
            match answer_copy(rt, domain, rider, load, true) {
                Ok(offset) => Ok((page, offset)),
                Err((fault, load)) => Err((fault, Some(load))),
            }
        }
        Err(fault) => Err((fault, None)),
    }
}
