//! A page's flush by two riders: one takes the page and answers it, the other copies it.
ghost use Rattle.std.specs.Prelude.{◌≡◌, ◌==◌, ◌++◌, [], ◌∷◌, IsTrue, ℕ, length, List, IfOk, OnOk, IfErr, OnErr};
ghost use Rattle.hl_model.specs.declared.step.Step.{Step as STEP};
ghost use Rattle.hl_model.specs.declared.step.Step.TheVariants.{FlushTake as FLUSH_TAKE, FlushDone as FLUSH_DONE};
ghost use Rattle.hl_model.specs.Pages.{flushed};
ghost use Rattle.hl_model.specs.Replies.{unless_fault};
ghost use Rattle.hl_words.specs.States.{RiderState, with_view};
ghost use Rattle.hl_words.specs.Views.{past_of, told};
ghost use Rattle.hl_keeper.specs.Calls.{without_back, unless_stranger, Makes, Ends};
ghost use Rattle.hl_keeper.specs.Pages.{first_cell, loaded_all, to_flush};
ghost use Rattle.hl_domain.specs.Domains.{call_of, MakesUnderLock};
ghost use Rattle.hl_images.specs.Later.{IsLater};
ghost use Rattle.hl_images.specs.Pairs.{HasTaken, HasCopiedTold, HaveFlushed, without_past};

use hl_action::{Promise, Task};
use hl_domain::{Domain, Epochs, Fault, Load, PageJob, Past, Realm, Rider};
use std::sync::Wait;

/// Takes the least sealed page that is neither flushed nor in flight, for another rider to copy. Returns the
/// page's load, and the past of this rider, to be told to the other.
///
/// Faults, those of a flush take: `JournalFull`, `NoneSealed`.
pub fn take_for_copier<E: Epochs + Drop, F: Task, P: Promise, L: Realm>(
    rt: &impl Wait,
    domain: &Domain<E, F, P, L>,
    flusher: &mut Rider<L>,
) -> Result<(Load, Past<L>), Fault>
    ensures met { let call = call_of FLUSH_TAKE flusher.old flusher.new
        in MakesUnderLock F domain.now call (without_past result) (λ old.
        Makes old FLUSH_TAKE (λ A. to_flush old.core.sizes old.stamp A)) }
    ensures past { IfOk result (λ taken. taken.1 ≡ past_of flusher.new.view) }
    ensures taken { IfOk result
        (λ taken. (list : List STEP) × HasTaken domain.now.sizes taken.0.page list flusher.new) }
{
    match domain.flush_take(rt, flusher) {
        Ok(load) => {
            let past = domain.past(flusher);
            Ok((load, past))
        }
        Err(fault) => Err(fault),
    }
}

/// Copies the words of a page that another rider took, into P places, after this rider is told the other's
/// past. Returns the past of this rider, to be told to the other.
///
/// `Stranger` if the page is of another domain; then nothing is copied.
pub fn copy_for_flusher<E: Epochs + Drop, F: Task, P: Promise, L: Realm>(
    domain: &Domain<E, F, P, L>,
    copier: &mut Rider<L>,
    job: PageJob,
    past: Past<L>,
    out: &mut [u64],
) -> Result<Past<L>, Fault>
    requires { length out.old ≡ domain.now.sizes.page_size }
    ensures answer { let stamp = domain.now.stamp
        in result ≡ unless_fault (unless_stranger (job.stamp == stamp) stamp) (past_of copier.new.view) }
    ensures loads { let old = copier.old
        in let first = first_cell domain.now.sizes job.page
        in OnOk result (copier.new ≡ with_view (loaded_all first out.new (told past old.view)) old) }
    ensures refused { OnErr result
        ((copier.new ≡ with_view (told past copier.old.view) copier.old) × (out.new ≡ out.old)) }
    ensures copied { OnOk result (HasCopiedTold domain.now.sizes job.page out.new past copier.new) }
{
    domain.tell_past(copier, past);
    match domain.copy_page(job, copier, out) {
        Ok(()) => Ok(domain.past(copier)),
        Err(fault) => Err(fault),
    }
}

/// Answers a page that this rider took and another copied: flushed, if its image was written, else it may be
/// taken again. This rider is told the copier's past before. If the page was written and the call is
/// accepted, the two have flushed the words that the other copied, which are an image of the page once the
/// domain is ended: [`flushed_by_two_is_imaged`](crate::laws::flushed_by_two_is_imaged).
///
/// Faults, with the load handed back: those of [`Domain::flush_done`].
pub fn answer_for_copier<E: Epochs + Drop, F: Task, P: Promise, L: Realm>(
    rt: &impl Wait,
    domain: &Domain<E, F, P, L>,
    flusher: &mut Rider<L>,
    load: Load,
    past: Past<L>,
    written: bool,
) -> Result<u64, (Fault, Load)>
    ensures met { let step = FLUSH_DONE load.page written
        in let old = with_view (told past flusher.old.view) flusher.old
        in MakesUnderLock F domain.now (call_of step old flusher.new) (without_back result)
        (λ old. Ends old load.stamp step (λ A. flushed old.core.sizes (A ++ step ∷ []))) }
    ensures flushed { let sizes = domain.now.sizes
        in (image : List ℕ) (list : List STEP) (taking telling copier : RiderState)
        → HasTaken sizes load.page list taking → IsLater taking flusher.old
        → HasCopiedTold sizes load.page image (past_of taking.view) telling → past ≡ past_of telling.view
        → IsLater telling copier → IsTrue written
        → OnOk result (HaveFlushed sizes load.page image flusher.new copier) }
    ensures refused { IfErr result (λ back. back.1 ≡ load) }
{
    domain.tell_past(flusher, past);
    domain.flush_done(rt, flusher, load, written)
}
