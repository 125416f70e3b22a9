//! What each frame holds, after a base and the steps since.

ghost use Rattle.std.specs.Prelude.{◌≡◌, ◌*◌, ◌^◌, ◌<◌, ◌≤◌, IfSome, List, map};
ghost use Rattle.hl_model.specs.declared.step.Step.{Step};
ghost use Rattle.hl_model.specs.AfterOffsets.{tail_after};
ghost use Rattle.hl_model.specs.AfterPages.{marks_after, flushing_after, cleaning_after, last_entered_after, marked_after};
ghost use Rattle.hl_plain.specs.Works.{as_mark};

use crate::pages::{Mark, Work};
use hl_laws::Base;
use hl_model::{Held, Step};

/// The greatest entered page of frame f, if there is one, told the tail. The pages of a frame are as far
/// apart as there are frames, so it is as far before the last entered page as that one is past f, but for
/// whole rounds.
pub fn last_entered(base: &Base, tail: u64, f: u64) -> Option<u64>
    requires page_size { 0 < base.now.sizes.page_size }
    requires frame { f < base.now.sizes.frames }
    requires tail { tail ≤ 2 ^ 48 }
    ensures page { (L : List Step) → tail ≡ tail_after base.now L → result ≡ last_entered_after base.now f L }
    ensures within { IfSome result (λ p. p * base.now.sizes.page_size < 2 ^ 48) }
{
    let params = base.params();
    let last = tail.checked_sub(1)? / params.page_size();
    let back = last.checked_sub(f)? % params.frames();
    Some(last - back)
}

/// A page with its marks, told the marks of the steps.
pub fn marked(base: &Base, steps: &[Step], flushes: &[Mark], cleans: &[Mark], page: u64) -> Held
    requires flushes { map as_mark flushes.now ≡ marks_after (flushing_after base.now) steps.now }
    requires cleans { map as_mark cleans.now ≡ marks_after (cleaning_after base.now) steps.now }
    ensures { result ≡ marked_after base.now steps.now page }
{
    Held {
        page,
        flushed: Work::Flushing.is_complete(base, page, steps),
        in_flight: Work::Flushing.is_out(base, page, flushes),
        freed: Work::Cleaning.is_complete(base, page, steps),
        cleaning: Work::Cleaning.is_out(base, page, cleans),
    }
}
