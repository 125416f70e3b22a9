//! The flushed offset, after a base and the steps since.

ghost use Rattle.std.specs.Prelude.{◌≡◌, ◌^◌, ◌≤◌, nat_lt};
ghost use Rattle.std.specs.List.{list_any};
ghost use Rattle.hl_model.specs.Pages.{flushes_below};
ghost use Rattle.hl_model.specs.AfterPages.{flushed_run_after, flushed_after};
ghost use Rattle.hl_plain.specs.Works.{run_end, runs_at};

use crate::pages::Work;
use hl_laws::Base;
use hl_model::{Step, TAIL_MOST};

// Whether a step flushes page p or one above it.
fn flushes_from(p: u64, step: &Step) -> bool
    ensures { result ≡ nat_lt p (flushes_below step.now) }
{
    match *step {
        Step::FlushDone { page, ok } => ok && p <= page,
        _ => false,
    }
}

// Whether page p or one above it is flushed by the steps.
fn is_flushed_from(p: u64, steps: &[Step]) -> bool
    ensures { result ≡ list_any (λ s. nat_lt p (flushes_below s)) steps.now }
{
    steps.iter().any(|step| flushes_from(p, step))
}

// Whether page p is not beyond the base's tail and the greatest page flushed since: no page beyond is
// flushed.
fn may_be_flushed(base: &Base, p: u64, steps: &[Step]) -> bool
    ensures { result ≡ nat_lt p (run_end base.now steps.now) }
{
    p < base.six().tail / base.params().page_size() + 1 || is_flushed_from(p, steps)
}

// Whether page p is not beyond these, and is flushed.
fn runs_at(base: &Base, p: u64, steps: &[Step]) -> bool
    ensures { result ≡ runs_at base.now steps.now p }
{
    may_be_flushed(base, p, steps) && Work::Flushing.is_complete(base, p, steps)
}

// How many pages 0, 1, 2 and so on are flushed, none left out. The pages below the base's flushed offset are
// flushed in the base, so the first that isn't flushed is looked for from there on.
fn flushed_run(base: &Base, steps: &[Step]) -> u64
    requires least { base.now.six.flushed ≤ flushed_after base.now steps.now }
    requires most { flushed_after base.now steps.now ≤ 2 ^ 48 }
    ensures { result ≡ flushed_run_after base.now steps.now }
{
    let page_size = base.params().page_size();
    let begun = base.six().flushed / page_size;
    let pages = TAIL_MOST / page_size;
    for p in begun..pages {
        if !runs_at(base, p, steps) {
            return p;
        }
    }
    pages
}

/// The flushed offset, which is within the space, and not below the base's.
pub fn flushed(base: &Base, steps: &[Step]) -> u64
    requires least { base.now.six.flushed ≤ flushed_after base.now steps.now }
    requires most { flushed_after base.now steps.now ≤ 2 ^ 48 }
    ensures { result ≡ flushed_after base.now steps.now }
{
    base.params().page_size() * flushed_run(base, steps)
}
