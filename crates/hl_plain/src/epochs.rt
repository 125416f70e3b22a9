//! Epochs after a base and the steps since.

ghost use Rattle.std.specs.Prelude.{◌≡◌, ◌^◌, ◌≤◌, length, count_by};
ghost use Rattle.hl_model.specs.Epochs.{is_bump, enters, leaves, mark, is_protected};
ghost use Rattle.hl_model.specs.AfterEpochs.{epoch_after, has_moved};

use crate::lists::until_last;
use hl_laws::Base;
use hl_model::Step;

// Whether a step raises the current epoch.
fn is_bump(step: &Step) -> bool
    ensures { result ≡ is_bump step.now }
{
    matches!(
        step,
        Step::Bump { .. } | Step::Settle | Step::Close | Step::Bare
    )
}

// How many bumps there were.
fn bumps(steps: &[Step]) -> u64
    ensures value { result ≡ count_by is_bump steps.now }
    ensures most { result ≤ length steps.now }
{
    steps.iter().filter(|step| is_bump(step)).count() as u64
}

/// The current epoch: the base's, and one more for each bump.
#[tactic(auto, unfolding(hl_model::specs::AfterEpochs::epoch_after))]
pub fn epoch(base: &Base, steps: &[Step]) -> u64
    requires { base.now.epoch ≤ 2 ^ 62 }
    ensures { result ≡ epoch_after base.now steps.now }
{
    base.epoch() + bumps(steps)
}

// Whether at a step the thread of slot t takes the current epoch for its own.
fn enters(t: u64, step: &Step) -> bool
    ensures { result ≡ enters t step.now }
{
    match *step {
        Step::Acquire { t: slot } | Step::Refresh { t: slot } => slot == t,
        _ => false,
    }
}

// Whether at a step the thread of slot t ceases to be protected.
fn leaves(t: u64, step: &Step) -> bool
    ensures { result ≡ leaves t step.now }
{
    match *step {
        Step::Release { t: slot } => slot == t,
        _ => false,
    }
}

/// Whether slot t was acquired, refreshed or released in the steps.
#[tactic(auto, unfolding(hl_model::specs::AfterEpochs::has_moved))]
pub fn has_moved(t: u64, steps: &[Step]) -> bool
    ensures { result ≡ has_moved t steps.now }
{
    steps.iter().any(|step| enters(t, step) || leaves(t, step))
}

/// How many steps lead up to slot t's last acquire or refresh, that one counted.
#[tactic(auto, unfolding(hl_model::specs::Epochs::mark))]
pub fn mark(t: u64, steps: &[Step]) -> usize
    ensures place { result ≡ mark t steps.now }
    ensures within { result ≤ length steps.now }
{
    until_last(steps, |step| enters(t, step))
}

/// Whether slot t is protected by the steps: its last acquire, refresh or release is there, and is no
/// release.
#[tactic(auto, unfolding(hl_model::specs::Epochs::is_protected))]
pub fn is_protected(t: u64, steps: &[Step]) -> bool
    ensures { result ≡ is_protected t steps.now }
{
    until_last(steps, |step| leaves(t, step)) < mark(t, steps)
}
