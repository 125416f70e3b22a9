//! The offsets that done actions settle, after a base and the steps since.

ghost use Rattle.std.specs.Prelude.{◌≡◌, ◌^◌, ◌≤◌, ℕ};
ghost use Rattle.hl_model.specs.Settled.{settles, closes};
ghost use Rattle.hl_model.specs.AfterActions.{done_greatest_after, safe_read_only_after, closed_after};
ghost use Rattle.hl_model.specs.declared.action.Kind.{Kind};

use crate::actions::{ever_taken, ever_taken_at, is_finished};
use hl_laws::Base;
use hl_model::{Kind, Step};

// The read-only offset that a settle stored, or 0.
fn settles(kind: Kind) -> u64
    ensures { result ≡ settles kind }
{
    match kind {
        Kind::Settle(x) => x,
        _ => 0,
    }
}

// The head that a close stored, or 0.
fn closes(kind: Kind) -> u64
    ensures { result ≡ closes kind }
{
    match kind {
        Kind::Close(x) => x,
        _ => 0,
    }
}

// The greatest address that the actions done since had stored, or 0.
fn done_greatest<F: Fn(Kind) -> u64>(stored: F, base: &Base, steps: &[Step]) -> u64
    requires stored { F.IsAlwaysCallable stored }
    requires epoch { base.now.epoch ≤ 2 ^ 62 }
    ensures { (s : Kind → ℕ)
        → ((k : Kind) (x : ℕ) → F.post stored k x → x ≡ s k)
        → result ≡ done_greatest_after s base.now steps.now }
{
    let mut most = 0;
    for i in 0..ever_taken(base, steps) {
        let action = ever_taken_at(base, steps, i);
        if is_finished(action.ticket, steps) {
            most = most.max(stored(action.kind));
        }
    }
    most
}

/// The safe read-only offset.
#[tactic(auto, unfolding(hl_model::specs::AfterActions::safe_read_only_after))]
pub fn safe_read_only(base: &Base, steps: &[Step]) -> u64
    requires { base.now.epoch ≤ 2 ^ 62 }
    ensures { result ≡ safe_read_only_after base.now steps.now }
{
    base.six()
        .safe_read_only
        .max(done_greatest(settles, base, steps))
}

/// The closed offset.
#[tactic(auto, unfolding(hl_model::specs::AfterActions::closed_after))]
pub fn closed(base: &Base, steps: &[Step]) -> u64
    requires { base.now.epoch ≤ 2 ^ 62 }
    ensures { result ≡ closed_after base.now steps.now }
{
    base.six().closed.max(done_greatest(closes, base, steps))
}
