//! What a protected slot has, after a base and the steps since.

ghost use Rattle.std.specs.Prelude.{◌≡◌, ◌^◌, ◌≤◌};
ghost use Rattle.std.specs.List.{list_any};
ghost use Rattle.hl_plain.specs.Bounds.{TailFits};
ghost use Rattle.hl_model.specs.Bases.{slot_in};
ghost use Rattle.hl_model.specs.Epochs.{up_to_mark};
ghost use Rattle.hl_model.specs.Views.{allocates, looked_read_only, looked_head, since_mark};
ghost use Rattle.hl_model.specs.AfterViews.{present_after, own_tail, seen_since, slot_after};

use crate::epochs::{epoch, has_moved, is_protected, mark};
use crate::lists::until_last;
use crate::offsets::{head, read_only, tail};
use hl_laws::Base;
use hl_model::{Slot, Step, View};

// Whether a step is an allocation of slot t.
fn allocates(t: u64, step: &Step) -> bool
    ensures { result ≡ allocates t step.now }
{
    match *step {
        Step::Allocate { t: slot, .. } => slot == t,
        _ => false,
    }
}

// The read-only offset that a look of slot t brings.
fn looked_read_only(t: u64, step: &Step) -> Option<u64>
    ensures { result ≡ looked_read_only t step.now }
{
    match *step {
        Step::Look {
            t: slot,
            read_only,
            ..
        } if slot == t => Some(read_only),
        _ => None,
    }
}

// The head that a look of slot t brings.
fn looked_head(t: u64, step: &Step) -> Option<u64>
    ensures { result ≡ looked_head t step.now }
{
    match *step {
        Step::Look { t: slot, head, .. } if slot == t => Some(head),
        _ => None,
    }
}

// The steps after slot t's mark.
#[tactic(auto, unfolding(hl_model::specs::Views::since_mark))]
fn since_mark(t: u64, steps: &[Step]) -> &[Step]
    ensures { result.now ≡ since_mark t steps.now }
{
    &steps[mark(t, steps)..]
}

// The steps up to slot t's mark.
#[tactic(auto, unfolding(hl_model::specs::Epochs::up_to_mark))]
fn up_to_mark(t: u64, steps: &[Step]) -> &[Step]
    ensures { result.now ≡ up_to_mark t steps.now }
{
    &steps[..mark(t, steps)]
}

// The offsets after the steps.
fn present(base: &Base, steps: &[Step]) -> View
    requires { TailFits base.now steps.now }
    ensures { result ≡ present_after base.now steps.now }
{
    View {
        read_only: read_only(base, steps),
        head: head(base, steps),
        tail: tail(base, steps),
    }
}

// Whether slot t allocated after its mark.
fn has_allocated(t: u64, steps: &[Step]) -> bool
    ensures { result ≡ list_any (allocates t) (since_mark t steps.now) }
{
    since_mark(t, steps).iter().any(|step| allocates(t, step))
}

// The tail up to slot t's own last allocation after its mark, or the one that it saw then, if there is none.
fn own_tail(base: &Base, t: u64, seen: u64, steps: &[Step]) -> u64
    requires { TailFits base.now steps.now }
    ensures { result ≡ own_tail base.now t seen steps.now }
{
    if has_allocated(t, steps) {
        let last = until_last(steps, |step| allocates(t, step));
        tail(base, &steps[..last])
    } else {
        seen
    }
}

// The view of slot t, told the view that it had at its mark: then its own looks and allocations.
#[tactic(auto, using(crate::proofs::FoldLaws::last_given_fold))]
fn seen_since(base: &Base, t: u64, view: View, steps: &[Step]) -> View
    requires { TailFits base.now steps.now }
    ensures { result ≡ seen_since base.now t view steps.now }
{
    let since = since_mark(t, steps);
    View {
        read_only: since.iter().fold(view.read_only, |seen, step| {
            looked_read_only(t, step).unwrap_or(seen)
        }),
        head: since.iter().fold(view.head, |seen, step| {
            looked_head(t, step).unwrap_or(seen)
        }),
        tail: own_tail(base, t, view.tail, steps),
    }
}

// What slot t has in a base.
fn slot_in(base: &Base, t: u64) -> Option<Slot>
    ensures { result ≡ slot_in base.now t }
{
    *base.slots().get(t as usize)?
}

/// Slot t's epoch and view, if it is protected: by its mark if it moved since the base, else as in the base,
/// but for its own looks and allocations.
#[tactic(auto, unfolding(hl_model::specs::AfterViews::slot_after))]
pub fn slot(base: &Base, t: u64, steps: &[Step]) -> Option<Slot>
    requires epoch { base.now.epoch ≤ 2 ^ 62 }
    requires tail { TailFits base.now steps.now }
    ensures { result ≡ slot_after base.now t steps.now }
{
    if !has_moved(t, steps) {
        let slot = slot_in(base, t)?;
        return Some(Slot {
            epoch: slot.epoch,
            view: seen_since(base, t, slot.view, steps),
        });
    }
    if !is_protected(t, steps) {
        return None;
    }
    let before = up_to_mark(t, steps);
    Some(Slot {
        epoch: epoch(base, before),
        view: seen_since(base, t, present(base, before), steps),
    })
}
