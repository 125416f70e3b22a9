//! The offsets that steps move, after a base and the steps since.

ghost use Rattle.std.specs.Prelude.{◌≡◌, ◌+◌, ◌^◌, ◌≤◌};
ghost use Rattle.hl_plain.specs.Bounds.{TailFits};
ghost use Rattle.hl_model.specs.Offsets.{raised_to, shifted_to, place_of, tail_past};
ghost use Rattle.hl_model.specs.AfterOffsets.{read_only_after, head_after, tail_after};

use hl_laws::Base;
use hl_model::{Sizes, Step};

// The address to which a step raises the read-only offset, or 0.
fn raised_to(step: &Step) -> u64
    ensures { result ≡ raised_to step.now }
{
    match *step {
        Step::Raise { x } => x,
        _ => 0,
    }
}

// The address to which a step shifts the head, or 0.
fn shifted_to(step: &Step) -> u64
    ensures { result ≡ shifted_to step.now }
{
    match *step {
        Step::Shift { x } => x,
        _ => 0,
    }
}

/// The read-only offset: the greatest of the base's and each address raised to.
#[tactic(auto, unfolding(hl_model::specs::AfterOffsets::read_only_after), using(crate::proofs::FoldLaws::greatest_from))]
pub fn read_only(base: &Base, steps: &[Step]) -> u64
    ensures { result ≡ read_only_after base.now steps.now }
{
    let begun = base.six().read_only;
    steps
        .iter()
        .fold(begun, |most, step| most.max(raised_to(step)))
}

/// The head, likewise.
#[tactic(auto, unfolding(hl_model::specs::AfterOffsets::head_after), using(crate::proofs::FoldLaws::greatest_from))]
pub fn head(base: &Base, steps: &[Step]) -> u64
    ensures { result ≡ head_after base.now steps.now }
{
    let begun = base.six().head;
    steps
        .iter()
        .fold(begun, |most, step| most.max(shifted_to(step)))
}

/// Where a record of n words is placed, told the tail. The tail and the record are within the space.
pub fn place_of(params: Sizes, tail: u64, n: u64) -> u64
    requires tail { tail ≤ 2 ^ 48 }
    requires words { n ≤ 2 ^ 48 }
    ensures { result ≡ place_of params.page_size tail n }
{
    let page_size = params.page_size();
    if tail % page_size + n <= page_size {
        tail
    } else {
        (tail / page_size + 1) * page_size
    }
}

// The tail after a step, told the tail before it; neither is above the space.
fn tail_past(params: Sizes, tail: u64, step: &Step) -> u64
    requires { tail_past params.page_size tail step.now ≤ 2 ^ 48 }
    ensures { result ≡ tail_past params.page_size tail step.now }
{
    match *step {
        Step::Allocate { n, .. } => place_of(params, tail, n) + n,
        _ => tail,
    }
}

/// The tail, which is within the space: the end of the last record, or the base's tail.
pub fn tail(base: &Base, steps: &[Step]) -> u64
    requires { TailFits base.now steps.now }
    ensures { result ≡ tail_after base.now steps.now }
{
    let params = base.params();
    let mut end = base.six().tail;
    for step in steps {
        end = tail_past(params, end, step);
    }
    end
}
