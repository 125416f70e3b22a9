//! The drain list after a base and the steps since.

ghost use Rattle.std.specs.Prelude.{◌≡◌, ◌^◌, ◌<◌, ◌≤◌, [], length, count_by, get_or};
ghost use Rattle.std.specs.List.{cons_option};
ghost use Rattle.hl_model.specs.declared.action.Waiting.{Waiting};
ghost use Rattle.hl_model.specs.Actions.{stores, takes, finishes, is_finished};
ghost use Rattle.hl_model.specs.AfterActions.{stored_by, stored_after, waiting_after, ever_taken_after, taken_after};

use crate::epochs::epoch;
use crate::offsets::{head, read_only};
use arrayvec::ArrayVec;
use hl_laws::Base;
use hl_model::{Kind, Step, Waiting};

// Whether a step stores an action.
fn stores(step: &Step) -> bool
    ensures { result ≡ stores step.now }
{
    matches!(step, Step::Bump { .. } | Step::Settle | Step::Close)
}

// How many of the steps store an action.
fn stores_of(steps: &[Step]) -> usize
    ensures value { result ≡ count_by stores steps.now }
    ensures most { result ≤ length steps.now }
{
    steps.iter().filter(|step| stores(step)).count()
}

// How many actions were taken since.
#[tactic(auto, unfolding(hl_model::specs::Actions::takes))]
fn takes(steps: &[Step]) -> usize
    ensures value { result ≡ takes steps.now }
    ensures most { result ≤ length steps.now }
{
    steps
        .iter()
        .filter(|step| matches!(step, Step::Take))
        .count()
}

// Whether a step says that the action of this ticket is done.
fn finishes(ticket: u64, step: &Step) -> bool
    ensures { result ≡ finishes ticket step.now }
{
    match *step {
        Step::Done { ticket: named } => named == ticket,
        _ => false,
    }
}

/// Whether the action of this ticket was done since.
#[tactic(auto, unfolding(hl_model::specs::Actions::is_finished))]
pub fn is_finished(ticket: u64, steps: &[Step]) -> bool
    ensures { result ≡ is_finished ticket steps.now }
{
    steps.iter().any(|step| finishes(ticket, step))
}

// The action that a step stores, told the base and the steps before it.
fn stored_by(base: &Base, before: &[Step], step: &Step) -> Option<Waiting>
    requires { base.now.epoch ≤ 2 ^ 62 }
    ensures { cons_option result [] ≡ stored_by base.now before.now step.now }
{
    let kind = match *step {
        Step::Bump { tag } => Kind::User(tag),
        Step::Settle => Kind::Settle(read_only(base, before)),
        Step::Close => Kind::Close(head(base, before)),
        _ => return None,
    };
    Some(Waiting {
        ticket: epoch(base, before),
        kind,
    })
}

// How many actions were pending in the base or are stored since.
#[tactic(auto, using(crate::proofs::StoredLaws::stored_length))]
fn stored(base: &Base, steps: &[Step]) -> usize
    ensures { result ≡ length (stored_after base.now steps.now) }
{
    base.waiting().len() + stores_of(steps)
}

// The i-th of them, counted from 0.
fn stored_at(base: &Base, steps: &[Step], i: usize) -> Waiting
    requires epoch { base.now.epoch ≤ 2 ^ 62 }
    requires within { i < length (stored_after base.now steps.now) }
    ensures { (w : Waiting) → result ≡ get_or (stored_after base.now steps.now) i w }
{
    let waiting = base.waiting();
    if i < waiting.len() {
        return waiting[i];
    }
    let behind = i - waiting.len();
    let mut count = 0;
    for (k, step) in steps.iter().enumerate() {
        if count == behind {
            if let Some(action) = stored_by(base, &steps[..k], step) {
                return action;
            }
        }
        if stores(step) {
            count += 1;
        }
    }
    unreachable!()
}

/// How many actions were taken, and not done in the base.
#[tactic(auto, using(crate::proofs::StoredLaws::ever_taken_length))]
pub fn ever_taken(base: &Base, steps: &[Step]) -> usize
    ensures { result ≡ length (ever_taken_after base.now steps.now) }
{
    base.taken().len() + takes(steps).min(stored(base, steps))
}

/// The i-th of them, counted from 0.
pub fn ever_taken_at(base: &Base, steps: &[Step], i: usize) -> Waiting
    requires epoch { base.now.epoch ≤ 2 ^ 62 }
    requires within { i < length (ever_taken_after base.now steps.now) }
    ensures { (w : Waiting) → result ≡ get_or (ever_taken_after base.now steps.now) i w }
{
    let taken = base.taken();
    if i < taken.len() {
        taken[i]
    } else {
        stored_at(base, steps, i - taken.len())
    }
}

/// The pending actions, oldest first, of which there are at most 64.
pub fn waiting(base: &Base, steps: &[Step]) -> ArrayVec<Waiting, 64>
    requires epoch { base.now.epoch ≤ 2 ^ 62 }
    requires most { length (waiting_after base.now steps.now) ≤ 64 }
    ensures { result.items ≡ waiting_after base.now steps.now }
{
    let taken = takes(steps);
    let mut row = ArrayVec::new();
    for i in taken..stored(base, steps) {
        row.push(stored_at(base, steps, i));
    }
    row
}

/// The actions taken and not done, oldest first, of which there are at most 64.
pub fn taken(base: &Base, steps: &[Step]) -> ArrayVec<Waiting, 64>
    requires epoch { base.now.epoch ≤ 2 ^ 62 }
    requires most { length (taken_after base.now steps.now) ≤ 64 }
    ensures { result.items ≡ taken_after base.now steps.now }
{
    let mut row = ArrayVec::new();
    for i in 0..ever_taken(base, steps) {
        let action = ever_taken_at(base, steps, i);
        if !is_finished(action.ticket, steps) {
            row.push(action);
        }
    }
    row
}
