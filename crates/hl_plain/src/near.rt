//! A base near the last steps, by which the steps behind it are answered.

ghost use Rattle.std.specs.Prelude.{◌≡◌, ◌∷◌, [], ◌++◌, ◌+◌, ◌<◌, ◌≤◌, ℕ, None, IfOk, IfErr, map, length, take, vec_len};
ghost use Rattle.std.specs.Vec.{vec_capacity};
ghost use Rattle.hl_model.specs.Bases.{Base as BaseRecord};
ghost use Rattle.hl_model.specs.Sizes.{AreNarrow};
ghost use Rattle.hl_model.specs.AfterReplies.{base_after, fault_at, answer_at};
ghost use Rattle.hl_plain.specs.declared.near.TheConstants.{FEW, REACH};
ghost use Rattle.hl_plain.specs.Kept.{entries_of, present_by, IsAt, IsNear};
ghost use Rattle.hl_plain.specs.Works.{as_mark, marks_in};

use crate::gathered::Gathered;
use crate::pages::{Mark, Work};
use crate::present::Present;
use crate::replies;
use hl_laws::Base;
use hl_model::{DRAIN_MOST, FRAMES_MOST, Fault, Reply, SLOTS_MOST, Step, with_room};
use std::alloc::Global;
use std::mem::swap;

/// Fewer steps than this lie behind a near base, and its rows of marks have room for so many. It is 384: as
/// many slots, frames and places for actions as narrow sizes allow, together.
pub const REACH: u64 = SLOTS_MOST + FRAMES_MOST + DRAIN_MOST;

// With so many steps behind it, a near base goes on to the base after them, unless few were accepted in all.
const FEW: usize = 16;

/// The base after the first of a list of steps, and the marks of pages that the steps behind it made.
#[derive(Drop)]
pub struct Near {
    base: Base,
    // So many of the steps lie before the base.
    since: usize,
    // Which pages the steps behind it took to flush and brought back, and the same of cleaning.
    flushes: Vec<Mark>,
    cleans: Vec<Mark>,
    // The next base is put here, while this one is looked at.
    spare: Base,
}

impl Near {
    /// Returns a base itself, before any step.
    ///
    /// `OutOfMemory` if memory was refused.
    pub fn at(alloc: Global, base: &Base) -> Result<Near, Fault>
        requires { AreNarrow base.now.sizes }
        ensures at { IfOk result (IsAt base.now []) }
        ensures near { IfOk result (IsNear []) }
        ensures err { IfErr result (λ fault. fault ≡ Fault.OutOfMemory) }
    {
        let flushes = with_room(alloc, REACH)?;
        let cleans = with_room(alloc, REACH)?;
        let spare = base.copied(alloc)?;
        let base = base.copied(alloc)?;
        Ok(Near {
            base,
            since: 0,
            flushes,
            cleans,
            spare,
        })
    }

    /// What is present after the steps.
    pub fn present<'a>(&'a self, steps: &'a [Step]) -> Present<'a>
        requires { IsNear steps.now self.now }
        ensures { result ≡ present_by self.now steps.now }
    {
        Present::after(
            &self.base,
            &steps[self.since..],
            &self.flushes,
            &self.cleans,
        )
    }

    /// Puts an accepted step behind the steps, which have room, and its marks behind theirs. Returns the
    /// reply to the step.
    pub fn accept(&mut self, steps: &mut Vec<Step>, step: &Step) -> Reply
        requires near { IsNear steps.old.items self.old }
        requires few { vec_len steps.old < self.old.since + REACH }
        requires accepted { fault_at (present_by self.old steps.old.items) step.now ≡ None }
        requires room { vec_len steps.old < vec_capacity steps.old }
        ensures reply { let before = present_by self.old steps.old.items
            in result ≡ answer_at before (present_by self.new steps.new.items) step.now }
        ensures steps { steps.new.items ≡ steps.old.items ++ step.now ∷ [] }
        ensures room { vec_capacity steps.new ≡ vec_capacity steps.old }
        ensures near { IsNear steps.new.items self.new }
        ensures base { self.new.base ≡ self.old.base }
        ensures since { self.new.since ≡ self.old.since }
    {
        let behind = &steps[self.since..];
        let flush = Work::Flushing.mark_of(&self.base, behind, &self.flushes, step);
        let clean = Work::Cleaning.mark_of(&self.base, behind, &self.cleans, step);
        let (count, flushed, cleaned) = (behind.len(), self.flushes.len(), self.cleans.len());
        steps.push_reserved(*step);
        push(&mut self.flushes, flush);
        push(&mut self.cleans, clean);
        let behind = &steps[self.since..];
        let before = Present::after(
            &self.base,
            &behind[..count],
            &self.flushes[..flushed],
            &self.cleans[..cleaned],
        );
        let after = Present::after(&self.base, behind, &self.flushes, &self.cleans);
        replies::answer_at(&before, &after, step)
    }

    /// Goes on to the base after all steps, if 16 or more lie behind it and there are as many in all as there
    /// are slots, frames and places for actions together.
    ///
    /// Spread over the steps behind it, that costs each a pass over the slots, frames and actions: in order
    /// of time a look through all steps, once there are as many of them. With fewer it is cheaper to look
    /// through all.
    pub fn keep_near(&mut self, steps: &[Step])
        requires { IsNear steps.now self.old }
        ensures near { IsNear steps.now self.new }
        ensures few { length steps.now < self.new.since + REACH }
        ensures soon { entries_of self.old.base.sizes ≤ length steps.now
            → length steps.now < self.new.since + FEW }
        ensures stays { length steps.now < entries_of self.old.base.sizes → self.new.since ≡ self.old.since }
        ensures at { (b : BaseRecord)
            → present_by self.old steps.now ≡ base_after b steps.now
            → IsAt b steps.now self.old → IsAt b steps.now self.new }
    {
        let params = self.base.params();
        let entries = params.slots() + params.frames() + params.drain();
        if steps.len() - self.since >= FEW && steps.len() as u64 >= entries {
            self.renew(steps);
        }
    }

    // Goes on to the base after all steps.
    fn renew(&mut self, steps: &[Step])
        requires { IsNear steps.now self.old }
        ensures near { IsNear steps.now self.new }
        ensures base { self.new.base ≡ present_by self.old steps.now }
        ensures since { self.new.since ≡ length steps.now }
    {
        let present = Present::after(
            &self.base,
            &steps[self.since..],
            &self.flushes,
            &self.cleans,
        );
        self.spare.renew(&Gathered::of(present));
        swap(&mut self.base, &mut self.spare);
        self.since = steps.len();
        self.flushes.clear();
        self.cleans.clear();
    }
}

// Puts a mark, if there is one, behind a row that has room for it.
fn push(row: &mut Vec<Mark>, mark: Option<Mark>)
    requires { vec_len row.old < vec_capacity row.old }
    ensures marks { map as_mark row.new.items ≡ map as_mark row.old.items ++ marks_in mark }
    ensures items { (taken : ℕ) → taken ≡ length row.old.items → take taken row.new.items ≡ row.old.items }
    ensures room { vec_capacity row.new ≡ vec_capacity row.old }
{
    if let Some(mark) = mark {
        row.push_reserved(mark);
    }
}
