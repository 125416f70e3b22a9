//! What is present after a base and the steps since: each quantity is computed when it is asked for.

ghost use Rattle.std.specs.Prelude.{◌≡◌, ◌*◌, ◌^◌, ◌≤◌, ◌<◌, None, IfSome, length, slice_index_or};
ghost use Rattle.hl_model.specs.Bases.{slot_in, held_in};
ghost use Rattle.hl_model.specs.AfterReplies.{base_after};
ghost use Rattle.hl_plain.specs.Presents.{ArePresent};

use crate::pages::Mark;
use crate::{actions, epochs, flushed, frames, offsets, settled, views};
use arrayvec::ArrayVec;
use hl_laws::Base;
use hl_model::{Held, Sizes, Slot, Step, Waiting};
use std::marker::Model;

/// A base and the steps since, with the marks of pages that these made.
///
/// A contract sees the base after them, and no field of it is kept.
#[derive(Drop)]
pub struct Present<'a> {
    base: &'a Base,
    steps: &'a [Step],
    flushes: &'a [Mark],
    cleans: &'a [Mark],
}

impl<'a> Model for Present<'a> {
    ghost use Rattle.hl_model.specs.Bases.{Base as BaseRecord};

    ghost Value = { BaseRecord };

    ghost use Rattle.hl_plain.specs.Presents.{present_of, IsPresent};

    ghost view = { present_of };

    ghost invariant = { IsPresent };
}

impl<'a> Present<'a> {
    /// What is present after these.
    pub fn after(
        base: &'a Base,
        steps: &'a [Step],
        flushes: &'a [Mark],
        cleans: &'a [Mark],
    ) -> Present<'a>
        requires { ArePresent base.now steps.now flushes.now cleans.now }
        ensures { result ≡ base_after base.now steps.now }
    {
        Present {
            base,
            steps,
            flushes,
            cleans,
        }
    }

    /// The sizes. The rows of slots and of frames are as long as these say.
    #[tactic(auto, unfolding(hl_model::specs::AfterReplies::base_after))]
    pub fn params(&self) -> Sizes
        ensures value { result ≡ self.now.sizes }
        ensures slots { length self.now.slots ≡ self.now.sizes.slots }
        ensures frames { length self.now.frames ≡ self.now.sizes.frames }
    {
        self.base.params()
    }

    /// The current epoch.
    #[tactic(auto, unfolding(hl_model::specs::AfterReplies::base_after))]
    pub fn epoch(&self) -> u64
        ensures { result ≡ self.now.epoch }
    {
        epochs::epoch(self.base, self.steps)
    }

    /// What slot t has, if it is protected.
    #[tactic(auto, unfolding(hl_model::specs::AfterReplies::base_after))]
    pub fn slot(&self, t: u64) -> Option<Slot>
        ensures { result ≡ slot_in self.now t }
    {
        if t < self.base.params().slots() {
            views::slot(self.base, t, self.steps)
        } else {
            None
        }
    }

    /// The pending actions, oldest first.
    #[tactic(auto, unfolding(hl_model::specs::AfterReplies::base_after))]
    pub fn waiting(&self) -> ArrayVec<Waiting, 64>
        ensures { result.items ≡ self.now.waiting }
    {
        actions::waiting(self.base, self.steps)
    }

    /// The actions taken and not done, oldest first.
    #[tactic(auto, unfolding(hl_model::specs::AfterReplies::base_after))]
    pub fn taken(&self) -> ArrayVec<Waiting, 64>
        ensures { result.items ≡ self.now.taken }
    {
        actions::taken(self.base, self.steps)
    }

    /// The closed offset.
    #[tactic(auto, unfolding(hl_model::specs::AfterReplies::base_after))]
    pub fn closed(&self) -> u64
        ensures { result ≡ self.now.six.closed }
    {
        settled::closed(self.base, self.steps)
    }

    /// The head.
    #[tactic(auto, unfolding(hl_model::specs::AfterReplies::base_after))]
    pub fn head(&self) -> u64
        ensures { result ≡ self.now.six.head }
    {
        offsets::head(self.base, self.steps)
    }

    /// The flushed offset.
    #[tactic(auto, unfolding(hl_model::specs::AfterReplies::base_after))]
    pub fn flushed(&self) -> u64
        ensures { result ≡ self.now.six.flushed }
    {
        flushed::flushed(self.base, self.steps)
    }

    /// The safe read-only offset.
    #[tactic(auto, unfolding(hl_model::specs::AfterReplies::base_after))]
    pub fn safe_read_only(&self) -> u64
        ensures { result ≡ self.now.six.safe_read_only }
    {
        settled::safe_read_only(self.base, self.steps)
    }

    /// The read-only offset.
    #[tactic(auto, unfolding(hl_model::specs::AfterReplies::base_after))]
    pub fn read_only(&self) -> u64
        ensures { result ≡ self.now.six.read_only }
    {
        offsets::read_only(self.base, self.steps)
    }

    /// The tail, which is within the space.
    #[tactic(auto, unfolding(hl_model::specs::AfterReplies::base_after))]
    pub fn tail(&self) -> u64
        ensures value { result ≡ self.now.six.tail }
        ensures most { result ≤ 2 ^ 48 }
    {
        offsets::tail(self.base, self.steps)
    }

    /// What frame f holds.
    pub fn held(&self, f: u64) -> Option<Held>
        ensures held { result ≡ slice_index_or self.now.frames f None }
        ensures within { IfSome result (λ held. held.page * self.now.sizes.page_size < 2 ^ 48) }
    {
        self.held_below(self.tail(), f)
    }

    /// What frame f holds, told the tail: who asks for many frames computes that once.
    #[tactic(auto, unfolding(hl_model::specs::AfterReplies::base_after))]
    pub fn held_below(&self, tail: u64, f: u64) -> Option<Held>
        requires { tail ≡ self.now.six.tail }
        ensures held { result ≡ slice_index_or self.now.frames f None }
        ensures within { IfSome result (λ held. held.page * self.now.sizes.page_size < 2 ^ 48) }
    {
        if f >= self.base.params().frames() {
            return None;
        }
        let page = frames::last_entered(self.base, tail, f)?;
        let held = frames::marked(self.base, self.steps, self.flushes, self.cleans, page);
        Some(held)
    }

    /// What the frame of page p holds.
    pub fn held_for(&self, p: u64) -> Option<Held>
        ensures { result ≡ held_in self.now p }
    {
        self.held(p % self.params().frames())
    }
}
