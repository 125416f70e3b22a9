//! A pass's row of touches.
ghost use Rattle.std.specs.Prelude.{◌≡◌, ◌<◌, ◌≤◌, List, [], ◌∷◌, ◌++◌, length};

use hl_model::Step;
use std::marker::Model;

/// How many touches a pass can have.
pub(crate) const TOUCHES_MOST: usize = 32;

/// Up to 32 touches, the oldest first. It is emptied under a domain's lock, and that writes none of its places, as
/// emptying an `ArrayVec` would.
#[derive(Drop)]
pub(crate) struct Touches {
    places: [Step; TOUCHES_MOST],
    count: usize,
}

impl Model for Touches {
    ghost use Rattle.std.specs.Prelude.{◌≡◌, ◌≤◌, List, length, take};
    ghost use Rattle.hl_model.specs.declared.step.Step.{Step};

    ghost Value = { List Step };

    ghost view = { λ t. take t.count t.places };

    ghost invariant = { λ t. (t.count ≤ 32) × (length t.places ≡ 32) };
}

impl Touches {
    /// None.
    pub(crate) fn new() -> Touches
        ensures { result ≡ [] }
    {
        Touches {
            places: [Step::Bare; TOUCHES_MOST],
            count: 0,
        }
    }

    /// How many there are.
    #[inline(always)]
    pub(crate) fn len(&self) -> usize
        ensures value { result ≡ length self.now }
        ensures most { result ≤ 32 }
    {
        self.count
    }

    /// All of them.
    #[inline(always)]
    pub(crate) fn as_slice(&self) -> &[Step]
        ensures { result.now ≡ self.now }
    {
        &self.places[..self.count]
    }

    /// Puts one behind the others.
    #[inline(always)]
    pub(crate) fn push(&mut self, touch: Step)
        requires { length self.old < 32 }
        ensures { self.new ≡ self.old ++ touch ∷ [] }
    {
        self.places[self.count] = touch;
        self.count += 1;
    }

    /// Drops them all.
    #[inline(always)]
    pub(crate) fn clear(&mut self)
        ensures { self.new ≡ [] }
    {
        self.count = 0;
    }
}
