ghost use Rattle.std.specs.Prelude.{◌≡◌, true};
ghost use Rattle.hl.specs.Openings.{can_open, of_sizes, IsInRange};

use hl_model::{HasSizes, Sizes};

/// How many riders a log has at most.
const RIDERS_MOST: u64 = 2048;

/// The least length of a journal: a locked call of a session enters up to 32 touches and its own step.
pub(crate) const STEPS_LEAST: u64 = 33;

/// The greatest length of a journal, and the greatest stamp.
pub(crate) const STEPS_MOST: u64 = 1 << 62;

/// What a log is opened with. `S` is [`Params`](hl_model::Params) or [`Sizes`].
#[derive(Clone, Copy, Debug, PartialEq, Eq)]
pub struct Opening<S = Sizes> {
    /// Words a page, frames, slots, and places for actions.
    pub params: S,
    /// How many riders, 1 to 2,048: one for each thread that is to act at a time, and four for a crew.
    pub riders: u64,
    /// How many steps the journal may keep between two cuts, 33 to 2^62: a session's locked call enters up to 32
    /// touches and its own step. Its memory is taken at the opening.
    pub journal: u64,
    /// Tells this log from the program's other logs; at most 2^62.
    pub stamp: u64,
}

impl<S> Opening<S> {
    /// Whether each number is in its range.
    #[tactic(auto, unfolding(crate::specs::Openings::can_open))]
    pub fn is_in_range(&self) -> bool
        ensures value { result ≡ can_open self.now }
        ensures range { result ≡ true → IsInRange self.now }
    {
        1 <= self.riders
            && self.riders <= RIDERS_MOST
            && STEPS_LEAST <= self.journal
            && self.journal <= STEPS_MOST
            && self.stamp <= STEPS_MOST
    }
}

impl<S: HasSizes> Opening<S> {
    // The same, of wide sizes.
    pub(crate) fn of_sizes(self) -> Opening<Sizes>
        ensures { result ≡ of_sizes S.sizes_of self }
    {
        Opening {
            params: self.params.sizes(),
            riders: self.riders,
            journal: self.journal,
            stamp: self.stamp,
        }
    }
}
