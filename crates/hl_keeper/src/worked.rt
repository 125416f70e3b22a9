//! A worked example as a theorem: the definitions alone, computed by the checker, give what was written by hand.

ghost use Rattle.hl_keeper.specs.Worked.{AnotherStamp};

use hl_action::Task;

/// A pass of another stamp than its slot's is refused, and its caller is told the slot's. No call makes such a pass.
#[tactic(auto, using(crate::proofs::WorkedProofs::another_stamp))]
pub fn another_stamp<F: Task>()
    ensures { AnotherStamp F }
{}
