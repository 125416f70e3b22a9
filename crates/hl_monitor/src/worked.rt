//! Worked examples as theorems: the definition alone, computed by the checker, gives what was written by hand.
#![tactic(auto, unfolding(crate::proofs::OnLiterals::on_literals))]

ghost use Rattle.hl_monitor.specs.Worked.{FirstAction, GreatestNumbers};

/// One slot is protected, one action was taken and done, nothing was allocated.
pub fn first_action()
    ensures { FirstAction }
{}

/// Each number is another, and some have all their digits.
pub fn greatest_numbers()
    ensures { GreatestNumbers }
{}
