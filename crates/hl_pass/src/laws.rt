//! What follows from the definitions, whatever code meets them: each law is the contract of a function that
//! does nothing.

ghost use Rattle.hl_pass.specs.Laws.{CatchesUp, StaysKnown};

/// What a known pass saw is never refused, if it saw nothing below what its slot did.
#[tactic(auto, using(crate::proofs::LookLaws::catches_up))]
pub fn catches_up()
    ensures { CatchesUp }
{}

/// A pass that was known, and then rested in the view of its slot, is known at whatever list it rested, if
/// its slot is protected there.
#[tactic(auto, using(crate::proofs::KnownLaws::stays_known))]
pub fn stays_known()
    ensures { StaysKnown }
{}
