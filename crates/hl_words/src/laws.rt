//! What follows from the rule on cells, each law the contract of a function that does nothing.

ghost use Rattle.hl_words.specs.Laws.{AddsAddUp, NoAddIsLost, LostAddIsUnlawful, TakesAreApart, TakesAreGiven, NoRiderGoesBack};

/// An add to a cell adds its number to what a rider's touches of the cell add up to.
#[tactic(auto, using(crate::proofs::LawProofs::adds_add_up))]
pub fn adds_add_up()
    ensures { AddsAddUp }
{}

/// If each rider touched a cell by loads and adds alone, the cell holds the sum of all numbers added, modulo
/// 2^64.
pub fn no_add_is_lost()
    ensures { NoAddIsLost }
{}

/// Two riders that each found 0 in a cell and left 1 there are against the rule.
pub fn lost_add_is_unlawful()
    ensures { LostAddIsUnlawful }
{}

/// Between two changes of a cell from one value to others, a touch stores that value there.
#[tactic(auto, using(crate::proofs::LawProofs::takes_are_apart))]
pub fn takes_are_apart()
    ensures { TakesAreApart }
{}

/// All riders together changed a cell from one value to others at most as often as they stored that value
/// there, and once more for the 0 at first. So of exchanges from a value that nobody stores again one
/// succeeds at most.
#[tactic(auto, using(crate::proofs::LawProofs::takes_are_given))]
pub fn takes_are_given()
    ensures { TakesAreGiven }
{}

/// Each cell held some values one after another, and no rider's loads of the cell go back in these.
pub fn no_rider_goes_back()
    ensures { NoRiderGoesBack }
{}
