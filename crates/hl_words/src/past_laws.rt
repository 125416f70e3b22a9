//! What a load finds that its rider made after a call under the master's lock, or after it was told what
//! another did: each law the contract of a function that does nothing.

ghost use Rattle.hl_words.specs.Past.{LoadsAfterMet, LoadsAfterCalled, LoadsBetween, LoadsBetweenOwn, CallsAfterMet, LoadsOfOne, LoadsOfTold, LoadsOfOneBetween, LoadsOfNewest};

/// A load after its rider was told what another did finds it, or what was stored since.
pub fn loads_after_met()
    ensures { LoadsAfterMet }
{}

/// A load after a call of its rider finds what riders did before calls that left fewer steps, or what was
/// stored since.
pub fn loads_after_called()
    ensures { LoadsAfterCalled }
{}

/// A load of a rider that was told of another's call, and of which the other was told before a later call of
/// its own, stands between the two.
pub fn loads_between()
    ensures { LoadsBetween }
{}

/// A load of a rider that made a call before it and one after it stands between the two.
pub fn loads_between_own()
    ensures { LoadsBetweenOwn }
{}

/// A call of a rider that was told what another did met all steps that the other's calls up to there left. So
/// each list that such a call met begins with what the other's calls left.
pub fn calls_after_met()
    ensures { CallsAfterMet }
{}

/// If one rider alone stores into a cell, a load of any rider finds the newest of its stores that stand
/// before.
pub fn loads_of_one()
    ensures { LoadsOfOne }
{}

/// If one rider alone stores into a cell, and told what it did and stored nothing there since, a load of
/// whoever was told finds its newest store.
pub fn loads_of_told()
    ensures { LoadsOfTold }
{}

/// If one rider alone stores into a cell, and not between two of its calls, a load that stands between finds
/// its newest store before the earlier one.
pub fn loads_of_one_between()
    ensures { LoadsOfOneBetween }
{}

/// If since a call one rider alone stores into a cell, a load that stands between finds its newest store,
/// whatever others stored there before.
pub fn loads_of_newest()
    ensures { LoadsOfNewest }
{}
