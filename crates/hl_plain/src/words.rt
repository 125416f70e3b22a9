//! What the words of the log hold.

ghost use Rattle.std.specs.Prelude.{◌≡◌};
ghost use Rattle.hl_model.specs.Words.{written_at, word};

use hl_model::Step;

// The value that a step writes at an address.
fn written_at(address: u64, step: &Step) -> Option<u64>
    ensures { result ≡ written_at address step.now }
{
    match *step {
        Step::Write { a, v, .. } if a == address => Some(v),
        _ => None,
    }
}

/// The word at an address: the last value written there, or 0.
#[tactic(auto, unfolding(hl_model::specs::Words::word), using(crate::proofs::FoldLaws::last_given_fold))]
pub fn word(address: u64, steps: &[Step]) -> u64
    ensures { result ≡ word address steps.now }
{
    steps.iter().fold(0, |value, step| written_at(address, step).unwrap_or(value))
}
