//! The safe epoch, told what is present.

ghost use Rattle.std.specs.Prelude.{◌≡◌, ℕ, unwrap_or};
ghost use Rattle.hl_model.specs.Lists.{least_or};
ghost use Rattle.hl_model.specs.Bases.{safe_in};
ghost use Rattle.hl_plain.specs.Presents.{epochs_in};

use crate::present::Present;

// The least epoch of a protected slot, if there is one.
fn least_epoch(present: &Present) -> Option<u64>
    ensures { (d : ℕ) → unwrap_or result d ≡ least_or d (epochs_in present.now.slots) }
{
    let mut least = None;
    for t in 0..present.params().slots() {
        if let Some(slot) = present.slot(t) {
            least = Some(slot.epoch.min(least.unwrap_or(slot.epoch)));
        }
    }
    least
}

/// The safe epoch: the greatest below those of all protected slots, or below the current one if there is
/// none.
pub fn safe(present: &Present) -> u64
    ensures { result ≡ safe_in present.now }
{
    let least = least_epoch(present).unwrap_or(present.epoch());
    least.saturating_sub(1)
}
