//! Which region of the log an address lies in, without the lock.
ghost use Rattle.std.specs.Prelude.{◌≡◌, None, Some, MatchResult};
ghost use Rattle.hl_words.specs.declared.which.Which.TheVariants.{SafeReadOnly};
ghost use Rattle.hl_words.specs.Views.{with_loaded};
ghost use Rattle.hl_log.specs.Addresses.{region_fault, region_of};
ghost use Rattle.hl_log.specs.Passes.{with_act, IsLaterLoad};

use crate::pass::Pass;
use crate::shared::Shared;
use hl_model::{Fault, View};
use hl_pass::Region;
use hl_words::Which;

impl Pass {
    /// Returns the region of an address, by what the pass sees and the safe read-only offset, which it loads
    /// and tells too: no less than what it loaded of that before.
    ///
    /// `Beyond` if the address isn't below the tail that the pass sees, nor below the head that it sees.
    #[inline(always)]
    pub fn region(&mut self, address: u64) -> Result<(Region, u64), Fault>
        ensures told { let view = self.old.own.view
            in let met = region_fault view address
            in MatchResult result
            (λ told. (met ≡ None) × (told.0 ≡ region_of view told.1 address)
            × IsLaterLoad SafeReadOnly self.old told.1
            × (self.new ≡ with_act (with_loaded SafeReadOnly told.1) self.old))
            (λ fault. (met ≡ Some fault) × (self.new ≡ self.old)) }
        ensures own { self.new.own ≡ self.old.own }
    {
        let view = self.own.view;
        if address >= view.head && address >= view.tail {
            return Err(Fault::Beyond { tail: view.tail });
        }
        let shared: &Shared = &self.shared;
        let safe_read_only = shared
            .words
            .load_offset(&mut self.rider, Which::SafeReadOnly);
        Ok((region_of(view, safe_read_only, address), safe_read_only))
    }
}

/// The region of an address that has one.
#[inline(always)]
fn region_of(view: View, safe_read_only: u64, address: u64) -> Region
    ensures { result ≡ region_of view safe_read_only address }
{
    if address < view.head {
        Region::Evicted
    } else if address >= view.read_only {
        Region::Mutable
    } else if address < safe_read_only {
        Region::ReadOnly
    } else {
        Region::Fuzzy
    }
}
