//! In which region of the log an address is.
ghost use Rattle.std.specs.Prelude.{◌≡◌, ◌≤◌, [], IfOk, IfErr};
ghost use Rattle.hl_model.specs.declared.fault.Fault.TheVariants.{Beyond as BEYOND};
ghost use Rattle.hl_keeper.specs.Passes.{seen};
ghost use Rattle.hl_keeper.specs.Regions.{IsRegion};
ghost use Rattle.hl.specs.Traces.{Does};

use super::Session;
use hl_action::{Promise, Task};
use hl_domain::Region;
use hl_epoch::Epochs;
use hl_model::Fault;
use hl_words::Realm;

impl<'a, R, L: Realm, F: Task, P: Promise, E: Epochs + Drop> Session<'a, R, L, F, P, E> {
    /// Tells in which [`Region`] of the log an address is, without the lock, as an engine asks before it changes a
    /// record. It is by what the session saw; only the safe read-only offset is loaded anew, if the answer needs it. What
    /// is read-only is written by nobody any more, as `loads_are_settled` of `hl_domain::laws` says.
    ///
    /// `Beyond` if the address isn't below the tail that the session saw, nor evicted.
    #[inline(always)]
    pub fn region(&mut self, a: u64) -> Result<Region, Fault>
        ensures region { IfOk result (λ region. IsRegion self.old.pass self.new.pass a region) }
        ensures beyond { let saw = seen self.old.pass
            in IfErr result (λ fault. (fault ≡ BEYOND saw.tail) × (saw.head ≤ a) × (saw.tail ≤ a)
            × (self.new ≡ self.old)) }
        ensures did { Does [] self.old self.new }
        ensures log { self.new.log ≡ self.old.log }
        ensures beside { self.new.beside ≡ self.old.beside }
    {
        self.log.region(&mut self.pass, a)
    }
}
