ghost use Rattle.std.specs.Prelude.{◌≡◌, ℕ, ◌-◌, ◌<◌, ◌≤◌, IfOk, IfErr};
ghost use Rattle.hl_model.specs.Epochs.{Table};
ghost use Rattle.hl_model.specs.Replies.{unless_fault, unless_refused};
ghost use Rattle.hl_epoch.specs.Faults.{acquire_fault, protected_fault, bump_fault};
ghost use Rattle.hl_epoch.specs.Table.{epoch_at, safe_of, opened, entered, left, bumped, IsTable};

use hl_model::Fault;
use std::alloc::Global;

/// A table of epochs: S slots, each protected with an epoch or not, the current epoch, and W, the window: how
/// many epochs at most have ended and are not safe. Once it is made, no call is refused memory. A refused
/// call changes what the table knows in nothing.
pub trait Epochs: Sized {
    /// What the table knows.
    ghost table: { Self → Table };

    /// Returns a table at epoch 1 with this many slots, 1 to 1,024, none protected, and this window, 1 to
    /// 4,096.
    ///
    /// Fault: `OutOfMemory` if memory is refused.
    fn make(alloc: Global, slots: u64, window: u64) -> Result<Self, Fault>
        requires slots_least { 1 ≤ slots }
        requires slots_most { slots ≤ 1024 }
        requires window_least { 1 ≤ window }
        requires window_most { window ≤ 4096 }
        ensures ok { IfOk result (λ made. table made ≡ opened slots window 1) }
        ensures err { IfErr result (λ fault. fault ≡ Fault.OutOfMemory) }
        ensures valid { IfOk result (λ made. IsTable (table made)) };

    /// Protects slot t, at the current epoch.
    ///
    /// Faults: `NoSlot` if t is S or more, `Occupied` if the slot is protected.
    fn acquire(&mut self, t: u64) -> Result<(), Fault>
        ensures answer { result ≡ unless_fault (acquire_fault t (table self.old)) tt }
        ensures effect { let old = table self.old
            in table self.new ≡ unless_refused (acquire_fault t old) old (entered t old) }
        ensures rising { safe_of (table self.old) ≤ safe_of (table self.new) }
        ensures valid { IsTable (table self.new) };

    /// Moves the protected slot t on to the current epoch.
    ///
    /// Faults: `NoSlot` if t is S or more, `NotProtected` if the slot is not protected.
    fn refresh(&mut self, t: u64) -> Result<(), Fault>
        ensures answer { result ≡ unless_fault (protected_fault t (table self.old)) tt }
        ensures effect { let old = table self.old
            in table self.new ≡ unless_refused (protected_fault t old) old (entered t old) }
        ensures rising { safe_of (table self.old) ≤ safe_of (table self.new) }
        ensures valid { IsTable (table self.new) };

    /// Ends the protection of slot t.
    ///
    /// Faults: `NoSlot` if t is S or more, `NotProtected` if the slot is not protected.
    fn release(&mut self, t: u64) -> Result<(), Fault>
        ensures answer { result ≡ unless_fault (protected_fault t (table self.old)) tt }
        ensures effect { let old = table self.old
            in table self.new ≡ unless_refused (protected_fault t old) old (left t old) }
        ensures rising { safe_of (table self.old) ≤ safe_of (table self.new) }
        ensures valid { IsTable (table self.new) };

    /// Raises the current epoch by one, and returns the epoch that ended: the ticket of the caller's action,
    /// if it has one. It wants fewer than W epochs that have ended and are not safe.
    ///
    /// Fault: `EpochsSpent` if the current epoch is the last, 2^62.
    fn bump(&mut self) -> Result<u64, Fault>
        requires { let old = table self.old in old.current - 1 - safe_of old < old.window }
        ensures answer { let old = table self.old in result ≡ unless_fault (bump_fault old) old.current }
        ensures effect { let old = table self.old
            in table self.new ≡ unless_refused (bump_fault old) old (bumped old) }
        ensures rising { safe_of (table self.old) ≤ safe_of (table self.new) }
        ensures valid { IsTable (table self.new) };

    /// The current epoch: 1 to 2^62.
    fn current(&self) -> u64
        ensures value { result ≡ (table self.now).current }
        ensures valid { IsTable (table self.now) };

    /// The safe epoch: every protected slot's epoch is above it. It is below the current one, by W + 1 at
    /// most.
    fn safe(&self) -> u64
        ensures value { result ≡ safe_of (table self.now) }
        ensures valid { IsTable (table self.now) };

    /// Returns the epoch of slot t, or None if the slot is not protected, or t is S or more.
    fn epoch_of(&self, t: u64) -> Option<u64>
        ensures value { result ≡ epoch_at t (table self.now) }
        ensures valid { IsTable (table self.now) };
}
