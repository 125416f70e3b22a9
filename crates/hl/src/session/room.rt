//! Room for touches.
ghost use Rattle.std.specs.Prelude.{◌≡◌, ◌+◌, ◌<◌, ◌≤◌, length, IfOk, Err};
ghost use Rattle.hl_model.specs.declared.fault.Fault.TheVariants.{Size};
ghost use Rattle.hl_domain.specs.Domains.{Refreshed};
ghost use Rattle.hl.specs.Rooms.{KeepsUp};
ghost use Rattle.hl.specs.Traces.{OnlyMeets};

use super::Session;
use hl_action::{Promise, Task};
use hl_epoch::Epochs;
use hl_model::{Fault, View};
use hl_words::Realm;
use std::sync::Wait;

/// How many touches a session has room for.
const TOUCHES: u64 = 32;

impl<'a, R: Wait, L: Realm, F: Task, P: Promise, E: Epochs + Drop> Session<'a, R, L, F, P, E> {
    /// Brings the session up to date, and leaves room for n touches: n looks and stores from now on meet no
    /// `TouchesFull`, until more are made. For at most one touch it is [`keep_up`](Session::keep_up). For more it is a
    /// refresh, by the lock, since a session isn't told how many touches it has. Returns what the session sees.
    ///
    /// Faults: `Size` if n is above 32, and then nothing was done; those of a refresh: `Stranger`, `JournalFull`.
    pub fn keep_up_for(&mut self, n: u64) -> Result<View, Fault>
        ensures size { 32 < n → (result ≡ Err Size) × (self.new ≡ self.old) }
        ensures kept { n ≤ 1 → KeepsUp F self.old.log self.old.pass self.new.pass result }
        ensures refreshed { 1 < n → n ≤ 32 → Refreshed F self.old.log self.old.pass self.new.pass result }
        ensures room { IfOk result (λ _. length self.new.pass.touches + n ≤ 32) }
        ensures did { OnlyMeets self.old self.new }
        ensures log { self.new.log ≡ self.old.log }
        ensures beside { self.new.beside ≡ self.old.beside }
    {
        if TOUCHES < n {
            return Err(Fault::Size);
        }
        if n <= 1 {
            self.keep_up()
        } else {
            self.refresh()
        }
    }
}
