//! Waiting for other threads to move on.
ghost use Rattle.std.specs.Prelude.{◌≡◌, [], IfOk};
ghost use Rattle.hl_domain.specs.Riders.{Bares};
ghost use Rattle.hl.specs.Sessions.{KeepsAllButRider};
ghost use Rattle.hl.specs.Traces.{Meets, OnlyMeets};
ghost use Rattle.hl.specs.Waits.{ForAll, LooksAtSafe, Waits, WaitsForAll};

use super::Session;
use hl_action::{Promise, Task};
use hl_epoch::Epochs;
use hl_model::Fault;
use hl_words::Realm;
use std::sync::Wait;

impl<'a, R: Wait, L: Realm, F: Task, P: Promise, E: Epochs + Drop> Session<'a, R, L, F, P, E> {
    /// The safe epoch of now: each ticket up to it is safe, so all that were protected at its bump have refreshed or
    /// left. It takes the lock, and is never refused.
    pub fn safe(&mut self) -> u64
        ensures met { LooksAtSafe F self.old.log result self.old.pass.rider self.new.pass.rider }
        ensures did { Meets [] self.old self.new }
        ensures kept { KeepsAllButRider self.old self.new }
    {
        let (now, _, _) = self.log.snapshot_by(self.rt, self.pass.rider_mut());
        now.safe
    }

    /// Waits until a ticket is safe: until all that were protected at its bump have refreshed or left. The session
    /// makes a round of [`help`](Session::help) again and again meanwhile, by which it refreshes too. Returns the safe
    /// epoch, which isn't below the ticket.
    ///
    /// It waits for good if somebody never refreshes, or nobody ever bumps so often. Faults: those of `help`.
    pub fn wait(&mut self, ticket: u64) -> Result<u64, Fault>
        ensures waits { Waits F self.old.log self.old.beside.cuts F.gives P.keeps ticket result
            self.old.pass self.new.pass }
        ensures did { OnlyMeets self.old self.new }
        ensures slot { self.new.pass.slot ≡ self.old.pass.slot }
        ensures log { self.new.log ≡ self.old.log }
        ensures beside { self.new.beside ≡ self.old.beside }
    {
        let rt = self.rt;
        for _ in rt.forever() {
            let safe = self.safe();
            if ticket <= safe {
                return Ok(safe);
            }
            match self.help_or_nap() {
                Ok(_) => {}
                Err(fault) => return Err(fault),
            }
        }
        unreachable!()
    }

    /// Ends the epoch, and waits until all that were protected then have refreshed or left, this session among them
    /// (liburcu's `synchronize_rcu`). Returns the safe epoch.
    ///
    /// It waits for good if somebody never refreshes. Faults: `JournalFull`, `EpochsSpent`, `WindowFull` of the bump;
    /// those of [`help`](Session::help).
    pub fn wait_for_all(&mut self) -> Result<u64, Fault>
        ensures waits { WaitsForAll F self.old.log self.old.beside.cuts F.gives P.keeps result
            self.old.pass self.new.pass }
        ensures all { IfOk result (λ _. ForAll self.old.pass.rider self.new.pass.rider) }
        ensures did { OnlyMeets self.old self.new }
        ensures slot { self.new.pass.slot ≡ self.old.pass.slot }
        ensures log { self.new.log ≡ self.old.log }
        ensures beside { self.new.beside ≡ self.old.beside }
    {
        match self.bare() {
            Ok(ticket) => self.wait(ticket),
            Err(fault) => Err(fault),
        }
    }

    // Ends the epoch, and stores nothing. Returns the epoch that ended.
    fn bare(&mut self) -> Result<u64, Fault>
        ensures met { Bares F self.old.log result self.old.pass.rider self.new.pass.rider }
        ensures did { Meets [] self.old self.new }
        ensures kept { KeepsAllButRider self.old self.new }
    {
        self.log.bare(self.rt, self.pass.rider_mut())
    }
}
