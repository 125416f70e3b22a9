//! A thread's time in a slot of a log.
ghost use Rattle.std.specs.Prelude.{◌≡◌, ◌+◌, ◌-◌, ◌/◌, ◌^◌, ◌≤◌, Ok, true, false, [], ◌∷◌, IfOk, IfErr, MatchResult};
ghost use Rattle.hl_keeper.specs.Passes.{seen, with_rider, with_tail};
ghost use Rattle.hl_keeper.specs.Leases.{placed};
ghost use Rattle.hl_domain.specs.Domains.{with_held, after_news, stays_current, Refreshed};
ghost use Rattle.hl_domain.specs.Riders.{Allocates};
ghost use Rattle.hl_traces.specs.declared.act.Act.TheVariants.{Placed};
ghost use Rattle.hl_traces.specs.Traces.{PassTraces, RiderTraces};
ghost use Rattle.hl.specs.Traces.{if_ok, EntersBy, KeepsUpBy, LeavesBy, Meets};
ghost use Rattle.hl.specs.Sessions.{alone, beside_of, with_pass, Asked, Entered, Left};

mod away;
mod bell;
mod beside;
mod flush;
mod help;
mod leave;
mod over;
mod pasts;
mod pause;
mod queries;
mod records;
mod region;
mod rest;
mod rider;
mod room;
mod tries;
mod waiting;
mod words;

use crate::log::Log;
use crate::refused::Refused;
pub use away::Away;
pub(crate) use beside::Beside;
use hl_action::{AnyAnswer, NoJob, Promise, Task};
use hl_counts::CountTable;
use hl_domain::{Lease, Pass};
use hl_epoch::Epochs;
use hl_model::{Fault, View};
use hl_words::{Realm, Rider};
pub use rest::Resting;
use std::marker::Model;
use std::sync::Wait;
pub use tries::{Curable, Cure, Helped, Helping, Napped, attempt};

/// A protected thread: its pass, with the log and the runtime that the pass's calls need. What is
/// of another log doesn't compile with it.
///
/// It can't be dropped: end it by [`leave`](Session::leave), which returns the rider, or by
/// [`abandon`](Session::abandon).
pub struct Session<
    'a,
    R,
    L: Realm,
    F: Task = NoJob,
    P: Promise = AnyAnswer,
    E: Epochs = CountTable,
> {
    rt: &'a R,
    log: &'a Log<L, F, P, E>,
    pass: Pass<L>,
    beside: Beside<'a>,
}

impl<'a, R, L: Realm, F: Task, P: Promise, E: Epochs> Model for Session<'a, R, L, F, P, E> {
    ghost use Rattle.hl_traces.specs.Traces.{PassTraces};
    ghost use Rattle.hl.specs.Sessions.{beside_of, SessionState};

    ghost Value = { SessionState };

    ghost view = { λ s. record {
      log = s.log.now;
      pass = s.pass;
      beside = beside_of s.beside.bell s.beside.cuts;
    } };

    // Its rider has a trace: each touch is at an address that the session saw.
    ghost invariant = { λ s. PassTraces s.log.now.sizes s.pass };
}

impl<'a, R: Wait, L: Realm, F: Task, P: Promise, E: Epochs + Drop> Session<'a, R, L, F, P, E> {
    /// Protects the least slot that is free; [`slot`](Session::slot) tells which it is.
    ///
    /// Faults, with the rider handed back: `JournalFull`, `NoSlot` if each slot is protected.
    pub fn enter(
        rt: &'a R,
        log: &'a Log<L, F, P, E>,
        rider: Rider<L>,
    ) -> Result<Session<'a, R, L, F, P, E>, Refused<Rider<L>>>
        requires { RiderTraces log.now.sizes rider }
        ensures met { Entered F log.now rider result }
        ensures log { IfOk result (λ session. session.log ≡ log.now) }
        ensures beside { IfOk result (λ session. session.beside ≡ alone) }
        ensures did { EntersBy log.now rider result }
    {
        Session::enter_beside(rt, log, rider, Beside::alone())
    }

    // The same, where somebody serves the log beside the session.
    pub(crate) fn enter_beside(
        rt: &'a R,
        log: &'a Log<L, F, P, E>,
        rider: Rider<L>,
        beside: Beside<'a>,
    ) -> Result<Session<'a, R, L, F, P, E>, Refused<Rider<L>>>
        requires { RiderTraces log.now.sizes rider }
        ensures met { Entered F log.now rider result }
        ensures log { IfOk result (λ session. session.log ≡ log.now) }
        ensures beside { IfOk result (λ session. session.beside ≡ beside_of beside.entry.bell beside.entry.cuts) }
        ensures did { EntersBy log.now rider result }
    {
        match log.enter(rt, rider) {
            Ok(pass) => Ok(Session {
                rt,
                log,
                pass,
                beside,
            }),
            Err((fault, back)) => Err(Refused { fault, back }),
        }
    }

    /// Protects this slot.
    ///
    /// Faults, with the rider handed back: `JournalFull`, `NoSlot`, `Occupied`.
    pub fn at(
        rt: &'a R,
        log: &'a Log<L, F, P, E>,
        slot: u64,
        rider: Rider<L>,
    ) -> Result<Session<'a, R, L, F, P, E>, Refused<Rider<L>>>
        requires { RiderTraces log.now.sizes rider }
        ensures met { Asked F log.now rider slot result }
        ensures log { IfOk result (λ session. session.log ≡ log.now) }
        ensures beside { IfOk result (λ session. session.beside ≡ alone) }
        ensures did { EntersBy log.now rider result }
    {
        match log.acquire(rt, slot, rider) {
            Ok(pass) => Ok(Session {
                rt,
                log,
                pass,
                beside: Beside::alone(),
            }),
            Err((fault, back)) => Err(Refused { fault, back }),
        }
    }

    /// Moves the slot on to the current epoch and offsets. Returns the view.
    ///
    /// Faults: `Stranger` if the session saw an offset above the present one; `JournalFull`.
    pub fn refresh(&mut self) -> Result<View, Fault>
        ensures refreshed { Refreshed F self.old.log self.old.pass self.new.pass result }
        ensures did { Meets [] self.old self.new }
        ensures log { self.new.log ≡ self.old.log }
        ensures beside { self.new.beside ≡ self.old.beside }
    {
        self.log.refresh(self.rt, &mut self.pass)
    }

    /// Brings the session up to date, as a thread wants before each of its operations: by three loads and no lock if
    /// nothing is new, else by a refresh. Nothing is new if no offset is above the one that the session saw, its epoch
    /// has not ended, and it has room for a touch. Returns what the session sees.
    ///
    /// Faults, those of a refresh: `Stranger`, `JournalFull`.
    #[inline(always)]
    pub fn keep_up(&mut self) -> Result<View, Fault>
        ensures kept { let new = self.new.pass
            in let old = self.old.pass
            in stays_current old new ≡ true → (result ≡ Ok (seen old)) × (new ≡ after_news old new) }
        ensures refreshed { let new = self.new.pass
            in let old = self.old.pass
            in stays_current old new ≡ false → Refreshed F self.old.log (after_news old new) new result }
        ensures did { KeepsUpBy self.old self.new }
        ensures log { self.new.log ≡ self.old.log }
        ensures beside { self.new.beside ≡ self.old.beside }
    {
        self.log.keep_up(self.rt, &mut self.pass)
    }

    /// Places a record of n words. Returns the address of its first word. The record is on one
    /// page, and not below the tail that the session saw. The session then sees the record's end as
    /// its tail.
    ///
    /// Faults: `JournalFull`, `Size`, `SpaceSpent`, `Busy`.
    pub fn allocate(&mut self, n: u64) -> Result<u64, Fault>
        ensures met { Allocates F self.old.log n result self.old.pass self.new.pass.rider }
        ensures pass { let pass = with_rider self.new.pass.rider self.old.pass
            in MatchResult result
            (λ a. self.new ≡ with_pass (with_held pass.epoch (with_tail (a + n) (seen pass)) pass) self.old)
            (λ _. self.new ≡ with_pass pass self.old) }
        ensures did { Meets (if_ok (λ a. Placed a n ∷ []) result) self.old self.new }
        ensures above { IfOk result (λ a. (seen self.old.pass).tail ≤ a) }
        ensures within { IfOk result (λ address. address + n ≤ 2 ^ 48) }
        ensures one_page { let page_size = self.old.log.sizes.page_size
            in IfOk result (λ a. a / page_size ≡ (a + n - 1) / page_size) }
    {
        self.log.allocate(self.rt, &mut self.pass, n)
    }

    /// Places a piece of n words as [`allocate`](Session::allocate) places a record, and returns its lease, from which
    /// small records are taken without the lock.
    ///
    /// Faults: those of `allocate`.
    pub fn lease(&mut self, n: u64) -> Result<Lease, Fault>
        ensures met { Allocates F self.old.log n (placed result) self.old.pass self.new.pass.rider }
        ensures pass { let pass = with_rider self.new.pass.rider self.old.pass
            in MatchResult result
            (λ lease. self.new
            ≡ with_pass (with_held pass.epoch (with_tail lease.end (seen pass)) pass) self.old)
            (λ _. self.new ≡ with_pass pass self.old) }
        ensures did { Meets (if_ok (λ lease. Placed lease.next n ∷ []) result) self.old self.new }
        ensures piece { IfOk result (λ lease. lease.end ≡ lease.next + n) }
        ensures above { IfOk result (λ lease. (seen self.old.pass).tail ≤ lease.next) }
        ensures one_page { let page_size = self.old.log.sizes.page_size
            in IfOk result (λ lease. lease.next / page_size ≡ (lease.end - 1) / page_size) }
    {
        self.log.lease(self.rt, &mut self.pass, n)
    }

    /// Releases the slot. Returns the rider.
    ///
    /// Faults, with the session handed back: `JournalFull`.
    pub fn leave(self) -> Result<Rider<L>, Refused<Session<'a, R, L, F, P, E>>>
        ensures met { Left F self.entry result }
        ensures did { LeavesBy self.entry result }
        ensures back { IfErr result (λ refused. refused.back
            ≡ with_pass (with_rider refused.back.pass.rider self.entry.pass) self.entry) }
    {
        let Session {
            rt,
            log,
            pass,
            beside,
        } = self;
        match log.release(rt, pass) {
            Ok(rider) => Ok(rider),
            Err((fault, pass)) => Err(Refused {
                fault,
                back: Session {
                    rt,
                    log,
                    pass,
                    beside,
                },
            }),
        }
    }
}

// What takes no lock, here as in `words`, `region`, `pasts` and `bell`: without a bound that lets a function wait, each call
// is proved to return.
impl<'a, R, L: Realm, F: Task, P: Promise, E: Epochs + Drop> Session<'a, R, L, F, P, E> {
    /// Ends the session without a release, and returns its rider: the slot stays protected for
    /// good, and the session's touches never enter the journal.
    pub fn abandon(self) -> Rider<L>
        ensures rider { result ≡ self.entry.pass.rider }
        ensures traces { PassTraces self.entry.log.sizes self.entry.pass }
    {
        let Session {
            rt: _,
            log: _,
            pass,
            beside: _,
        } = self;
        pass.abandon()
    }

    /// What its type says of it: its rider has a trace.
    pub fn known(&self)
        ensures { PassTraces self.now.log.sizes self.now.pass }
    {
        let _ = &self.pass;
    }

    /// Its log: for what needs no slot, as a snapshot, or who holds up the oldest action.
    pub fn log(&self) -> &'a Log<L, F, P, E>
        ensures { result.now ≡ self.now.log }
    {
        self.log
    }

    /// What it has seen: the view of its last locked call, after its looks since.
    pub fn view(&self) -> View
        ensures { result ≡ seen self.now.pass }
    {
        self.pass.view()
    }

    /// Its slot.
    pub fn slot(&self) -> u64
        ensures { result ≡ self.now.pass.slot }
    {
        self.pass.slot()
    }
}
