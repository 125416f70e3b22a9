//! The calls of `hl` for an engine's every day: that help runs an action, that an attempt ends, that a rest and a wait let
//! an action become ready, and what is reported.
use hl::{
    AnyAnswer, Ask, Fault, Firing, Kept, Log, Opening, Params, Part, Realm, Refused, Rider,
    Session, Task, attempt, report, with_log,
};
use std::alloc::Global;
use std::sync::atomic::{AtomicU64, Ordering};
use std::sync::{Arc, Wait};
use std::test::Fail;

/// How often an operation is tried again.
const AGAIN: u32 = 5;

/// How often a job was run.
type Runs = Arc<AtomicU64, Global>;

// A job that counts how often it is run.
#[derive(Drop)]
struct Counting(Runs);

impl Task for Counting {
    ghost use Rattle.std.specs.Prelude.{◌≡◌};

    ghost can = { λ job firing. firing ≡ firing };

    ghost gives = { λ job firing answer. answer ≡ answer };

    fn call(self, _firing: Firing) -> u64 {
        self.0.fetch_add(1, Ordering::SeqCst)
    }
}

// What is tried with a log.
#[derive(Clone, Copy)]
enum Tried {
    Help,
    Attempt,
    Rest,
    RestInPlace,
    Wait,
    Over,
    Report,
}

// One thread with a log and two riders, each of which enters a session.
#[derive(Drop)]
struct Day {
    alloc: Global,
    tried: Tried,
    runs: Runs,
}

impl Day {
    // A job that counts in the same place.
    fn job(&self) -> Result<Ask<Kept<Counting, AnyAnswer>>, Fault> {
        let runs = Arc::try_clone(&self.runs).map_err(|_| Fault::OutOfMemory)?;
        Ok(Ask::User(Kept::new(1, Counting(runs))))
    }

    fn runs(&self) -> u64 {
        self.runs.load(Ordering::SeqCst)
    }

    // A ready action is run by the next help, and not before.
    fn help<R: Wait, L: Realm>(
        &self,
        first: &mut Session<R, L, Counting>,
        second: &mut Session<R, L, Counting>,
    ) -> Result<bool, Fault> {
        first.bump(self.job()?)?;
        let early = first.help()? || second.help()? || self.runs() != 0;
        let helped = first.help()?;
        Ok(!early && helped && self.runs() == 1 && !first.help()?)
    }

    // A frame that nobody frees is waited for as often as was said, and another fault isn't.
    fn attempt<R: Wait, L: Realm>(
        &self,
        session: &mut Session<R, L, Counting>,
    ) -> Result<bool, Fault> {
        let mut tries = 0_u32;
        for _ in 0..2 {
            attempt(session, AGAIN, |session| {
                tries = tries.saturating_add(1);
                session.allocate(4)
            })?;
        }
        let at_once = tries == 2;
        let busy = attempt(session, AGAIN, |session| {
            tries = tries.saturating_add(1);
            session.allocate(4)
        });
        let all = tries == AGAIN + 3 && busy == Err(Fault::Busy { page: 2 });
        let size = attempt(session, AGAIN, |session| {
            tries = tries.saturating_add(1);
            session.allocate(5)
        });
        Ok(at_once && all && tries == AGAIN + 4 && size == Err(Fault::Size))
    }

    // A ticket is safe once it was waited for, and its action is run by the help that comes then.
    fn wait<R: Wait, L: Realm>(
        &self,
        session: &mut Session<R, L, Counting>,
    ) -> Result<bool, Fault> {
        let ticket = session.bump(self.job()?)?;
        let before = session.safe();
        let safe = session.wait(ticket)?;
        let helped = session.help()? && self.runs() == 1;
        let all = session.wait_for_all()?;
        Ok(before < ticket && ticket <= safe && helped && safe < all)
    }

    // An action is over once it was waited for: it is run by then, and not before.
    fn over<R: Wait, L: Realm>(
        &self,
        session: &mut Session<R, L, Counting>,
    ) -> Result<bool, Fault> {
        let ticket = session.bump(self.job()?)?;
        let early = session.is_over(ticket) || self.runs() != 0;
        session.wait_until_over(ticket)?;
        Ok(!early && self.runs() == 1 && session.is_over(ticket))
    }

    // The lines behind the report tell who holds up the oldest action.
    fn report<R: Wait, L: Realm>(
        &self,
        rt: &R,
        session: &mut Session<R, L, Counting>,
    ) -> Result<bool, Fault> {
        let mut text = Vec::new(self.alloc);
        report(rt, session.log(), &mut text)?;
        let none = text.len() == 18 * 37;
        session.bump(self.job()?)?;
        text.clear();
        report(rt, session.log(), &mut text)?;
        let (_, lines) = text.split_at(text.len().min(18 * 37));
        let oldest = b"oldest                             1\n";
        let holder = b"holder                             0\n";
        let epoch = b"at_epoch                           1\n";
        let all = lines.starts_with(oldest) && lines.len() == 3 * 37;
        Ok(none && all && lines[37..].starts_with(holder) && lines[74..].starts_with(epoch))
    }

    // While a session rests, an action that waited for it becomes ready; then the rider enters again.
    fn rest<'a, R: Wait, L: Realm>(
        &self,
        first: Session<'a, R, L, Counting>,
        second: &mut Session<'a, R, L, Counting>,
    ) -> (Result<bool, Fault>, Rider<L>) {
        let waits = self.hold(second);
        let resting = match first.suspend() {
            Ok(resting) => resting,
            Err(Refused { fault, back }) => return (Err(fault), back.abandon()),
        };
        let runs = second.help();
        match resting.resume() {
            Ok(session) => {
                let slot = session.slot();
                let all = waits.and_then(|waits| Ok(waits && runs? && slot == 0));
                (all, left(session))
            }
            Err(Refused { fault, back }) => (Err(fault), back.into_rider()),
        }
    }

    // The same for the time of a closure.
    fn rest_in_place<R: Wait, L: Realm>(
        &self,
        first: &mut Session<R, L, Counting>,
        second: &mut Session<R, L, Counting>,
    ) -> Result<bool, Fault> {
        let waits = self.hold(second)?;
        let runs = first.rest(|_| self.run_two(second))??;
        Ok(waits && runs && self.runs() == 2 && first.slot() == 0 && first.allocate(1)? == 0)
    }

    // Whether the action that waits is run, and then one that is stored now: so it is only while no other session is in
    // the log.
    fn run_two<R: Wait, L: Realm>(
        &self,
        session: &mut Session<R, L, Counting>,
    ) -> Result<bool, Fault> {
        session.bump(self.job()?)?;
        session.refresh()?;
        Ok(session.help()? && session.help()?)
    }

    // Whether an action waits for another session.
    fn hold<R: Wait, L: Realm>(
        &self,
        session: &mut Session<R, L, Counting>,
    ) -> Result<bool, Fault> {
        session.bump(self.job()?)?;
        session.refresh()?;
        match session.take() {
            Ok(ready) => {
                ready.forsake();
                Ok(false)
            }
            Err(fault) => Ok(fault == Fault::NotReady { front: 1, safe: 0 }),
        }
    }

    // What is tried with one session.
    fn alone<R: Wait, L: Realm>(
        &self,
        rt: &R,
        session: &mut Session<R, L, Counting>,
    ) -> Result<bool, Fault> {
        match self.tried {
            Tried::Attempt => self.attempt(session),
            Tried::Wait => self.wait(session),
            Tried::Over => self.over(session),
            _ => self.report(rt, session),
        }
    }

    // What is tried with two.
    fn together<'a, R: Wait, L: Realm>(
        &self,
        mut first: Session<'a, R, L, Counting>,
        second: &mut Session<'a, R, L, Counting>,
    ) -> (Result<bool, Fault>, Rider<L>) {
        match self.tried {
            Tried::Help => {
                let out = self.help(&mut first, second);
                (out, left(first))
            }
            Tried::RestInPlace => {
                let out = self.rest_in_place(&mut first, second);
                (out, left(first))
            }
            _ => self.rest(first, second),
        }
    }
}

// The rider of a session that is left.
fn left<R: Wait, L: Realm>(session: Session<R, L, Counting>) -> Rider<L> {
    match session.leave() {
        Ok(rider) => rider,
        Err(Refused { fault: _, back }) => back.abandon(),
    }
}

impl<R: Wait> Part<R> for Day {
    type Job = Counting;

    type Out = Result<bool, Fault>;

    fn run<L: Realm + Send + Sync>(
        self,
        rt: &R,
        log: &Log<L, Counting>,
        riders: Vec<Rider<L>>,
    ) -> (Result<bool, Fault>, Vec<Rider<L>>) {
        let mut riders = riders;
        let (Some(one), Some(other)) = (riders.pop(), riders.pop()) else {
            return (Err(Fault::Size), riders);
        };
        let mut first = match Session::enter(rt, log, one) {
            Ok(first) => first,
            Err(refused) => return (Err(refused.fault), riders),
        };
        if !matches!(self.tried, Tried::Help | Tried::Rest | Tried::RestInPlace) {
            let out = self.alone(rt, &mut first);
            let _ = riders.push(left(first));
            let _ = riders.push(other);
            return (out, riders);
        }
        let mut second = match Session::enter(rt, log, other) {
            Ok(second) => second,
            Err(refused) => {
                let _ = riders.push(left(first));
                return (Err(refused.fault), riders);
            }
        };
        let (out, one) = self.together(first, &mut second);
        let _ = riders.push(one);
        let _ = riders.push(left(second));
        (out, riders)
    }
}

// Tries it with a log of two frames.
fn is_as_said<R: Wait>(rt: &R, alloc: Global, tried: Tried) -> Result<bool, Fault> {
    let params = Params::checked(4, 2, 2, 16).ok_or(Fault::Size)?;
    let opening = Opening {
        params,
        riders: 2,
        journal: 1_000,
        stamp: 1,
    };
    let runs = Arc::new(alloc, AtomicU64::new(0)).map_err(|_| Fault::OutOfMemory)?;
    let day = Day { alloc, tried, runs };
    let closed = match with_log(rt, alloc, opening, day) {
        Ok(closed) => closed,
        Err(refused) => return Err(refused.fault),
    };
    closed.ending?;
    closed.out
}

#[test]
fn help_runs_a_ready_action(rt: HostRuntime) {
    assert_eq!(rt; is_as_said(&rt, rt.alloc(), Tried::Help), Ok(true));
}

#[test]
fn an_attempt_ends_after_its_tries(rt: HostRuntime) {
    assert_eq!(rt; is_as_said(&rt, rt.alloc(), Tried::Attempt), Ok(true));
}

#[test]
fn a_rest_lets_an_action_become_ready(rt: HostRuntime) {
    assert_eq!(rt; is_as_said(&rt, rt.alloc(), Tried::Rest), Ok(true));
}

#[test]
fn a_session_rests_in_place(rt: HostRuntime) {
    assert_eq!(rt; is_as_said(&rt, rt.alloc(), Tried::RestInPlace), Ok(true));
}

#[test]
fn an_action_is_waited_for(rt: HostRuntime) {
    assert_eq!(rt; is_as_said(&rt, rt.alloc(), Tried::Over), Ok(true));
}

#[test]
fn a_ticket_is_waited_for(rt: HostRuntime) {
    assert_eq!(rt; is_as_said(&rt, rt.alloc(), Tried::Wait), Ok(true));
}

#[test]
fn a_report_tells_who_holds_up(rt: HostRuntime) {
    assert_eq!(rt; is_as_said(&rt, rt.alloc(), Tried::Report), Ok(true));
}
