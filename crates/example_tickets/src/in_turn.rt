//! A thread draws a ticket behind another, of which it knows by a number alone.
ghost use Rattle.std.specs.Prelude.{◌≡◌, Ok, Some, slice_get, IfSome};
ghost use Rattle.hl.specs.Openings.{of_sizes};
ghost use Rattle.example_tickets.specs.InTurn.{DrewFirst, DrewSecond, AreInTurn};

use crate::bump_once;
use hl::{
    AnyAnswer, Duty, Ending, Fault, HasSizes, NoJob, Opening, Realm, Session, Work, with_threads,
};
use hl_domain::laws::later_calls_begin;
use std::alloc::Global;
use std::sync::{Mutex, Wait};
use std::thread;
use std::thread::Threads;

/// How often the second thread looks for the number.
const LOOKS: u64 = 1_000;

/// Two threads bump. The first one leaves under a plain lock how many steps there were after its bump.
#[derive(Drop)]
struct OneAfterOther {
    left: Mutex<Option<u64>>,
}

/// A thread's ticket, and the number of steps that the first one left.
#[derive(Clone, Copy)]
struct Answer {
    ticket: u64,
    steps: u64,
}

impl<R: Wait> Work<R> for OneAfterOther {
    ghost use Rattle.example_tickets.specs.InTurn.{answers};

    type Job = NoJob;

    type Out = Option<Answer>;

    ghost returns = { λ _. answers };

    fn run<L: Realm + Send + Sync>(
        &self,
        rt: &R,
        session: &mut Session<R, L>,
        number: u64,
    ) -> Option<Answer> {
        match number {
            0 => self.draw_first(rt, session),
            1 => self.draw_second(rt, session),
            _ => None,
        }
    }

    fn write_page(&self, _rt: &R, _page: u64, _image: &[u8]) -> bool {
        true
    }
}

impl OneAfterOther {
    // Bumps, and leaves the number of steps after that.
    fn draw_first<R: Wait, L: Realm>(&self, rt: &R, session: &mut Session<R, L>) -> Option<Answer>
        ensures { IfSome result (λ answer. DrewFirst answer.ticket answer.steps
            session.old.pass.rider.calls session.new.pass.rider.calls) }
    {
        let ticket = bump_once(session).ok()?;
        let steps = session.steps();
        *self.left.lock(rt) = Some(steps);
        Some(Answer { ticket, steps })
    }

    // Bumps, if a number was left and there are no fewer steps by then.
    fn draw_second<R: Wait, L: Realm>(&self, rt: &R, session: &mut Session<R, L>) -> Option<Answer>
        ensures { IfSome result (λ answer. DrewSecond answer.ticket answer.steps
            session.old.pass.rider.calls session.new.pass.rider.calls) }
    {
        let steps = self.take_left(rt)?;
        if session.steps() < steps {
            return None;
        }
        let ticket = bump_once(session).ok()?;
        Some(Answer { ticket, steps })
    }

    // The number that was left; `None` if there is none after some looks.
    fn take_left<R: Wait>(&self, rt: &R) -> Option<u64> {
        for _ in 0..LOOKS {
            let left = self.left.lock(rt).take();
            if left.is_some() {
                return left;
            }
            thread::yield_now();
        }
        None
    }
}

/// The tickets of two threads of which one bumped after the other, and what is left of their log.
#[derive(Drop)]
pub struct InTurn {
    pub first: u64,
    pub second: u64,
    pub ending: Ending<NoJob, AnyAnswer>,
}

/// Opens a log in which a thread bumps and tells how many steps there are then, and another one bumps once it was told that
/// number and there are no fewer; other threads do nothing. The first one's ticket is below that of the other.
///
/// `None` if the second thread wasn't told in time, if the log has no two threads, if a thread or memory was refused, or
/// if the opening doesn't fit the duty.
pub fn draw_in_turn<R: Threads + Wait + Sync, S: HasSizes>(
    rt: &R,
    alloc: Global,
    opening: Opening<S>,
    duty: Duty,
) -> Option<InTurn>
    ensures { IfSome result (AreInTurn (of_sizes S.sizes_of opening)) }
{
    later_calls_begin::<NoJob>();
    let left = Mutex::new(None);
    let closed = with_threads(rt, alloc, opening, duty, &OneAfterOther { left }).ok()?;
    let outs = closed.out.outs;
    let ending = closed.ending.ok()?;
    let first = answer_of(&outs, 0)?;
    let second = answer_of(&outs, 1)?;
    // What passes through a lock is known by its type alone: whether it was that number is seen here.
    if first.steps != second.steps {
        return None;
    }
    Some(InTurn {
        first: first.ticket,
        second: second.ticket,
        ending,
    })
}

// What the thread of this number answered.
fn answer_of(outs: &[Result<Option<Answer>, Fault>], number: usize) -> Option<Answer>
    ensures { IfSome result (λ answer. slice_get outs.now number ≡ Some (Ok (Some answer))) }
{
    match outs.get(number) {
        Some(Ok(Some(answer))) => Some(*answer),
        _ => None,
    }
}
