//! The threads of `hl::with_threads` bump once each: that one list is behind all answers says which answers they get.
//!
//! No two threads are answered the same ticket, and each ticket is at least 1 and below the epoch at the end. The
//! crew bumps too, so that a ticket may be greater than the number of threads.
//!
//! [`draw_in_turn`] has an order: a thread tells another how many steps there were after its bump, through a plain lock,
//! and the other sees that there are no fewer before its own. Then its own ticket is greater.
#![tactic(auto)]

mod in_turn;

ghost use Rattle.std.specs.Prelude.{◌≡◌, true, false, Err, IfOk, IfErr, is_some, ⊤};
ghost use Rattle.hl_model.specs.declared.fault.Fault.TheVariants.{OutOfMemory, Size};
ghost use Rattle.hl.specs.Openings.{of_sizes, opened_as};
ghost use Rattle.hl.specs.Crews.{can_run};
ghost use Rattle.hl.specs.Closings.{IsClosed, AreAllReturned};
ghost use Rattle.example_tickets.specs.Tickets.{Bumped, bumps_once, AreTickets};

use hl::{
    Ask, Closed, Duty, Fault, HasSizes, NoJob, Opening, Realm, Returned, Session, Work,
    with_threads,
};
pub use in_turn::{InTurn, draw_in_turn};
use std::alloc::Global;
use std::sync::Wait;
use std::thread::Threads;

/// Each thread bumps once, and returns its ticket.
struct OneBump;

impl<R: Wait> Work<R> for OneBump {
    ghost use Rattle.example_tickets.specs.Tickets.{bumps_once};

    type Job = NoJob;

    type Out = Result<u64, Fault>;

    ghost returns = { λ _. bumps_once };

    fn run<L: Realm + Send + Sync>(
        &self,
        _rt: &R,
        session: &mut Session<R, L>,
        _number: u64,
    ) -> Result<u64, Fault> {
        bump_once(session)
    }

    fn write_page(&self, _rt: &R, _page: u64, _image: &[u8]) -> bool {
        true
    }
}

// Bumps, and returns the ticket.
fn bump_once<R: Wait, L: Realm>(session: &mut Session<R, L>) -> Result<u64, Fault>
    ensures { IfOk result (Bumped session.old.pass.rider.calls session.new.pass.rider.calls) }
{
    match session.bump(Ask::Settle) {
        Ok(ticket) => Ok(ticket),
        Err(refused) => Err(refused.fault),
    }
}

/// What threads left that bumped once each: their answers in the order of their numbers, and what is left of their log.
pub type Drawn = Closed<Returned<Result<u64, Fault>>>;

/// Opens a log, lets each of its threads bump once beside the crew, and closes it: what they left. Of the threads that
/// weren't refused no two have the same ticket, whether or not others were.
///
/// Faults, those of `with_threads`: `Size` if the opening doesn't fit the duty, `OutOfMemory`.
pub fn draw<R: Threads + Wait + Sync, S: HasSizes>(
    rt: &R,
    alloc: Global,
    opening: Opening<S>,
    duty: Duty,
) -> Result<Drawn, Fault>
    ensures size { can_run (of_sizes S.sizes_of opening) duty ≡ false → result ≡ Err Size }
    ensures memory { can_run (of_sizes S.sizes_of opening) duty ≡ true
        → IfErr result (λ fault. fault ≡ OutOfMemory) }
    ensures closed { let o = of_sizes S.sizes_of opening
        in IfOk result (IsClosed o
        (AreAllReturned NoJob (opened_as o) (is_some duty.cut_above) bumps_once (λ _ _. ⊤))) }
    ensures tickets { IfOk result (λ drawn. IfOk drawn.ending
        (λ ending. AreTickets opening.riders drawn.out.outs.items ending.snapshot.epoch)) }
{
    with_threads(rt, alloc, opening, duty, &OneBump)
}
