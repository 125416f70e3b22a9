ghost use Rattle.std.specs.Prelude.{◌≡◌, Ok, option_map, unwrap_or};
ghost use Rattle.hl_answers.specs.Outcomes.{outcome_of, fault_outcome, taken_outcome, frame_outcome, view_outcome, action_outcome, accepted, brief_of, no_core, out_of_range};

use hl_action::Firing;
use hl_model::{Fault, FrameState, Kind, Reply, Tag, View, Waiting};

/// The number of a call on a handle at which no core is open, and of an open on one at which one is.
pub const NO_CORE: u64 = 255;
/// The number of a call with sizes, a place, a frame or the pages of a lag out of range.
pub const OUT_OF_RANGE: u64 = 254;

/// A reply as numbers: 0 and up to four numbers of an accepted step, the fault's number and up to two for a
/// fault.
#[repr(C)]
#[derive(Clone, Copy, Drop)]
pub struct Outcome {
    pub number: u64,
    pub a: u64,
    pub b: u64,
    pub c: u64,
    pub d: u64,
}

/// The same for a step of which one number is told: it goes back in two registers.
#[repr(C)]
#[derive(Clone, Copy, Drop)]
pub struct Brief {
    pub number: u64,
    pub a: u64,
}

impl Outcome {
    /// Its number, and the first of those that it carries.
    #[inline(always)]
    pub fn brief(self) -> Brief
        ensures { result ≡ brief_of self }
    {
        Brief {
            number: self.number,
            a: self.a,
        }
    }

    /// Of a call that was refused with no fault of the core's.
    pub fn no_core() -> Outcome
        ensures { result ≡ no_core }
    {
        Outcome {
            number: NO_CORE,
            a: 0,
            b: 0,
            c: 0,
            d: 0,
        }
    }

    pub fn out_of_range() -> Outcome
        ensures { result ≡ out_of_range }
    {
        Outcome {
            number: OUT_OF_RANGE,
            a: 0,
            b: 0,
            c: 0,
            d: 0,
        }
    }

    /// A reply of these numbers.
    #[inline(always)]
    pub fn accepted(a: u64, b: u64, c: u64, d: u64) -> Outcome
        ensures { result ≡ accepted a b c d }
    {
        Outcome {
            number: 0,
            a,
            b,
            c,
            d,
        }
    }

    /// A step's reply.
    #[inline(always)]
    pub fn of(reply: Result<Reply, Fault>) -> Outcome
        ensures { result ≡ outcome_of reply }
    {
        match reply {
            Ok(reply) => Outcome::of_reply(reply),
            Err(fault) => Outcome::of_fault(fault),
        }
    }

    #[inline(always)]
    fn of_reply(reply: Reply) -> Outcome
        ensures { result ≡ outcome_of (Ok reply) }
    {
        match reply {
            Reply::Entered { epoch, view } => {
                Outcome::accepted(epoch, view.read_only, view.head, view.tail)
            }
            Reply::Looked(view) => Outcome::accepted(0, view.read_only, view.head, view.tail),
            Reply::Ran(tag) => Outcome::accepted(tag, 1, 0, 0),
            Reply::Settled(x) => Outcome::accepted(x, 2, 0, 0),
            Reply::Closed(x) => Outcome::accepted(x, 3, 0, 0),
            Reply::Left | Reply::Written | Reply::Readable => Outcome::accepted(0, 0, 0, 0),
            Reply::Ticket(x)
            | Reply::Bumped(x)
            | Reply::Taken(x)
            | Reply::Answer(x)
            | Reply::Raised(x)
            | Reply::Shifted(x)
            | Reply::At(x)
            | Reply::Value(x)
            | Reply::Page(x)
            | Reply::Flushed(x)
            | Reply::Freed(x) => Outcome::accepted(x, 0, 0, 0),
        }
    }

    #[inline(always)]
    pub fn of_fault(fault: Fault) -> Outcome
        ensures { result ≡ fault_outcome fault }
    {
        let number = fault.number() as u64;
        let (a, b) = match fault {
            Fault::NotReady { front, safe } => (front, safe),
            Fault::Busy { page: x }
            | Fault::Below { read_only: x }
            | Fault::Beyond { tail: x }
            | Fault::Evicted { head: x }
            | Fault::Stranger { stamp: x }
            | Fault::BadLine { n: x } => (x, 0),
            _ => (0, 0),
        };
        Outcome {
            number,
            a,
            b,
            c: 0,
            d: 0,
        }
    }

    /// What a take returns.
    #[inline(always)]
    pub fn of_taken(taken: Result<(Firing, Option<Tag>), Fault>) -> Outcome
        ensures { result ≡ taken_outcome taken }
    {
        match taken {
            Ok((firing, job)) => {
                let ticket = firing.ticket();
                match job {
                    Some(tag) => Outcome::accepted(ticket, 1, tag.0, 0),
                    None => Outcome::accepted(ticket, 0, 0, 0),
                }
            }
            Err(fault) => Outcome::of_fault(fault),
        }
    }

    /// A frame's state, and its page.
    pub fn of_frame(state: FrameState, page: Option<u64>) -> Outcome
        ensures { result ≡ frame_outcome (state, page) }
    {
        let number = match state {
            FrameState::Opened => 0,
            FrameState::Sealed => 1,
            FrameState::Flushed => 2,
            FrameState::Closed => 3,
            FrameState::Free => 4,
        };
        match page {
            Some(page) => Outcome::accepted(number, 1, page, 0),
            None => Outcome::accepted(number, 0, 0, 0),
        }
    }

    /// A slot's view.
    pub fn of_view(view: Option<View>) -> Outcome
        ensures { result ≡ view_outcome view }
    {
        match view {
            Some(view) => Outcome::accepted(1, view.read_only, view.head, view.tail),
            None => Outcome::accepted(0, 0, 0, 0),
        }
    }

    /// A pending action, if there is one, of so many.
    pub fn of_pending(found: Option<Waiting>, count: u64) -> Outcome
        ensures { result ≡ unwrap_or (option_map (action_outcome count) found) out_of_range }
    {
        match found {
            Some(action) => Outcome::of_action(&action, count),
            None => Outcome::out_of_range(),
        }
    }

    /// A pending action, of so many.
    fn of_action(action: &Waiting, count: u64) -> Outcome
        ensures { result ≡ action_outcome count action.now }
    {
        match action.kind {
            Kind::User(tag) => Outcome::accepted(action.ticket, 1, tag, count),
            Kind::Settle(x) => Outcome::accepted(action.ticket, 2, x, count),
            Kind::Close(x) => Outcome::accepted(action.ticket, 3, x, count),
        }
    }
}
