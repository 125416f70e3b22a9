//! What reply each step has, told what was present before it and what is with it.

ghost use Rattle.std.specs.Prelude.{◌≡◌, ◌==◌, ◌^◌, ◌≤◌, None, find, unwrap_or};
ghost use Rattle.hl_model.specs.Actions.{first_ticket};
ghost use Rattle.hl_model.specs.Offsets.{place_of};
ghost use Rattle.hl_model.specs.Bases.{slot_in};
ghost use Rattle.hl_model.specs.Replies.{kind_or_job_0};
ghost use Rattle.hl_model.specs.AfterReplies.{entered_at, looked_at, done_answer_at, fault_at, answer_at};

use crate::offsets::place_of;
use crate::pages::Work;
use crate::present::Present;
use crate::turns::next_page;
use hl_model::{Kind, Reply, Step, Waiting};

// The reply to an acquire and a refresh of slot t, after it.
fn entered(present: &Present, t: u64) -> Reply
    ensures { result ≡ entered_at (slot_in present.now t) }
{
    match present.slot(t) {
        None => Reply::Left,
        Some(slot) => Reply::Entered {
            epoch: slot.epoch,
            view: slot.view,
        },
    }
}

// The reply to a look of slot t, after it.
fn looked(present: &Present, t: u64) -> Reply
    ensures { result ≡ looked_at (slot_in present.now t) }
{
    match present.slot(t) {
        None => Reply::Left,
        Some(slot) => Reply::Looked(slot.view),
    }
}

// The ticket of the oldest pending action, or 0 if none is pending, and no take is accepted.
fn front(present: &Present) -> u64
    ensures { result ≡ first_ticket present.now.waiting }
{
    match present.waiting().first() {
        None => 0,
        Some(oldest) => oldest.ticket,
    }
}

// The taken action of this ticket.
fn taken_at(present: &Present, ticket: u64) -> Option<Waiting>
    ensures { result ≡ find (λ w. w.ticket == ticket) present.now.taken }
{
    let taken = present.taken();
    for action in taken.as_slice() {
        if action.ticket == ticket {
            return Some(*action);
        }
    }
    None
}

// The kind of the taken action of this ticket, or a job of tag 0 if there is none, which no accepted done
// names.
fn kind_at(present: &Present, ticket: u64) -> Kind
    ensures { result ≡ kind_or_job_0 (find (λ w. w.ticket == ticket) present.now.taken) }
{
    match taken_at(present, ticket) {
        None => Kind::User(0),
        Some(action) => action.kind,
    }
}

// The reply to a done of this kind, after it.
fn done_answer(present: &Present, kind: Kind) -> Reply
    ensures { result ≡ done_answer_at present.now kind }
{
    match kind {
        Kind::User(tag) => Reply::Ran(tag),
        Kind::Settle(_) => Reply::Settled(present.safe_read_only()),
        Kind::Close(_) => Reply::Closed(present.closed()),
    }
}

// The reply to a take of this page, or of page 0 if there is none, which no accepted take meets.
fn page_told(page: Option<u64>) -> Reply
    ensures { result ≡ Reply.Page (unwrap_or page 0) }
{
    Reply::Page(page.unwrap_or(0))
}

// The place of a record of n words, which is accepted.
fn placed(present: &Present, n: u64) -> Reply
    requires { n ≤ 2 ^ 48 }
    ensures { result ≡ Reply.At (place_of present.now.sizes.page_size present.now.six.tail n) }
{
    Reply::At(place_of(present.params(), present.tail(), n))
}

/// The reply to an accepted step.
pub fn answer_at(before: &Present, after: &Present, step: &Step) -> Reply
    requires { fault_at before.now step.now ≡ None }
    ensures { result ≡ answer_at before.now after.now step.now }
{
    match *step {
        Step::Acquire { t } | Step::Refresh { t } => entered(after, t),
        Step::Release { .. } => Reply::Left,
        Step::Bump { .. } | Step::Settle | Step::Close => Reply::Ticket(before.epoch()),
        Step::Bare => Reply::Bumped(before.epoch()),
        Step::Take => Reply::Taken(front(before)),
        Step::Done { ticket } => done_answer(after, kind_at(before, ticket)),
        Step::Raise { .. } => Reply::Raised(after.read_only()),
        Step::Shift { .. } => Reply::Shifted(after.head()),
        Step::Allocate { n, .. } => placed(before, n),
        Step::Look { t, .. } => looked(after, t),
        Step::Write { .. } => Reply::Written,
        Step::Read { .. } => Reply::Readable,
        Step::FlushTake => page_told(next_page(Work::Flushing, before)),
        Step::FlushDone { .. } => Reply::Flushed(after.flushed()),
        Step::CleanTake => page_told(next_page(Work::Cleaning, before)),
        Step::CleanDone { page } => Reply::Freed(page),
    }
}
