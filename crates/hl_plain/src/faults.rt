//! The fault that a step meets, kind by kind, told what is present.

ghost use Rattle.std.specs.Prelude.{◌≡◌, ◌^◌, ◌≤◌, ◌*◌, ◌==◌, if◌then◌else◌, Option, Some, None, IfOk, IfErr};
ghost use Rattle.std.specs.List.{list_any};
ghost use Rattle.hl_model.specs.declared.fault.Fault.{Fault};
ghost use Rattle.hl_model.specs.declared.view.View.{View};
ghost use Rattle.hl_model.specs.Bases.{safe_in, freed_in};
ghost use Rattle.hl_model.specs.Replies.{raise_fault, shift_fault, size_fault, unless_page};
ghost use Rattle.hl_model.specs.AfterReplies.{acquire_fault_at, view_fault_at, bare_fault_at, bump_fault_at, take_fault_at, page_fault_at, allocate_fault_at, look_fault_of, write_fault_of, read_fault_of, fault_at};
ghost use Rattle.hl_plain.specs.Presents.{IsOwn};
ghost use Rattle.hl_plain.specs.Works.{out_in, next_in};

use crate::offsets::place_of;
use crate::pages::Work;
use crate::present::Present;
use crate::safe::safe;
use crate::turns::{is_freed, is_out, next_page};
use hl_model::{EPOCH_LAST, EPOCH_WINDOW, Fault, Sizes, Step, TAIL_MOST, View};

// The fault of a step that wants slot t unprotected.
fn acquire_fault(present: &Present, t: u64) -> Option<Fault>
    ensures { result ≡ acquire_fault_at present.now t }
{
    if present.params().slots() <= t {
        Some(Fault::NoSlot)
    } else if present.slot(t).is_some() {
        Some(Fault::Occupied)
    } else {
        None
    }
}

// The view of slot t, or the fault of a step that wants it protected.
fn seen(present: &Present, t: u64) -> Result<View, Fault>
    ensures ok { IfOk result (λ view. (f : View → Option Fault) → view_fault_at present.now t f ≡ f view) }
    ensures err { let here = present.now
        in IfErr result (λ fault. (f : View → Option Fault) → view_fault_at here t f ≡ Some fault) }
{
    if present.params().slots() <= t {
        return Err(Fault::NoSlot);
    }
    match present.slot(t) {
        None => Err(Fault::NotProtected),
        Some(slot) => Ok(slot.view),
    }
}

// The fault of a bare bump.
fn bare_fault(present: &Present) -> Option<Fault>
    ensures { result ≡ bare_fault_at present.now }
{
    let epoch = present.epoch();
    let ended = epoch.saturating_sub(1);
    if epoch == EPOCH_LAST {
        Some(Fault::EpochsSpent)
    } else if ended.saturating_sub(safe(present)) == EPOCH_WINDOW {
        Some(Fault::WindowFull)
    } else {
        None
    }
}

// The fault of a bump that stores an action: the pending and the taken ones fill the drain list.
fn bump_fault(present: &Present) -> Option<Fault>
    ensures { result ≡ bump_fault_at present.now }
{
    let held = present.waiting().len() + present.taken().len();
    if held as u64 == present.params().drain() {
        Some(Fault::DrainFull)
    } else {
        bare_fault(present)
    }
}

// The fault of a take.
fn take_fault(present: &Present) -> Option<Fault>
    ensures { result ≡ take_fault_at present.now }
{
    let waiting = present.waiting();
    let Some(oldest) = waiting.first() else {
        return Some(Fault::Empty);
    };
    let front = oldest.ticket;
    let safe = safe(present);
    if safe < front {
        Some(Fault::NotReady { front, safe })
    } else {
        None
    }
}

// Whether the action of this ticket is taken and not done.
fn is_taken(present: &Present, ticket: u64) -> bool
    ensures { result ≡ list_any (λ w. w.ticket == ticket) present.now.taken }
{
    let taken = present.taken();
    taken.iter().any(|action| action.ticket == ticket)
}

// The fault of a done of this ticket.
fn done_fault(present: &Present, ticket: u64) -> Option<Fault>
    ensures { let taken = present.now.taken
        in result ≡ (if list_any (λ w. w.ticket == ticket) taken then None else Some Fault.NotTaken) }
{
    if is_taken(present, ticket) {
        None
    } else {
        Some(Fault::NotTaken)
    }
}

// The fault of a raise of the read-only offset to x.
fn raise_fault(present: &Present, x: u64) -> Option<Fault>
    ensures { result ≡ raise_fault present.now.six.read_only present.now.six.tail x }
{
    if x <= present.read_only() {
        Some(Fault::NotAbove)
    } else if present.tail() < x {
        Some(Fault::AboveTail)
    } else {
        None
    }
}

// The fault of a shift of the head to x.
fn shift_fault(present: &Present, x: u64) -> Option<Fault>
    ensures { let six = present.now.six
        in result ≡ shift_fault present.now.sizes.page_size six.head six.flushed x }
{
    if x <= present.head() {
        Some(Fault::NotAbove)
    } else if x % present.params().page_size() != 0 {
        Some(Fault::NotPage)
    } else if present.flushed() < x {
        Some(Fault::AboveFlushed)
    } else {
        None
    }
}

// The fault of a record's size, told the tail: a record of n words is on one page, and within the space.
fn size_fault(params: Sizes, tail: u64, n: u64) -> Option<Fault>
    requires { tail ≤ 2 ^ 48 }
    ensures { result ≡ size_fault params.page_size tail n }
{
    if n == 0 || params.page_size() < n {
        Some(Fault::Size)
    } else if TAIL_MOST < place_of(params, tail, n) + n {
        Some(Fault::SpaceSpent)
    } else {
        None
    }
}

// The fault of a record's page: it isn't entered and may not be.
fn page_fault(present: &Present, q: u64) -> Option<Fault>
    requires { q * present.now.sizes.page_size ≤ 2 ^ 49 }
    ensures { result ≡ page_fault_at present.now q }
{
    let params = present.params();
    let frames = params.frames();
    if q * params.page_size() < present.tail()
        || q < frames
        || is_freed(present, q.saturating_sub(frames))
    {
        None
    } else {
        Some(Fault::Busy { page: q })
    }
}

// The fault of a record of n words.
fn allocate_fault(present: &Present, n: u64) -> Option<Fault>
    ensures { result ≡ allocate_fault_at present.now n }
{
    let params = present.params();
    let tail = present.tail();
    if let Some(fault) = size_fault(params, tail, n) {
        return Some(fault);
    }
    page_fault(present, place_of(params, tail, n) / params.page_size())
}

// The fault of a look at these offsets, told the view.
fn look_fault(read_only: u64, head: u64, view: View) -> Option<Fault>
    ensures { result ≡ look_fault_of read_only head view }
{
    if read_only < view.read_only || head < view.head {
        Some(Fault::Stale)
    } else {
        None
    }
}

// The fault of a write at address a, told the view.
fn write_fault(a: u64, view: View) -> Option<Fault>
    ensures { result ≡ write_fault_of a view }
{
    let View {
        read_only,
        tail,
        ..
    } = view;
    if a < read_only {
        Some(Fault::Below { read_only })
    } else if tail <= a {
        Some(Fault::Beyond { tail })
    } else {
        None
    }
}

// The fault of a read at address a, told the view.
fn read_fault(a: u64, view: View) -> Option<Fault>
    ensures { result ≡ read_fault_of a view }
{
    let View { head, tail, .. } = view;
    if a < head {
        Some(Fault::Evicted { head })
    } else if tail <= a {
        Some(Fault::Beyond { tail })
    } else {
        None
    }
}

// The fault of a take of a page: this one, if no page waits.
fn turn_fault(work: Work, present: &Present, fault: Fault) -> Option<Fault>
    ensures { result ≡ unless_page fault (next_in present.now work) }
{
    match next_page(work, present) {
        None => Some(fault),
        Some(_) => None,
    }
}

// The fault of an end of the work on page p: this one, if the page isn't out.
fn return_fault(work: Work, present: &Present, p: u64, fault: Fault) -> Option<Fault>
    ensures { result ≡ (if out_in present.now work p then None else Some fault) }
{
    if is_out(work, present, p) {
        None
    } else {
        Some(fault)
    }
}

// The fault of a step by the thread of slot t.
fn thread_fault(present: &Present, t: u64, step: &Step) -> Option<Fault>
    requires { IsOwn t step.now }
    ensures { result ≡ fault_at present.now step.now }
{
    let view = match seen(present, t) {
        Err(fault) => return Some(fault),
        Ok(view) => view,
    };
    match *step {
        Step::Allocate { n, .. } => allocate_fault(present, n),
        Step::Look {
            read_only,
            head,
            ..
        } => look_fault(read_only, head, view),
        Step::Write { a, .. } => write_fault(a, view),
        Step::Read { a, .. } => read_fault(a, view),
        _ => None,
    }
}

/// The first fault that a step meets.
pub fn fault_at(present: &Present, step: &Step) -> Option<Fault>
    ensures { result ≡ fault_at present.now step.now }
{
    match *step {
        Step::Acquire { t } => acquire_fault(present, t),
        Step::Refresh { t }
        | Step::Release { t }
        | Step::Allocate { t, .. }
        | Step::Look { t, .. }
        | Step::Write { t, .. }
        | Step::Read { t, .. } => thread_fault(present, t, step),
        Step::Bump { .. } | Step::Settle | Step::Close => bump_fault(present),
        Step::Bare => bare_fault(present),
        Step::Take => take_fault(present),
        Step::Done { ticket } => done_fault(present, ticket),
        Step::Raise { x } => raise_fault(present, x),
        Step::Shift { x } => shift_fault(present, x),
        Step::FlushTake => turn_fault(Work::Flushing, present, Fault::NoneSealed),
        Step::FlushDone { page, .. } => {
            return_fault(Work::Flushing, present, page, Fault::NotInFlight)
        }
        Step::CleanTake => turn_fault(Work::Cleaning, present, Fault::NoneClosed),
        Step::CleanDone { page } => {
            return_fault(Work::Cleaning, present, page, Fault::NotCleaning)
        }
    }
}
