ghost use Rattle.std.specs.Prelude.{if◌then◌else◌, nat_lt};
ghost use Rattle.hl_model.specs.Actions.{pending};
ghost use Rattle.hl_model.specs.Frames.{frame_of};
ghost use Rattle.hl_model.specs.Snapshots.{six, snapshot_of};
ghost use Rattle.hl_model.specs.Views.{slot_view};
ghost use Rattle.hl_c.specs.Doors.{Tells};
ghost use Rattle.hl_answers.specs.Lags.{lag_answer, no_lag};
ghost use Rattle.hl_answers.specs.Outcomes.{six_outcome, no_six, snapshot_outcome, no_snapshot, pending_told, frame_outcome, view_outcome, no_core, out_of_range};

use crate::handle::Handle;
use hl_answers::{LagOutcome, Outcome, SixOutcome, SnapshotOutcome};

/// The six offsets.
#[unsafe(no_mangle)]
pub extern "C" fn hl_six(handle: &mut Handle) -> SixOutcome
    ensures { Tells handle.old.slot.value (λ sizes A. six_outcome (six sizes A))
        no_six handle.new.slot.value result }
{
    match handle.take_core() {
        Some(core) => {
            let outcome = SixOutcome::of(core.six());
            handle.put_core(core);
            outcome
        }
        None => SixOutcome::no_core(),
    }
}

/// All quantities.
#[unsafe(no_mangle)]
pub extern "C" fn hl_snapshot(handle: &mut Handle) -> SnapshotOutcome
    ensures { Tells handle.old.slot.value (λ sizes A. snapshot_outcome (snapshot_of sizes A))
        no_snapshot handle.new.slot.value result }
{
    match handle.take_core() {
        Some(core) => {
            let outcome = SnapshotOutcome::of(core.snapshot());
            handle.put_core(core);
            outcome
        }
        None => SnapshotOutcome::no_core(),
    }
}

/// The steps by which the offsets follow the tail, for whoever wants about `mutable` pages at the tail to be
/// written and about `resident` to be read. It makes none of them. Out of range unless `1 <= mutable <=
/// resident < F`: with all frames resident, none would ever come free.
#[unsafe(no_mangle)]
pub extern "C" fn hl_lag(handle: &mut Handle, mutable: u64, resident: u64) -> LagOutcome
    ensures { Tells handle.old.slot.value (λ sizes A. lag_answer sizes (six sizes A) mutable resident)
        (no_lag 255) handle.new.slot.value result }
{
    match handle.take_core() {
        Some(core) => {
            let outcome = LagOutcome::of(core.params(), core.six(), mutable, resident);
            handle.put_core(core);
            outcome
        }
        None => LagOutcome::no_core(),
    }
}

/// Returns the pending action at a place, 0 being the oldest, and how many are pending. Out of range if there
/// is none.
#[unsafe(no_mangle)]
pub extern "C" fn hl_pending(handle: &mut Handle, place: u64) -> Outcome
    ensures { Tells handle.old.slot.value (λ sizes A. pending_told place (pending A))
        no_core handle.new.slot.value result }
{
    match handle.take_core() {
        Some(core) => {
            let outcome = Outcome::of_pending(core.pending_at(place), core.pending_count());
            handle.put_core(core);
            outcome
        }
        None => Outcome::no_core(),
    }
}

/// Returns a frame's state, and its page, if it has one. Out of range if there is no such frame.
#[unsafe(no_mangle)]
pub extern "C" fn hl_frame(handle: &mut Handle, frame: u64) -> Outcome
    ensures { Tells handle.old.slot.value
        (λ sizes A. if nat_lt frame sizes.frames
        then frame_outcome (frame_of sizes frame A) else out_of_range)
        no_core handle.new.slot.value result }
{
    match handle.take_core() {
        Some(core) => {
            let outcome = if frame < core.params().frames() {
                let (state, page) = core.frame(frame);
                Outcome::of_frame(state, page)
            } else {
                Outcome::out_of_range()
            };
            handle.put_core(core);
            outcome
        }
        None => Outcome::no_core(),
    }
}

/// Returns a slot's view, if it is protected. Out of range if there is no such slot.
#[unsafe(no_mangle)]
pub extern "C" fn hl_view(handle: &mut Handle, slot: u64) -> Outcome
    ensures { Tells handle.old.slot.value
        (λ sizes A. if nat_lt slot sizes.slots then view_outcome (slot_view sizes slot A) else out_of_range)
        no_core handle.new.slot.value result }
{
    match handle.take_core() {
        Some(core) => {
            let outcome = if slot < core.params().slots() {
                Outcome::of_view(core.view(slot))
            } else {
                Outcome::out_of_range()
            };
            handle.put_core(core);
            outcome
        }
        None => Outcome::no_core(),
    }
}
