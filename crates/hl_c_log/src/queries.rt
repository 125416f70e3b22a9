//! What a log has, under the caller's lock.
ghost use Rattle.hl_model.specs.Snapshots.{six, snapshot_of};
ghost use Rattle.hl_answers.specs.Lags.{lag_answer, no_lag};
ghost use Rattle.hl_answers.specs.Outcomes.{six_outcome, no_six, snapshot_outcome, no_snapshot, no_core};
ghost use Rattle.hl_c_log.specs.Holders.{holder_told};
ghost use Rattle.hl_c_log.specs.Logs.{Tells};

use crate::holders::holder_at;
use crate::log_handle::LogHandle;
use hl_answers::{LagOutcome, Outcome, SixOutcome, SnapshotOutcome};

/// The six offsets.
#[unsafe(no_mangle)]
pub extern "C" fn hl_log_six(log: &mut LogHandle) -> SixOutcome
    ensures { Tells log.old.slot.value (λ sizes A. six_outcome (six sizes A)) no_six
        log.new.slot.value result }
{
    match log.take() {
        Some(held) => {
            let outcome = SixOutcome::of(held.core().six());
            log.put(held);
            outcome
        }
        None => SixOutcome::no_core(),
    }
}

/// All quantities.
#[unsafe(no_mangle)]
pub extern "C" fn hl_log_snapshot(log: &mut LogHandle) -> SnapshotOutcome
    ensures { Tells log.old.slot.value (λ sizes A. snapshot_outcome (snapshot_of sizes A))
        no_snapshot log.new.slot.value result }
{
    match log.take() {
        Some(held) => {
            let outcome = SnapshotOutcome::of(held.core().snapshot());
            log.put(held);
            outcome
        }
        None => SnapshotOutcome::no_core(),
    }
}

/// The steps by which the offsets follow the tail, for whoever wants about `mutable` pages at the tail to be
/// written and about `resident` to be read. It makes none of them. Out of range unless `1 <= mutable <=
/// resident < F`.
#[unsafe(no_mangle)]
pub extern "C" fn hl_log_lag(log: &mut LogHandle, mutable: u64, resident: u64) -> LagOutcome
    ensures { Tells log.old.slot.value (λ sizes A. lag_answer sizes (six sizes A) mutable resident)
        (no_lag 255) log.new.slot.value result }
{
    match log.take() {
        Some(held) => {
            let core = held.core();
            let outcome = LagOutcome::of(core.params(), core.six(), mutable, resident);
            log.put(held);
            outcome
        }
        None => LagOutcome::no_core(),
    }
}

/// Returns the slot at a place among those that hold the oldest pending action up, least first, with its
/// epoch; the action's ticket, and how many slots hold it up. Out of range if there is none.
#[unsafe(no_mangle)]
pub extern "C" fn hl_log_holders(log: &mut LogHandle, place: u64) -> Outcome
    ensures { Tells log.old.slot.value (λ sizes A. holder_told sizes.slots A place)
        no_core log.new.slot.value result }
{
    match log.take() {
        Some(held) => {
            let outcome = holder_at(held.core(), place);
            log.put(held);
            outcome
        }
        None => Outcome::no_core(),
    }
}
