use hl_model::{Six, Snapshot};
use hl_monitor::report;

/// Each number.
const LAST: u64 = u64::MAX;

// A report of the last numbers goes to a writer that takes it.
#[test]
fn a_report_of_the_last_numbers(rt: HostRuntime) {
    let six = Six {
        closed: LAST,
        head: LAST,
        flushed: LAST,
        safe_read_only: LAST,
        read_only: LAST,
        tail: LAST,
    };
    let snapshot = Snapshot {
        epoch: LAST,
        safe: LAST,
        protected: LAST,
        pending: LAST,
        taken: LAST,
        six,
        frames: [LAST; 5],
    };
    let mut text = Vec::new(rt.alloc());
    assert_eq!(rt; report(&snapshot, LAST, LAST, &mut text), Ok(()));
}
