//! A crew that goes on to clean pages, in several turns.
use crate::crew::{ONE_TURN, Run, crew_left, seed};
use hl_counts::CountTable;
use hl_crew::OpenGate;
use hl_model::Six;
use std::marker::Brand;
use std::test::Fail;

/// Three turns that cut the journal: in the first two pages are flushed, in the second one of them is closed.
/// Whether the cleaner finds it in time is open.
#[test]
fn crew_cuts(rt: HostRuntime) -> Result<(), Fail> {
    let run = Run {
        resident: 2,
        turns: 3,
        cut: true,
        ..ONE_TURN
    };
    let left = crew_left::<_, CountTable, Brand, _>(
        &rt,
        rt.alloc(),
        seed(rt.alloc())?,
        &OpenGate,
        run,
    )?;
    assert!(rt; left.written == 2 && left.failed == 0 && left.strangers == 0);
    let six = Six {
        closed: 4,
        head: 4,
        flushed: 8,
        safe_read_only: 8,
        read_only: 8,
        tail: 12,
    };
    let [open, sealed, flushed, closed, free] = left.now.frames;
    assert!(rt; left.now.six == six && closed.saturating_add(free) == 2);
    assert!(rt; open == 1 && sealed == 0 && flushed == 1);
    assert!(rt; left.is_whole() && left.cut > 0);
    Ok(())
}

/// A cleaner that has found no closed page goes on: of the turns that the flusher makes here nearly all come after the
/// close, and in one of them the cleaner runs. Its rider, which took two pages and was done with them, comes back last.
#[test]
fn a_crew_frees_what_it_closed(rt: HostRuntime) -> Result<(), Fail> {
    let run = Run {
        resident: 1,
        turns: 50_000,
        cut: true,
        ..ONE_TURN
    };
    let left = crew_left::<_, CountTable, Brand, _>(
        &rt,
        rt.alloc(),
        seed(rt.alloc())?,
        &OpenGate,
        run,
    )?;
    assert_eq!(rt; left.now.frames, [1, 0, 0, 0, 3]);
    assert!(rt; left.written == 2 && left.now.six.closed == 8 && left.is_whole());
    let [_, first, second, cleaning] = left.shares;
    assert_eq!(rt; [first, second, cleaning], [0, 0, 4]);
    Ok(())
}
