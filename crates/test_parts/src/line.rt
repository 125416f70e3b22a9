use hl_line::{Line, print_fault, print_line, read_line};
use hl_model::{Fault, Step};
use std::test::Fail;

// The program prints no line of a script.
#[test]
fn prints_a_line(rt: HostRuntime) {
    let line = Line::Step(Step::FlushDone { page: 0, ok: false });
    assert_eq!(rt; print_line(&line).as_str(), "flush done 0 failed");
    assert_eq!(rt; read_line(b"flush done 0 failed"), Some(line));
}

// No clause says what a `Display` writes.
#[test]
fn prints_each_fault_as_it_is_displayed(rt: HostRuntime) -> Result<(), Fail> {
    let faults = [
        (Fault::NoSlot, "fault 1 NoSlot"),
        (Fault::Occupied, "fault 2 Occupied"),
        (Fault::NotProtected, "fault 3 NotProtected"),
        (Fault::Stale, "fault 4 Stale"),
        (Fault::DrainFull, "fault 5 DrainFull"),
        (Fault::EpochsSpent, "fault 6 EpochsSpent"),
        (Fault::Empty, "fault 7 Empty"),
        (
            Fault::NotReady { front: 3, safe: 2 },
            "fault 8 NotReady front 3 safe 2",
        ),
        (Fault::NotTaken, "fault 9 NotTaken"),
        (Fault::NotAbove, "fault 10 NotAbove"),
        (Fault::AboveTail, "fault 11 AboveTail"),
        (Fault::NotPage, "fault 12 NotPage"),
        (Fault::AboveFlushed, "fault 13 AboveFlushed"),
        (Fault::Size, "fault 14 Size"),
        (Fault::Busy { page: 2 }, "fault 15 Busy page 2"),
        (Fault::SpaceSpent, "fault 16 SpaceSpent"),
        (Fault::Below { read_only: 4 }, "fault 17 Below read_only 4"),
        (Fault::Beyond { tail: 9 }, "fault 18 Beyond tail 9"),
        (Fault::Evicted { head: 8 }, "fault 19 Evicted head 8"),
        (Fault::NoneSealed, "fault 20 NoneSealed"),
        (Fault::NotInFlight, "fault 21 NotInFlight"),
        (Fault::NoneClosed, "fault 22 NoneClosed"),
        (Fault::NotCleaning, "fault 23 NotCleaning"),
        (Fault::NoJob, "fault 24 NoJob"),
        (Fault::TouchesFull, "fault 25 TouchesFull"),
        (
            Fault::Stranger { stamp: 1000 },
            "fault 26 Stranger stamp 1000",
        ),
        (Fault::JournalFull, "fault 27 JournalFull"),
        (Fault::Device, "fault 28 Device"),
        (Fault::OutOfMemory, "fault 29 OutOfMemory"),
        (Fault::BadLine { n: 2 }, "fault 30 BadLine n 2"),
        (Fault::Stream, "fault 31 Stream"),
        (Fault::WindowFull, "fault 32 WindowFull"),
    ];
    for (fault, text) in faults {
        assert_eq!(rt; print_fault(&fault).as_str(), text);
        assert_eq!(rt; format!(in rt.alloc(); "{fault}")?.as_str(), text);
    }
    Ok(())
}
