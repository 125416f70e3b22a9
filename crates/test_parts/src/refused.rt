use hl::{Fault, Refused};
use std::test::Fail;

// A refusal is displayed as its fault, in both forms; no clause says what they write.
#[test]
fn a_refusal_is_displayed_as_its_fault(rt: HostRuntime) -> Result<(), Fail> {
    let refused = Refused {
        fault: Fault::Busy { page: 2 },
        back: 7,
    };
    assert_eq!(rt;
        format!(in rt.alloc(); "{refused}")?.as_str(),
        "fault 15 Busy page 2"
    );
    assert_eq!(rt;
        format!(in rt.alloc(); "{refused:?}")?.as_str(),
        "Busy { page: 2 }"
    );
    Ok(())
}

// It may not be dropped, as a session or a job that ran.
struct Kept {
    number: u64,
}

// A refusal of such a value is displayed too, and the value is still there.
#[test]
fn a_refusal_of_what_is_not_dropped_is_displayed(rt: HostRuntime) -> Result<(), Fail> {
    let refused = Refused {
        fault: Fault::JournalFull,
        back: Kept { number: 7 },
    };
    let text = format!(in rt.alloc(); "{refused}, {refused:?}");
    let Refused { back, .. } = refused;
    let Kept { number } = back;
    assert_eq!(rt; number, 7);
    assert_eq!(rt; text?.as_str(), "fault 27 JournalFull, JournalFull");
    Ok(())
}
