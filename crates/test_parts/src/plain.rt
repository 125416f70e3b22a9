use hl_model::{Fault, FrameState, Params, Reply, Step};
use hl_plain::Plain;
use std::process::Abort;
use std::test::Fail;

// A slot acquires once, and allocates the first page.
fn takes_steps(rt: &impl Abort, plain: &mut Plain) {
    let acquire = Step::Acquire { t: 0 };
    assert!(rt; plain.step(&acquire).is_ok());
    let allocate = Step::Allocate { t: 0, n: 4 };
    let answers = [plain.step(&acquire), plain.step(&allocate)];
    assert_eq!(rt; answers, [Err(Fault::Occupied), Ok(Reply::At(0))]);
}

// The sizes, the two accepted steps, the tail that the slot sees, and the frame of the page.
fn shows_page_0(rt: &impl Abort, plain: &Plain, params: Params) {
    assert_eq!(rt; (plain.params(), plain.steps().len()), (params, 2));
    assert_eq!(rt; plain.view(0).map(|view| view.tail), Some(4));
    if plain.params().frames() == 2 {
        assert_eq!(rt; plain.frame(0), (FrameState::Opened, Some(0)));
    }
}

// What the slow form of a script doesn't ask.
#[test]
fn what_it_keeps(rt: HostRuntime) -> Result<(), Fail> {
    let params = Params::checked(4, 2, 2, 4).ok_or("sizes in range")?;
    let mut plain = Plain::open(rt.alloc(), params)?;
    takes_steps(&rt, &mut plain);
    shows_page_0(&rt, &plain, params);
    Ok(())
}
