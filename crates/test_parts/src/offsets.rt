ghost use Rattle.std.specs.Prelude.{◌≡◌};

use hl_model::{Fault, Params, Six};
use hl_offsets::Offsets;
use std::process::Abort;

// Sizes with pages of 4 words.
fn small_pages(rt: &impl Abort) -> Params
    ensures { result.page_size ≡ 4 }
{
    match Params::checked(4, 2, 2, 4) {
        Some(params) => params,
        None => panic!(rt; "sizes are in range"),
    }
}

// No script reaches it.
#[test]
fn last_address(rt: HostRuntime) {
    const LAST: u64 = (1 << 48) - 1;
    let six = Six {
        tail: LAST,
        ..Six::default()
    };
    let mut offsets = Offsets::resume(small_pages(&rt), six);
    let spent = Err(Fault::SpaceSpent);
    let answers = [
        offsets.allocate(2),
        offsets.place(1),
        offsets.allocate(1),
        offsets.allocate(1),
    ];
    assert_eq!(rt; answers, [spent, Ok(LAST), Ok(LAST), spent]);
}
