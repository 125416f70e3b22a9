//! What was taken from one domain and is brought to another.
ghost use Rattle.std.specs.Prelude.{◌≡◌};
ghost use Rattle.hl_words.specs.States.{IsSeedOf};

use crate::asked::{Either, Out, Taken};
use crate::follow::ask_all;
use crate::jobs::small_seed;
use crate::play::Play;
use crate::shared::open_shared;
use hl_counts::CountTable;
use hl_epoch::{Epochs, ScanTable};
use hl_model::Fault;
use hl_words::{Realm, Rider, Seed};
use std::alloc::Global;
use std::marker::Brand;
use std::mem::swap;
use std::process::Abort;
use std::sync::Wait;
use std::test::Fail;

// Of two pages both are settled and the first is closed; then an action of ticket 3 is taken, page 1 is in flight, and
// page 0 in cleaning.
const TAKE_OUT: &str = "acquire 0 -> view 0 0 0
alloc 0 4 -> at 0
alloc 0 4 -> at 4
raise 8 -> read_only 8
settle -> ticket 1
refresh 0 -> view 8 0 8
take -> taken 1
done 1 -> safe_read_only 8
flush take -> page 0
flush done 0 ok -> flushed 4
shift 4 -> head 4
close -> ticket 2
refresh 0 -> view 8 4 8
take -> taken 2
done 2 -> closed 4
bump 9 -> ticket 3
release 0 -> left
take -> taken 3
flush take -> page 1
clean take -> page 0";

const ELSEWHERE: &str = "done 3 -> fault 26 Stranger stamp 2000
flush done 1 ok -> fault 26 Stranger stamp 2000
clean done 0 -> fault 26 Stranger stamp 2000";

const AT_HOME: &str = "done 3 -> ran 9
flush done 1 ok -> flushed 8
clean done 0 -> freed 0";

const STRANGE: Fault = Fault::Stranger { stamp: 2000 };

fn strangers<E: Epochs + Drop, L: Realm, M: Realm>(
    rt: &(impl Wait + Abort),
    alloc: Global,
    first: Seed,
    second: Seed,
) -> Result<(), Fail>
    requires first { IsSeedOf L.name L.parts L.table first }
    requires first_named { (first.sizes ≡ L.sizes) × (1000 ≡ L.stamp) × (100 ≡ L.limit) }
    requires second { IsSeedOf M.name M.parts M.table second }
    requires second_named { (second.sizes ≡ M.sizes) × (2000 ≡ M.stamp) × (100 ≡ M.limit) }
{
    let mut one = open_shared::<E, L>(alloc, first, 100, 1000)?;
    let mut other = open_shared::<E, M>(alloc, second, 100, 2000)?;
    bring_back(rt, &mut one, &mut other);
    Ok(())
}

// Both have the same out; what is of the one comes back from the other, and is ended in its own alone.
fn bring_back<E: Epochs + Drop, L: Realm, M: Realm>(
    rt: &(impl Wait + Abort),
    one: &mut Play<E, L>,
    other: &mut Play<E, M>,
) {
    ask_all(rt, one, TAKE_OUT);
    ask_all(rt, other, TAKE_OUT);
    swap(&mut one.taken, &mut other.taken);
    ask_all(rt, other, ELSEWHERE);
    refuse_unlocked(rt, &other.asked, &mut other.rider, &mut other.taken);
    swap(&mut one.taken, &mut other.taken);
    ask_all(rt, one, AT_HOME);
    assert_eq!(rt; [one.rider.share(), other.rider.share()], [17, 14]);
}

// All that came back names its domain. Neither page is copied or swept elsewhere.
fn refuse_unlocked<E: Epochs + Drop, L: Realm>(
    rt: &(impl Wait + Abort),
    other: &Either<E, L>,
    rider: &mut Rider<L>,
    taken: &mut Vec<Taken>,
) {
    let Either::Shared(domain) = other else {
        panic!(rt; "it is a domain")
    };
    assert_eq!(rt; domain.params().page_size(), 4);
    let before = domain.snapshot(rt);
    for it in taken.iter_mut() {
        assert_eq!(rt; it.out.origin(), 1000);
        match &mut it.out {
            Out::Action(ran) => assert_eq!(rt; ran.answer(), Some(10)),
            Out::Load(load) => {
                assert_eq!(rt;
                    domain.copy_page(load.job(), rider, &mut [0; 4]),
                    Err(STRANGE)
                );
            }
            Out::Broom(broom) => assert_eq!(rt; domain.sweep(broom, rider), Err(STRANGE)),
        }
    }
    assert!(rt; domain.snapshot(rt) == before);
}

/// What is out of one domain comes back from the other, which has the same out, and is ended in its own.
#[test]
fn what_is_of_another_domain(rt: HostRuntime) -> Result<(), Fail> {
    let (first, second) = (small_seed(rt.alloc(), 2)?, small_seed(rt.alloc(), 2)?);
    strangers::<ScanTable, Brand, Brand>(&rt, rt.alloc(), first, second)?;
    let (first, second) = (small_seed(rt.alloc(), 2)?, small_seed(rt.alloc(), 2)?);
    strangers::<CountTable, Brand, Brand>(&rt, rt.alloc(), first, second)
}
