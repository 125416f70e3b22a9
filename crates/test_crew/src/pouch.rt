ghost use Rattle.std.specs.Prelude.{◌≡◌, ◌+◌, ◌<◌, ◌≤◌};
ghost use Rattle.hl_crew.specs.Pouches.{load_count};
ghost use Rattle.hl_words.specs.States.{IsSeedOf};

use crate::crew::{Pages, STAMP, allocate_pages, is_done, seed, settle};
use hl_counts::CountTable;
use hl_crew::Pouch;
use hl_model::Fault;
use hl_words::{Realm, Rider, Seed};
use std::alloc::Global;
use std::marker::Brand;
use std::process::Abort;
use std::sync::Wait;
use std::test::Fail;

/// Raises the read-only offset over two pages and settles it.
fn seal<R: Wait + Abort, L: Realm>(
    rt: &R,
    domain: &Pages<CountTable, L>,
    rider: &mut Rider<L>,
) -> Result<(), Fault> {
    domain.raise(rt, rider, 8)?;
    let ready = settle(rt, domain, rider)?;
    assert!(rt; is_done(rt, domain, rider, ready.run()));
    Ok(())
}

fn pouch_answers<R: Wait + Abort, L: Realm>(rt: &R, alloc: Global, seed: Seed) -> Result<(), Fail>
    requires seed { IsSeedOf L.name L.parts L.table seed }
    requires named { (seed.sizes ≡ L.sizes) × (STAMP ≡ L.stamp) × (100 ≡ L.limit) }
{
    let (domain, mut riders) = Pages::<CountTable, L>::open(alloc, seed, 100, STAMP)?;
    let mut rider = allocate_pages(rt, &domain, riders.pop().ok_or("a rider")?)?;
    seal(rt, &domain, &mut rider)?;
    assert!(rt; are_answered(rt, &domain, &mut rider));
    Ok(())
}

// Whether two pages that are taken are answered as they must be.
fn are_answered<R: Wait, L: Realm>(
    rt: &R,
    domain: &Pages<CountTable, L>,
    rider: &mut Rider<L>,
) -> bool {
    let mut pouch = Pouch::new();
    take_one(rt, domain, rider, &mut pouch);
    take_one(rt, domain, rider, &mut pouch);
    let all = answers_all(rt, domain, rider, &mut pouch);
    pouch.forsake();
    all
}

// Takes a page, where there is one, and puts it into the pouch.
fn take_one<R: Wait, L: Realm>(
    rt: &R,
    domain: &Pages<CountTable, L>,
    rider: &mut Rider<L>,
    pouch: &mut Pouch,
)
    requires { load_count pouch.old < 4 }
    ensures { load_count pouch.new ≤ load_count pouch.old + 1 }
{
    if let Ok(load) = domain.flush_take(rt, rider) {
        pouch.put(load);
    }
}

// Whether each page is answered as it must be.
fn answers_all<R: Wait, L: Realm>(
    rt: &R,
    domain: &Pages<CountTable, L>,
    rider: &mut Rider<L>,
    pouch: &mut Pouch,
) -> bool {
    let wanted = [
        (1, Ok(0)),
        (1, Err(Fault::NotInFlight)),
        (5, Err(Fault::NotInFlight)),
        (0, Ok(8)),
        (0, Err(Fault::NotInFlight)),
    ];
    let mut all = true;
    for (page, answer) in wanted {
        let before = domain.snapshot(rt);
        all &= pouch.answer(rt, domain, rider, page, true) == answer;
        // A refused answer enters no step, and changes no quantity.
        all &= answer.is_ok() || domain.snapshot(rt) == before;
    }
    all
}

/// Two pages are answered once each, in the order of the answers.
#[test]
fn pouch_answers_once(rt: HostRuntime) -> Result<(), Fail> {
    pouch_answers::<_, Brand>(&rt, rt.alloc(), seed(rt.alloc())?)
}
