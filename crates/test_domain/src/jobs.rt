//! What the tests store in a domain, and small helpers of all of them.
ghost use Rattle.std.specs.Prelude.{◌≡◌, ◌<◌, ◌≤◌, ◌^◌, IfOk};

use hl_action::{Firing, Kept, Promise, Task};
use hl_domain::{Domain, Ending, Pass};
use hl_drain::Ask;
use hl_epoch::Epochs;
use hl_model::{Fault, Params, View};
use hl_words::{Realm, Rider, Seed};
use std::alloc::Global;
use std::process::Abort;

/// The stamp of each keeper that stands alone, and of each domain that is compared with one.
pub(crate) const STAMP: u64 = 1000;

/// Any answer will do.
pub(crate) struct Anything;

impl Promise for Anything {
    ghost keeps = { λ tag firing answer. answer ≡ answer };
}

/// Answers its own number.
#[derive(Drop)]
pub(crate) struct Tells {
    number: u64,
}

impl Task for Tells {
    ghost can = { λ job firing. job.number < 2 ^ 64 };

    ghost gives = { λ job firing answer. answer ≡ job.number };

    fn call(self, _firing: Firing) -> u64 {
        self.number
    }
}

/// What the tests ask a bump to store.
pub(crate) type Asked = Ask<Kept<Tells, Anything>>;

/// A domain over a table of epochs E, whose jobs answer numbers.
pub(crate) type Pages<E, L> = Domain<E, Tells, Anything, L>;

/// Asks for a job of this tag that answers this number.
pub(crate) fn job(tag: u64, number: u64) -> Asked {
    Ask::User(Kept::new(tag, Tells { number }))
}

/// Words for this many riders, of pages of 4 words in 2 frames, 2 slots and 4 places for actions.
pub(crate) fn small_seed(alloc: Global, riders: usize) -> Result<Seed, Fault>
    requires { (1 ≤ riders) × (riders ≤ 128) }
    ensures { IfOk result (λ seed. seed.sizes.page_size ≡ 4) }
{
    let params = Params::checked(4, 2, 2, 4).ok_or(Fault::Size)?;
    Seed::make(alloc, params, riders)
}

pub(crate) fn view(read_only: u64, head: u64, tail: u64) -> View {
    View {
        read_only,
        head,
        tail,
    }
}

/// The pass, or the fault.
pub(crate) fn passed<L: Realm>(
    answer: Result<Pass<L>, (Fault, Rider<L>)>,
) -> Result<Pass<L>, Fault> {
    answer.map_err(|(fault, _)| fault)
}

/// The rider of a pass that was released, or the fault.
pub(crate) fn released<L: Realm>(
    answer: Result<Rider<L>, (Fault, Pass<L>)>,
) -> Result<Rider<L>, Fault> {
    answer.map_err(|(fault, _)| fault)
}

/// The ticket of a bump, or the fault.
pub(crate) fn ticket_of(answer: Result<u64, (Fault, Asked)>) -> Result<u64, Fault> {
    answer.map_err(|(fault, _)| fault)
}

/// What is left of a domain whose riders are all there.
pub(crate) fn ended<E: Epochs + Drop, L: Realm>(
    rt: &impl Abort,
    domain: Pages<E, L>,
    riders: Vec<Rider<L>>,
) -> Ending<Tells, Anything> {
    match domain.close(riders) {
        Ok(ending) => ending,
        Err(_) => panic!(rt; "a rider is missing"),
    }
}
