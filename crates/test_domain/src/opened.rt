//! A domain that a test opens, uses with its riders and closes, over both tables of epochs.
ghost use Rattle.std.specs.Prelude.{◌≡◌, ◌≤◌};
ghost use Rattle.hl_keeper.specs.Keepers.{steps_most};
ghost use Rattle.hl_words.specs.States.{IsSeedOf};

use crate::jobs::{Anything, Pages, Tells};
use hl_counts::CountTable;
use hl_domain::Ending;
use hl_epoch::{Epochs, ScanTable};
use hl_model::{Fault, Sizes};
use hl_words::{Realm, Rider, Seed};
use std::alloc::Global;
use std::marker::Brand;
use std::process::Abort;
use std::sync::Wait;
use std::test::Fail;

/// How a domain of stamp 1000 is opened: its sizes, how many riders it has, and how many steps its journal can hold.
#[derive(Clone, Copy)]
pub(crate) struct Opening {
    pub(crate) params: Sizes,
    pub(crate) riders: usize,
    pub(crate) journal: u64,
    ghost some_riders: { 1 ≤ riders },
    ghost most_riders: { riders ≤ 2048 },
    ghost most_steps: { journal ≤ steps_most },
}

impl Opening {
    /// Pages of 4 words in 2 frames, 2 slots and 4 places for actions; 3 riders.
    pub(crate) fn small(journal: u64) -> Result<Opening, Fault>
        requires { journal ≤ steps_most }
    {
        let params = Sizes::checked(4, 2, 2, 4).ok_or(Fault::Size)?;
        Ok(Opening {
            params,
            riders: 3,
            journal,
        })
    }
}

/// What a test does with a domain, and sees at its end.
pub(crate) trait Turn {
    /// Uses the domain, and leaves all its riders where they were.
    fn make<R: Wait + Abort, E: Epochs + Drop, L: Realm>(
        &self,
        rt: &R,
        domain: &Pages<E, L>,
        riders: &mut Vec<Rider<L>>,
    ) -> Result<(), Fail>;

    /// Sees what is left.
    fn see(&self, rt: &impl Abort, ending: &Ending<Tells, Anything>);
}

/// Makes the turn with a domain over each table.
pub(crate) fn make_over_both<T: Turn>(
    rt: &(impl Wait + Abort),
    alloc: Global,
    opening: &Opening,
    turn: &T,
) -> Result<(), Fail> {
    make_over::<ScanTable, T>(rt, alloc, opening, turn)?;
    make_over::<CountTable, T>(rt, alloc, opening, turn)
}

fn make_over<E: Epochs + Drop, T: Turn>(
    rt: &(impl Wait + Abort),
    alloc: Global,
    opening: &Opening,
    turn: &T,
) -> Result<(), Fail> {
    let seed = Seed::make(alloc, opening.params, opening.riders)?;
    open_and_close::<E, Brand, T>(rt, alloc, seed, opening.journal, turn)
}

fn open_and_close<E: Epochs + Drop, L: Realm, T: Turn>(
    rt: &(impl Wait + Abort),
    alloc: Global,
    seed: Seed,
    journal: u64,
    turn: &T,
) -> Result<(), Fail>
    requires most { journal ≤ steps_most }
    requires seed { IsSeedOf L.name L.parts L.table seed }
    requires named { (seed.sizes ≡ L.sizes) × (1000 ≡ L.stamp) × (journal ≡ L.limit) }
{
    let (domain, mut riders) = Pages::<E, L>::open(alloc, seed, journal, 1000)?;
    turn.make(rt, &domain, &mut riders)?;
    let Ok(ending) = domain.close(riders) else {
        panic!(rt; "a rider is missing")
    };
    turn.see(rt, &ending);
    Ok(())
}
