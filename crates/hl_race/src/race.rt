//! A race: how it is run, and what is told of what it left.
ghost use Rattle.std.specs.Prelude.{◌≡◌, ◌≤◌, ◌↔◌, true, false, IsSome, IfSome};
ghost use Rattle.hl_words.specs.States.{IsSeedOf};
ghost use Rattle.hl_keeper.specs.Keepers.{steps_most};

use crate::audit::{agrees_from_the_base, agrees_from_the_start, has_images};
use crate::course::{CREW, Course, CrewBack, Track};
use hl_action::{AnyAnswer, NoJob};
use hl_domain::Ending;
use hl_model::{Fault, Sizes};
use hl_words::{Realm, Seed};
use std::alloc::Global;
use std::marker::Brand;
use std::sync::Wait;
use std::sync::atomic::AtomicU64;
use std::thread::Threads;

/// How a race is run. Each number is in range: that is in its type.
#[derive(Clone, Copy, Debug, PartialEq, Eq)]
pub struct Race {
    riders: u64,
    rounds: u64,
    pub(crate) cut: bool,
    wide: bool,
    ghost some_riders: { 1 ≤ riders },
    ghost most_riders: { riders ≤ 8 },
    ghost some_rounds: { 1 ≤ rounds },
    ghost most_rounds: { rounds ≤ 1000 },
}

impl Race {
    /// A race of 1 to 8 riders, each in a thread of its own, which make 1 to 1,000 rounds each; the
    /// crew makes as many turns as a rider makes rounds, and cuts the journal at the end of each if
    /// `cut` is true. `None` out of range.
    pub fn checked(riders: u64, rounds: u64, cut: bool) -> Option<Race>
        ensures some { IsSome result ↔ ((1 ≤ riders) × (riders ≤ 8) × (1 ≤ rounds) × (rounds ≤ 1000)) }
        ensures asked { IfSome result (λ race.
            (race.riders ≡ riders) × (race.rounds ≡ rounds) × (race.cut ≡ cut) × (race.wide ≡ false)) }
    {
        if !(1..=8).contains(&riders) || !(1..=1000).contains(&rounds) {
            return None;
        }
        Some(Race {
            riders,
            rounds,
            cut,
            wide: false,
        })
    }

    /// The same race without cuts, in a domain of 1,024 slots and 4,096 places for actions. Its riders take the last
    /// slots. The slow form, which audits what follows a cut, takes no such sizes.
    pub fn widened(self) -> Race
        ensures { (result.riders ≡ self.riders) × (result.rounds ≡ self.rounds)
            × (result.cut ≡ false) × (result.wide ≡ true) }
    {
        Race {
            riders: self.riders,
            rounds: self.rounds,
            cut: false,
            wide: true,
        }
    }

    /// How many riders race.
    pub fn riders(self) -> u64
        ensures { result ≡ self.riders }
    {
        self.riders
    }

    /// How many rounds each makes.
    pub fn rounds(self) -> u64
        ensures { result ≡ self.rounds }
    {
        self.rounds
    }

    // How many slots its domain has, and how many places for actions.
    fn room(self) -> (u64, u64) {
        if self.wide { (1024, 4096) } else { (8, 16) }
    }

    /// The slot of its first rider: each of the others has the next.
    pub(crate) fn first_slot(self) -> u64 {
        if self.wide { 1016 } else { 0 }
    }
}

/// How many steps the journal of a race may have.
const JOURNAL: u64 = 131_072;

/// The stamp of a race's domain.
const STAMP: u64 = 1000;

/// How a race ended.
#[derive(Clone, Copy, Debug, PartialEq, Eq)]
pub struct Raced {
    /// Whether its steps were all lawful and left what the domain was at when it was closed, and the riders entered as
    /// many steps as there are.
    pub agrees: bool,
    /// Whether each page that is flushed has an image in one of the crew's writers.
    pub has_images: bool,
    /// How many steps were entered, those that were cut among them.
    pub steps: u64,
    /// How many loads of the riders were answered by a word. No step tells of a load.
    pub loads: u64,
}

/// Runs a race, and tells whether it agrees, as in [`Raced`].
///
/// `OutOfMemory` if memory, or a thread of the crew, was refused. The domain of a refused crew is
/// closed too: `Stranger`, with its stamp, if a rider didn't come back.
pub fn run_race<R: Threads + Wait + Sync>(
    rt: &R,
    alloc: Global,
    race: Race,
) -> Result<bool, Fault> {
    Ok(run_race_within(rt, alloc, race, JOURNAL)?.agrees)
}

/// The same with a journal of this many steps, at most 2^62, and all that is told of a race. Once it
/// is full, its riders and its crew stop.
pub fn run_race_within<R: Threads + Wait + Sync>(
    rt: &R,
    alloc: Global,
    race: Race,
    journal: u64,
) -> Result<Raced, Fault>
    requires { journal ≤ steps_most }
{
    let (slots, drain) = race.room();
    let sizes = Sizes::checked(16, 8, slots, drain).ok_or(Fault::Size)?;
    let seed = Seed::make(alloc, sizes, race.riders as usize + CREW)?;
    race_over::<Brand, R>(rt, alloc, seed, race, journal)
}

// The race over the words of a seed.
fn race_over<L: Realm + Send + Sync, R: Threads + Wait + Sync>(
    rt: &R,
    alloc: Global,
    seed: Seed,
    race: Race,
    journal: u64,
) -> Result<Raced, Fault>
    requires journal { journal ≤ steps_most }
    requires seed { IsSeedOf L.name L.parts L.table seed }
    requires named { (seed.sizes ≡ L.sizes) × (1000 ≡ L.stamp) × (journal ≡ L.limit) }
    requires frames { seed.sizes.frames ≡ 8 }
{
    let params = seed.params();
    let (domain, riders) = Track::<L>::open(alloc, seed, journal, STAMP)?;
    let loads = AtomicU64::new(0);
    let course = Course {
        rt,
        alloc,
        domain: &domain,
        race,
        loads: &loads,
    };
    let (mut riders, crew) = course.run(riders)?;
    let CrewBack {
        riders: its_riders,
        writers,
        ended,
    } = crew;
    riders.extend(its_riders).map_err(|_| Fault::OutOfMemory)?;
    let shares = riders
        .iter()
        .fold(0u64, |sum, rider| sum.wrapping_add(rider.share()));
    let ending = domain.close(riders).map_err(|(fault, _, _)| fault)?;
    let steps = ending.cut.saturating_add(ending.journal.len() as u64);
    let flushed = ending.snapshot.six.flushed / params.page_size();
    ended?;
    Ok(Raced {
        agrees: agrees(alloc, params, race, &ending, shares)?,
        has_images: has_images(&writers, flushed),
        steps,
        loads: loads.into_inner(),
    })
}

// Whether the steps agree with what the race left, from the base where it was cut.
fn agrees(
    alloc: Global,
    params: Sizes,
    race: Race,
    ending: &Ending<NoJob, AnyAnswer>,
    shares: u64,
) -> Result<bool, Fault> {
    if race.cut {
        agrees_from_the_base(alloc, ending, shares)
    } else {
        agrees_from_the_start(alloc, params, ending, shares)
    }
}
