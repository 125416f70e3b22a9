//! The crew of `hl` by its names: in which order it hands back what it was handed.
ghost use Rattle.std.specs.Prelude.{◌≡◌};
ghost use Rattle.hl_words.specs.States.{IsSeedOf};

use hl::{
    Crew, CrewRiders, Duty, Fault, Log, MemoryWriter, OpenGate, PageWriter, Params, Realm, Rider,
    Seed, Stop,
};
use std::alloc::Global;
use std::marker::Brand;
use std::sync::Wait;
use std::test::Fail;
use std::thread::Threads;

/// How many steps a log's journal has room for.
const JOURNAL: u64 = 100;

/// The log's stamp.
const STAMP: u64 = 1;

// How many steps each rider of a crew entered, and how many writes of each writer failed.
type HandedBack = [u64; 6];

// Riders that bumped 0, 1, 2 and 3 times serve as a crew whose second writer alone had a write that failed. Its stop was
// given before.
fn own_order<R, L>(rt: &R, alloc: Global, seed: Seed, params: Params) -> Result<HandedBack, Fault>
where
    R: Threads + Wait + Sync,
    L: Realm + Send + Sync,
    requires seed { IsSeedOf L.name L.parts L.table seed }
    requires named { (seed.sizes ≡ L.sizes) × (1 ≡ L.stamp) × (100 ≡ L.limit) }
{
    let (log, mut riders) = Log::<L>::open(alloc, seed, JOURNAL, STAMP)?;
    for (rider, bumps) in riders.iter_mut().zip([0, 1, 2, 3]) {
        for _ in 0..bumps {
            log.bare(rt, rider)?;
        }
    }
    let mut second = MemoryWriter::open(alloc, 1, 40)?;
    let _ = second.write_page(1, &[0; 40]);
    let crew = Crew {
        riders: CrewRiders::take_from(&mut riders).ok_or(Fault::Size)?,
        first: MemoryWriter::open(alloc, 1, 40)?,
        second,
    };
    let duty = Duty::checked(params, 1, 2).ok_or(Fault::Size)?;
    let stop = Stop::new();
    stop.give();
    let (crew, report) = crew.serve(rt, alloc, &log, &OpenGate, duty, &stop);
    report?;
    Ok(told_of(crew))
}

// What a crew has, in its order.
fn told_of<L: Realm>(crew: Crew<L, MemoryWriter>) -> HandedBack {
    let riders = crew.riders;
    [
        riders.flusher.share(),
        riders.first_writer.share(),
        riders.second_writer.share(),
        riders.cleaner.share(),
        crew.first.failures(),
        crew.second.failures(),
    ]
}

// A crew hands back its riders and its page writers in the order in which they went in.
#[test]
fn a_named_crew_hands_back_in_order(rt: HostRuntime) -> Result<(), Fail> {
    let params = Params::checked(4, 4, 1, 16).ok_or(Fault::Size)?;
    let seed = Seed::make(rt.alloc(), params, 4)?;
    let told = own_order::<_, Brand>(&rt, rt.alloc(), seed, params)?;
    assert_eq!(rt; told, [0, 1, 2, 3, 0, 1]);
    Ok(())
}
