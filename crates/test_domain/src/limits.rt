//! The greatest sizes, stamps and journals, and a chain of jobs.
ghost use Rattle.std.specs.Prelude.{◌≡◌};
ghost use Rattle.hl_words.specs.States.{IsSeedOf};

use crate::asked::Either;
use crate::follow::ask_all;
use crate::jobs::{Anything, Pages, Tells, job, passed, released, small_seed, ticket_of};
use crate::opened::{Opening, Turn, make_over_both};
use crate::play::Play;
use crate::shared::open_shared;
use crossbeam_channel::unbounded;
use hl_counts::CountTable;
use hl_domain::{Ending, Pass};
use hl_epoch::{Epochs, ScanTable};
use hl_model::{Fault, Reply, Sizes};
use hl_words::{Realm, Rider, Seed};
use std::alloc::Global;
use std::marker::Brand;
use std::process::Abort;
use std::sync::Wait;
use std::test::Fail;

// Every slot is acquired, and every frame filled by one record; then the log is full, and is left.
#[derive(Clone, Copy)]
struct FillsAll {
    params: Sizes,
}

impl Turn for FillsAll {
    fn make<R: Wait + Abort, E: Epochs + Drop, L: Realm>(
        &self,
        rt: &R,
        domain: &Pages<E, L>,
        riders: &mut Vec<Rider<L>>,
    ) -> Result<(), Fail> {
        let mut passes = acquire_all(rt, domain, riders)?;
        fill_all(rt, domain, &mut passes)?;
        release_all(rt, domain, passes, riders)
    }

    fn see(&self, rt: &impl Abort, ending: &Ending<Tells, Anything>) {
        let (slots, frames) = (self.params.slots(), self.params.frames());
        assert_eq!(rt; ending.journal.len() as u64, slots + frames + 1 + slots);
        assert_eq!(rt; ending.snapshot.frames, [frames, 0, 0, 0, 0]);
    }
}

fn acquire_all<E: Epochs + Drop, L: Realm>(
    rt: &impl Wait,
    domain: &Pages<E, L>,
    riders: &mut Vec<Rider<L>>,
) -> Result<Vec<Pass<L>>, Fail> {
    let mut passes = Vec::new(*riders.allocator());
    for t in 0..domain.params().slots() {
        let rider = riders.pop().ok_or("a rider for each slot")?;
        passes.push(passed(domain.acquire(rt, t, rider))?)?;
    }
    Ok(passes)
}

// The last pass fills each page, and uses the last word of all.
fn fill_all<E: Epochs + Drop, L: Realm>(
    rt: &(impl Wait + Abort),
    domain: &Pages<E, L>,
    passes: &mut Vec<Pass<L>>,
) -> Result<(), Fail> {
    let pass = passes.last_mut().ok_or("a pass of each slot")?;
    let params = domain.params();
    let (words, frames) = (params.page_size(), params.frames());
    for page in 0..frames {
        assert_eq!(rt; domain.allocate(rt, pass, words), Ok(page * words));
    }
    assert_eq!(rt;
        domain.allocate(rt, pass, 1),
        Err(Fault::Busy { page: frames })
    );
    let last = frames * words - 1;
    assert_eq!(rt; domain.store(pass, last, 7), Ok(()));
    assert_eq!(rt; domain.load(pass, last), Ok(7));
    Ok(())
}

fn release_all<E: Epochs + Drop, L: Realm>(
    rt: &impl Wait,
    domain: &Pages<E, L>,
    passes: Vec<Pass<L>>,
    riders: &mut Vec<Rider<L>>,
) -> Result<(), Fail> {
    for pass in passes {
        riders.push(released(domain.release(rt, pass))?)?;
    }
    Ok(())
}

#[test]
fn the_greatest_sizes(rt: HostRuntime) -> Result<(), Fail> {
    // The greatest narrow sizes; then of each wide size the greatest, where not all of them fit a machine.
    for ([page_size, frames, slots, drain], riders) in [
        ([4096, 256, 64, 64], 64),
        ([4096, 256, 1024, 4096], 2048),
        ([4, 1 << 16, 1, 1], 1),
        ([1 << 20, 4, 1, 1], 1),
    ] {
        let params = Sizes::checked(page_size, frames, slots, drain).ok_or("sizes in range")?;
        fill_over_both(&rt, rt.alloc(), params, riders)?;
    }
    Ok(())
}

fn fill_over_both(
    rt: &(impl Wait + Abort),
    alloc: Global,
    params: Sizes,
    riders: usize,
) -> Result<(), Fail> {
    let opening = Opening {
        params,
        riders: riders.clamp(1, 2048),
        journal: 70_000,
    };
    make_over_both(rt, alloc, &opening, &FillsAll { params })
}

// A pass and an action of the domain with the last stamp. The stamps of its passes are above that of the domain.
const LAST: &str = "acquire 0 -> view 0 0 0
alloc 0 1 -> at 0
bump 9 -> ticket 1
refresh 0 -> view 0 0 1
take -> taken 1";

fn last_stamp<E: Epochs + Drop, L: Realm>(
    rt: &(impl Wait + Abort),
    alloc: Global,
    seed: Seed,
) -> Result<(), Fail>
    requires seed { IsSeedOf L.name L.parts L.table seed }
    requires named { (seed.sizes ≡ L.sizes) × (4_611_686_018_427_387_904 ≡ L.stamp) × (100 ≡ L.limit) }
{
    let mut play = open_shared::<E, L>(alloc, seed, 100, 1 << 62)?;
    use_last(rt, &mut play);
    Ok(())
}

fn use_last<E: Epochs + Drop, L: Realm>(rt: &(impl Wait + Abort), play: &mut Play<E, L>) {
    if let Either::Shared(domain) = &play.asked {
        assert_eq!(rt; domain.stamp(), 1 << 62);
    }
    ask_all(rt, play, LAST);
    assert_eq!(rt;
        play.taken.first().map(|taken| taken.out.origin()),
        Some(1 << 62)
    );
    ask_all(rt, play, "done 1 -> ran 9\nrelease 0 -> left");
}

#[test]
fn the_last_stamp(rt: HostRuntime) -> Result<(), Fail> {
    last_stamp::<ScanTable, Brand>(&rt, rt.alloc(), small_seed(rt.alloc(), 2)?)?;
    last_stamp::<CountTable, Brand>(&rt, rt.alloc(), small_seed(rt.alloc(), 2)?)
}

// No machine has room for a journal of the most steps.
fn longest_journal<E: Epochs + Drop, L: Realm>(rt: &impl Abort, alloc: Global, seed: Seed)
    requires seed { IsSeedOf L.name L.parts L.table seed }
    requires named { (seed.sizes ≡ L.sizes) × (1000 ≡ L.stamp) × (4_611_686_018_427_387_904 ≡ L.limit) }
{
    match Pages::<E, L>::open(alloc, seed, 1 << 62, 1000) {
        Ok(_) => panic!(rt; "a journal of 2^62 steps was had"),
        Err(fault) => assert_eq!(rt; fault, Fault::OutOfMemory),
    }
}

#[test]
fn the_longest_journal(rt: HostRuntime) -> Result<(), Fail> {
    longest_journal::<ScanTable, Brand>(&rt, rt.alloc(), small_seed(rt.alloc(), 2)?);
    longest_journal::<CountTable, Brand>(&rt, rt.alloc(), small_seed(rt.alloc(), 2)?);
    Ok(())
}

// Each job answers the tag of its successor, which is bumped once the answer came through a channel.
#[derive(Clone, Copy)]
struct Chain {
    alloc: Global,
}

impl Turn for Chain {
    fn make<R: Wait + Abort, E: Epochs + Drop, L: Realm>(
        &self,
        rt: &R,
        domain: &Pages<E, L>,
        riders: &mut Vec<Rider<L>>,
    ) -> Result<(), Fail> {
        let rider = riders.last_mut().ok_or("three riders")?;
        run_ten(rt, self.alloc, domain, rider)
    }

    fn see(&self, rt: &impl Abort, ending: &Ending<Tells, Anything>) {
        let now = ending.snapshot;
        assert!(rt; now.epoch == 11 && now.safe == 10 && ending.journal.len() == 30);
    }
}

fn run_ten<E: Epochs + Drop, L: Realm>(
    rt: &(impl Wait + Abort),
    alloc: Global,
    domain: &Pages<E, L>,
    rider: &mut Rider<L>,
) -> Result<(), Fail> {
    let (to, from) = unbounded(alloc)?;
    assert!(rt; to.send(rt, 0u64).is_ok());
    for round in 0..10u64 {
        let tag = from.recv(rt)?;
        assert_eq!(rt; tag, round);
        assert_eq!(rt;
            ticket_of(domain.bump(rt, rider, job(tag, round + 1))),
            Ok(round + 1)
        );
        let answer = run_one(rt, domain, rider, tag)?;
        assert!(rt; to.send(rt, answer).is_ok());
    }
    Ok(())
}

// Runs the oldest action, whose job has this tag: what the job answered.
fn run_one<E: Epochs + Drop, L: Realm>(
    rt: &impl Wait,
    domain: &Pages<E, L>,
    rider: &mut Rider<L>,
    tag: u64,
) -> Result<u64, Fail> {
    let ran = domain.take(rt, rider)?.run();
    let answer = ran.answer();
    match domain.done(rt, rider, ran) {
        Ok(reply) if reply == Reply::Ran(tag) => Ok(answer.ok_or("a job")?),
        Ok(_) => Err("another job")?,
        Err((fault, ran)) => {
            ran.forsake();
            Err(fault)?
        }
    }
}

#[test]
fn a_chain_of_jobs(rt: HostRuntime) -> Result<(), Fail> {
    let alloc = rt.alloc();
    make_over_both(&rt, alloc, &Opening::small(100)?, &Chain { alloc })
}
