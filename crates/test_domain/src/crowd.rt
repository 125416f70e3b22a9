//! Many threads on one domain, and on two.
ghost use Rattle.std.specs.Prelude.{◌≡◌};
ghost use Rattle.hl_words.specs.States.{IsSeedOf};

use crate::jobs::{Anything, Pages, Tells};
use crate::work::{Sums, Worker, take_and_run, work};
use hl_counts::CountTable;
use hl_domain::Ending;
use hl_epoch::{Epochs, ScanTable};
use hl_model::{Fault, Params};
use hl_plain::Plain;
use hl_words::{Realm, Rider, Seed};
use std::alloc::Global;
use std::marker::Brand;
use std::process::Abort;
use std::sync::Wait;
use std::test::Fail;
use std::thread;
use std::thread::Threads;

/// Sizes for eight threads: the log of so many rounds is many times the four frames.
pub(crate) fn crowd_seed(alloc: Global) -> Result<Seed, Fault> {
    let params = Params::checked(8, 4, 8, 8).ok_or(Fault::Size)?;
    Seed::make(alloc, params, 16)
}

/// Two riders for each worker. The first one cuts now and then.
pub(crate) fn workers_of<L: Realm>(
    alloc: Global,
    mut riders: Vec<Rider<L>>,
) -> Result<Vec<Worker<L>>, Fail> {
    let mut workers = Vec::new(alloc);
    for slot in 0..8 {
        workers.push(worker_of(slot, &mut riders)?)?;
    }
    Ok(workers)
}

fn worker_of<L: Realm>(slot: u64, riders: &mut Vec<Rider<L>>) -> Result<Worker<L>, Fail> {
    let rider = riders.pop().ok_or("two riders for each thread")?;
    let acquires = riders.pop().ok_or("two riders for each thread")?;
    Ok(Worker {
        slot,
        acquires: Some(acquires),
        rider,
        stored: Sums::NONE,
        answered: Sums::NONE,
        lost: false,
        fault: None,
        cuts: slot == 0,
        cut: 0,
        images: None,
    })
}

/// Each worker makes so many rounds, in a thread of its own.
pub(crate) fn work_all<R, E, L>(
    rt: &R,
    domain: &Pages<E, L>,
    workers: Vec<Worker<L>>,
    rounds: u64,
) -> Result<Vec<Worker<L>>, Fail>
where
    R: Threads + Wait + Sync,
    E: Epochs + Drop + Send,
    L: Realm + Send + Sync,
{
    Ok(thread::map_vec(rt, workers, &|worker| work(rt, domain, worker, rounds))?)
}

fn crowd<R, E, L>(rt: &R, alloc: Global, seed: Seed) -> Result<(), Fail>
where
    R: Threads + Wait + Abort + Sync,
    E: Epochs + Drop + Send,
    L: Realm + Send + Sync,
    requires seed { IsSeedOf L.name L.parts L.table seed }
    requires named { (seed.sizes ≡ L.sizes) × (1000 ≡ L.stamp) × (2_097_152 ≡ L.limit) }
{
    let (domain, riders) = Pages::<E, L>::open(alloc, seed, 1 << 21, 1000)?;
    let workers = work_long(rt, alloc, &domain, riders)?;
    close_and_compare(rt, alloc, domain, workers)
}

// Many rounds, a last cut, some more rounds, and what they left.
fn work_long<R, E, L>(
    rt: &R,
    alloc: Global,
    domain: &Pages<E, L>,
    riders: Vec<Rider<L>>,
) -> Result<Vec<Worker<L>>, Fail>
where
    R: Threads + Wait + Abort + Sync,
    E: Epochs + Drop + Send,
    L: Realm + Send + Sync,
{
    let mut workers = work_all(rt, domain, workers_of(alloc, riders)?, 20_000)?;
    // What follows is short, and nobody cuts it: the slow form looks at each step many times.
    cut_last(rt, domain, &mut workers);
    let mut workers = work_all(rt, domain, workers, 10)?;
    run_rest(rt, domain, &mut workers)?;
    let (now, _, _) = domain.snapshot(rt);
    assert!(rt; now.six.head > 32, "no frame was used again");
    Ok(workers)
}

// The last worker cuts once more, and then none does.
fn cut_last<R: Wait, E: Epochs + Drop, L: Realm>(
    rt: &R,
    domain: &Pages<E, L>,
    workers: &mut Vec<Worker<L>>,
) {
    if let Some(worker) = workers.last_mut() {
        worker.cut = worker.cut.wrapping_add(domain.cut(rt, &mut worker.rider));
    }
    for worker in workers.iter_mut() {
        worker.cuts = false;
    }
}

// Runs the actions that are left: all are ready, since no slot is protected.
fn run_rest<R: Wait, E: Epochs + Drop, L: Realm>(
    rt: &R,
    domain: &Pages<E, L>,
    workers: &mut Vec<Worker<L>>,
) -> Result<(), Fault> {
    for worker in workers.iter_mut() {
        take_and_run(rt, domain, &mut worker.rider, &mut worker.answered)?;
    }
    Ok(())
}

// Ends the domain. The slow form makes the journal's steps from the base, and stands then where the domain does.
fn close_and_compare<R: Abort, E: Epochs + Drop, L: Realm>(
    rt: &R,
    alloc: Global,
    domain: Pages<E, L>,
    workers: Vec<Worker<L>>,
) -> Result<(), Fail> {
    let cut = workers
        .iter()
        .fold(0u64, |sum, worker| sum.wrapping_add(worker.cut));
    let shares = shares_of(rt, workers.as_slice());
    let Ok(ending) = domain.close(riders_of(alloc, workers)?) else {
        panic!(rt; "a rider is missing")
    };
    check_counts(rt, &ending, cut, shares);
    compare(rt, alloc, &ending)
}

// So many steps were cut, and with those that are kept they are as many as the shares. Nothing is pending.
fn check_counts(rt: &impl Abort, ending: &Ending<Tells, Anything>, cut: u64, shares: u64) {
    let steps = ending.journal.len() as u64;
    assert_eq!(rt; ending.cut, cut);
    assert_eq!(rt; ending.cut.wrapping_add(steps), shares);
    assert_eq!(rt; ending.left.pending_count(), 0);
}

// The sum of the shares of all riders. No worker met a fault, and each job that was stored was run once.
fn shares_of<L: Realm>(rt: &impl Abort, workers: &[Worker<L>]) -> u64 {
    let mut shares = 0u64;
    let (mut stored, mut answered) = (Sums::NONE, Sums::NONE);
    for worker in workers {
        assert_eq!(rt; worker.fault, None);
        assert!(rt; !worker.lost, "a load told another number than was stored");
        stored = stored.with(worker.stored);
        answered = answered.with(worker.answered);
        shares = shares.wrapping_add(worker.rider.share());
        if let Some(rider) = &worker.acquires {
            shares = shares.wrapping_add(rider.share());
        }
    }
    assert_eq!(rt; answered, stored);
    shares
}

/// All riders: each slot was released.
pub(crate) fn riders_of<L: Realm>(
    alloc: Global,
    workers: Vec<Worker<L>>,
) -> Result<Vec<Rider<L>>, Fail> {
    let mut riders = Vec::new(alloc);
    for worker in workers {
        riders.push(worker.acquires.ok_or("the slot was released")?)?;
        riders.push(worker.rider)?;
    }
    Ok(riders)
}

fn compare(rt: &impl Abort, alloc: Global, ending: &Ending<Tells, Anything>) -> Result<(), Fail> {
    ending.base.params().params().ok_or(Fault::Size)?;
    let mut plain = Plain::from_base(alloc, &ending.base)?;
    for step in ending.journal.iter() {
        let reply = plain.step(step);
        assert!(rt; reply.is_ok(), "{step:?} is accepted");
    }
    assert_eq!(rt; plain.snapshot(), ending.snapshot);
    Ok(())
}

#[test]
fn eight_threads(rt: HostRuntime) -> Result<(), Fail> {
    crowd::<_, ScanTable, Brand>(&rt, rt.alloc(), crowd_seed(rt.alloc())?)?;
    crowd::<_, CountTable, Brand>(&rt, rt.alloc(), crowd_seed(rt.alloc())?)
}

// Each of eight threads has a slot in both domains.
fn two_domains<R, E, L, M>(rt: &R, alloc: Global, first: Seed, second: Seed) -> Result<(), Fail>
where
    R: Threads + Wait + Abort + Sync,
    E: Epochs + Drop + Send,
    L: Realm + Send + Sync,
    M: Realm + Send + Sync,
    requires first { IsSeedOf L.name L.parts L.table first }
    requires first_named { (first.sizes ≡ L.sizes) × (1000 ≡ L.stamp) × (10_000 ≡ L.limit) }
    requires second { IsSeedOf M.name M.parts M.table second }
    requires second_named { (second.sizes ≡ M.sizes) × (2000 ≡ M.stamp) × (10_000 ≡ M.limit) }
{
    let (one, riders) = Pages::<E, L>::open(alloc, first, 10_000, 1000)?;
    let (other, others) = Pages::<E, M>::open(alloc, second, 10_000, 2000)?;
    let (workers, others) = work_in_both(rt, alloc, &one, &other, riders, others)?;
    close_and_compare(rt, alloc, one, workers)?;
    close_and_compare(rt, alloc, other, others)
}

// Eight threads work in both, and what they left there is run.
fn work_in_both<R, E, L, M>(
    rt: &R,
    alloc: Global,
    one: &Pages<E, L>,
    other: &Pages<E, M>,
    riders: Vec<Rider<L>>,
    others: Vec<Rider<M>>,
) -> Result<(Vec<Worker<L>>, Vec<Worker<M>>), Fail>
where
    R: Threads + Wait + Sync,
    E: Epochs + Drop + Send,
    L: Realm + Send + Sync,
    M: Realm + Send + Sync,
{
    let both = paired(
        alloc,
        workers_of(alloc, riders)?,
        workers_of(alloc, others)?,
    )?;
    let both = thread::map_vec(rt, both, &|pair| work_both(rt, one, other, pair))?;
    let (mut workers, mut others) = parted(alloc, both)?;
    run_rest(rt, one, &mut workers)?;
    run_rest(rt, other, &mut others)?;
    Ok((workers, others))
}

type Pair<L, M> = (Worker<L>, Worker<M>);

fn paired<L: Realm, M: Realm>(
    alloc: Global,
    workers: Vec<Worker<L>>,
    mut others: Vec<Worker<M>>,
) -> Result<Vec<Pair<L, M>>, Fail> {
    let mut both = Vec::new(alloc);
    for worker in workers {
        both.push((worker, others.pop().ok_or("as many workers")?))?;
    }
    Ok(both)
}

fn parted<L: Realm, M: Realm>(
    alloc: Global,
    both: Vec<Pair<L, M>>,
) -> Result<(Vec<Worker<L>>, Vec<Worker<M>>), Fail> {
    let (mut workers, mut others) = (Vec::new(alloc), Vec::new(alloc));
    for (worker, other) in both {
        workers.push(worker)?;
        others.push(other)?;
    }
    Ok((workers, others))
}

// Twenty rounds in turn, ten times: threads are in both domains at once.
fn work_both<R: Wait, E: Epochs + Drop, L: Realm, M: Realm>(
    rt: &R,
    one: &Pages<E, L>,
    other: &Pages<E, M>,
    mut pair: Pair<L, M>,
) -> Pair<L, M> {
    for _ in 0..10 {
        pair = (work(rt, one, pair.0, 20), work(rt, other, pair.1, 20));
    }
    pair
}

#[test]
fn threads_in_two_domains(rt: HostRuntime) -> Result<(), Fail> {
    let (first, second) = (crowd_seed(rt.alloc())?, crowd_seed(rt.alloc())?);
    two_domains::<_, ScanTable, Brand, Brand>(&rt, rt.alloc(), first, second)?;
    let (first, second) = (crowd_seed(rt.alloc())?, crowd_seed(rt.alloc())?);
    two_domains::<_, CountTable, Brand, Brand>(&rt, rt.alloc(), first, second)
}
