ghost use Rattle.std.specs.Prelude.{◌≡◌, ◌≤◌, IfOk};
ghost use Rattle.hl_words.specs.States.{IsSeedOf};

use crate::gates::{HoldsFirst, KeepsFirst};
use hl_action::{Firing, Promise, Ran, Ready, Task};
use hl_counts::CountTable;
use hl_crew::{CrewEnd, Gate, OpenGate, run_crew};
use hl_domain::{Domain, Pass};
use hl_drain::Ask;
use hl_epoch::{Epochs, ScanTable};
use hl_image::{MemoryWriter, PageWriter};
use hl_model::{Fault, Params, Six, Snapshot};
use hl_words::{Realm, Rider, Seed};
use std::alloc::Global;
use std::array;
use std::marker::Brand;
use std::process::Abort;
use std::sync::Wait;
use std::test::Fail;
use std::thread::Threads;

/// Any answer will do.
pub(crate) struct Anything;

impl Promise for Anything {
    ghost keeps = { λ tag firing answer. answer ≡ answer };
}

/// Answers its ticket.
#[derive(Drop)]
pub(crate) struct Ticket;

impl Task for Ticket {
    ghost can = { λ job firing. firing ≡ firing };

    ghost gives = { λ job firing answer. answer ≡ firing.ticket };

    fn call(self, firing: Firing) -> u64 {
        firing.ticket()
    }
}

pub(crate) type Pages<E, L> = Domain<E, Ticket, Anything, L>;

/// What a run of the crew left: what it counted, its writers, the quantities then, all steps, how many were cut, and how
/// many each rider entered.
#[derive(Drop)]
pub(crate) struct Left {
    pub(crate) written: u64,
    pub(crate) failed: u64,
    pub(crate) strangers: u64,
    writers: [MemoryWriter; 2],
    pub(crate) now: Snapshot,
    steps: u64,
    pub(crate) cut: u64,
    pub(crate) shares: [u64; 4],
}

impl Left {
    /// Whether the riders entered as many steps as there are.
    pub(crate) fn is_whole(&self) -> bool {
        let shares = self.shares.iter();
        self.steps == shares.fold(0u64, |sum, share| sum.wrapping_add(*share))
    }
}

/// How a crew is run: the write of each writer that fails (0: none), the bytes of the pages that each writer takes (of
/// other pages each write fails), the pages that stay resident, the turns, and whether the journal is cut.
#[derive(Clone, Copy)]
pub(crate) struct Run {
    pub(crate) fails_at: u64,
    pub(crate) bytes: [u64; 2],
    pub(crate) resident: u64,
    pub(crate) turns: u64,
    pub(crate) cut: bool,
}

/// One turn, in which no write fails.
pub(crate) const ONE_TURN: Run = Run {
    fails_at: 0,
    bytes: [40, 40],
    resident: 4,
    turns: 1,
    cut: false,
};

pub(crate) const STAMP: u64 = 1000;

pub(crate) fn seed(alloc: Global) -> Result<Seed, Fault>
    ensures { IfOk result (λ seed. seed.sizes.frames ≡ 4) }
{
    seed_of(alloc, 4)
}

/// Words for so many riders, of pages of 4 words in 4 frames.
pub(crate) fn seed_of(alloc: Global, riders: usize) -> Result<Seed, Fault>
    requires { (1 ≤ riders) × (riders ≤ 128) }
    ensures { IfOk result (λ seed. seed.sizes.frames ≡ 4) }
{
    let params = Params::checked(4, 4, 2, 4).ok_or(Fault::Size)?;
    Seed::make(alloc, params, riders)
}

/// A slot acquires, allocates three pages whole, and leaves.
pub(crate) fn allocate_pages<R: Wait, E: Epochs + Drop, L: Realm>(
    rt: &R,
    domain: &Pages<E, L>,
    rider: Rider<L>,
) -> Result<Rider<L>, Fault> {
    let mut pass = domain.acquire(rt, 0, rider).map_err(|(fault, _)| fault)?;
    place_three(rt, domain, &mut pass)?;
    domain.release(rt, pass).map_err(|(fault, _)| fault)
}

/// Allocates three pages whole.
pub(crate) fn place_three<R: Wait, E: Epochs + Drop, L: Realm>(
    rt: &R,
    domain: &Pages<E, L>,
    pass: &mut Pass<L>,
) -> Result<(), Fault> {
    for _ in 0..3 {
        domain.allocate(rt, pass, 4)?;
    }
    Ok(())
}

/// Bumps a settle, and takes it.
pub(crate) fn settle<R: Wait, E: Epochs + Drop, L: Realm>(
    rt: &R,
    domain: &Pages<E, L>,
    rider: &mut Rider<L>,
) -> Result<Ready<Ticket, Anything>, Fault> {
    if let Err((fault, _)) = domain.bump(rt, rider, Ask::Settle) {
        return Err(fault);
    }
    domain.take(rt, rider)
}

/// Whether the domain is done with an action that ran.
pub(crate) fn is_done<R: Wait, E: Epochs + Drop, L: Realm>(
    rt: &R,
    domain: &Pages<E, L>,
    rider: &mut Rider<L>,
    ran: Ran,
) -> bool {
    match domain.done(rt, rider, ran) {
        Ok(_) => true,
        Err((_, ran)) => {
            ran.forsake();
            false
        }
    }
}

/// Four of these riders, for a crew.
pub(crate) fn four<L: Realm>(riders: &mut Vec<Rider<L>>) -> Result<[Rider<L>; 4], Fault> {
    array::try_from_fn(|_| riders.pop().ok_or(Fault::Size))
}

/// This rider and three others, for a crew.
fn crew_of<L: Realm>(rider: Rider<L>, riders: &mut Vec<Rider<L>>) -> Result<[Rider<L>; 4], Fault> {
    let (Some(first), Some(second), Some(cleaning)) = (riders.pop(), riders.pop(), riders.pop())
    else {
        return Err(Fault::Size);
    };
    Ok([rider, first, second, cleaning])
}

/// Runs the crew with two writers in memory, with one page mutable.
pub(crate) fn run_both<R, E, L, G>(
    rt: &R,
    alloc: Global,
    domain: &Pages<E, L>,
    crew: [Rider<L>; 4],
    gate: &G,
    run: Run,
) -> Result<CrewEnd<L, MemoryWriter>, Fault>
where
    R: Threads + Wait + Sync,
    E: Epochs + Drop + Send,
    L: Realm + Send + Sync,
    G: Gate + Sync,
    requires frames { domain.now.sizes.frames ≡ 4 }
    requires resident { (1 ≤ run.resident) × (run.resident ≤ 4) }
{
    let Run {
        fails_at,
        bytes: [first, second],
        resident,
        turns,
        cut,
    } = run;
    let mut one = MemoryWriter::open(alloc, 3, first)?;
    let mut two = MemoryWriter::open(alloc, 3, second)?;
    one.fail_at(fails_at);
    two.fail_at(fails_at);
    match run_crew(
        rt, alloc, domain, crew, one, two, gate, 1, resident, turns, cut,
    ) {
        Ok(end) => Ok(end),
        Err((fault, ..)) => Err(fault),
    }
}

/// Runs the crew on a domain of three whole pages.
pub(crate) fn crew_left<R, E, L, G>(
    rt: &R,
    alloc: Global,
    seed: Seed,
    gate: &G,
    run: Run,
) -> Result<Left, Fail>
where
    R: Threads + Wait + Abort + Sync,
    E: Epochs + Drop + Send,
    L: Realm + Send + Sync,
    G: Gate + Sync,
    requires seed { IsSeedOf L.name L.parts L.table seed }
    requires named { (seed.sizes ≡ L.sizes) × (STAMP ≡ L.stamp) × (100 ≡ L.limit) }
    requires frames { seed.sizes.frames ≡ 4 }
    requires resident { (1 ≤ run.resident) × (run.resident ≤ 4) }
{
    let (domain, mut riders) = Pages::<E, L>::open(alloc, seed, 100, STAMP)?;
    let flushing = allocate_pages(rt, &domain, riders.pop().ok_or("a rider")?)?;
    let crew = crew_of(flushing, &mut riders)?;
    let end = run_both(rt, alloc, &domain, crew, gate, run)?;
    Ok(left_of(rt, &domain, end))
}

fn left_of<R: Wait, E: Epochs + Drop, L: Realm>(
    rt: &R,
    domain: &Pages<E, L>,
    end: CrewEnd<L, MemoryWriter>,
) -> Left {
    let (now, since, cut) = domain.snapshot(rt);
    let CrewEnd {
        riders,
        writers,
        written,
        failed,
        strangers,
        ..
    } = end;
    let [flushing, first, second, cleaning] = &riders;
    Left {
        written,
        failed,
        strangers,
        writers,
        now,
        steps: since.saturating_add(cut),
        cut,
        shares: [
            flushing.share(),
            first.share(),
            second.share(),
            cleaning.share(),
        ],
    }
}

// Both sealed pages are written.
fn flushed_both(rt: &impl Abort, left: &Left) {
    assert!(rt; left.written == 2 && left.failed == 0 && left.strangers == 0);
    assert_eq!(rt; left.now.six.flushed, 8);
}

#[test]
fn gated_crew(rt: HostRuntime) -> Result<(), Fail> {
    let (one, other) = (seed(rt.alloc())?, seed(rt.alloc())?);
    let gate = &HoldsFirst::new();
    let left = crew_left::<_, ScanTable, Brand, _>(&rt, rt.alloc(), one, gate, ONE_TURN)?;
    flushed_both(&rt, &left);
    let gate = &HoldsFirst::new();
    let left = crew_left::<_, CountTable, Brand, _>(&rt, rt.alloc(), other, gate, ONE_TURN)?;
    flushed_both(&rt, &left);
    Ok(())
}

#[test]
fn gate_never_opens(rt: HostRuntime) -> Result<(), Fail> {
    let gate = &KeepsFirst::new();
    let left = crew_left::<_, CountTable, Brand, _>(
        &rt,
        rt.alloc(),
        seed(rt.alloc())?,
        gate,
        ONE_TURN,
    )?;
    assert_eq!(rt; gate.asks(), 1_000_000);
    assert!(rt; left.written == 1 && left.failed == 1 && left.strangers == 0);
    let six = Six {
        closed: 0,
        head: 0,
        flushed: 0,
        safe_read_only: 8,
        read_only: 8,
        tail: 12,
    };
    assert!(rt; left.now.six == six && left.now.frames == [1, 1, 1, 0, 1]);
    Ok(())
}

/// How many of the three pages have an image in one of the writers.
fn images(writers: &[MemoryWriter; 2]) -> u64 {
    let [first, second] = writers;
    let mut images = 0u64;
    for page in 0..3 {
        if first.image(page).is_some() || second.image(page).is_some() {
            images = images.saturating_add(1);
        }
    }
    images
}

#[test]
fn failing_crew_writers(rt: HostRuntime) -> Result<(), Fail> {
    let run = Run {
        fails_at: 1,
        ..ONE_TURN
    };
    let left = crew_left::<_, CountTable, Brand, _>(
        &rt,
        rt.alloc(),
        seed(rt.alloc())?,
        &OpenGate,
        run,
    )?;
    let [first, second] = &left.writers;
    assert_eq!(rt;
        left.failed,
        first.failures().saturating_add(second.failures())
    );
    assert_eq!(rt; left.written, images(&left.writers));
    assert!(rt; left.written.saturating_add(left.failed) == 2 && left.strangers == 0);
    Ok(())
}

/// Three turns in which each of the two sealed pages is taken, fails, and may be taken again.
#[test]
fn crew_writers_always_fail(rt: HostRuntime) -> Result<(), Fail> {
    let run = Run {
        bytes: [39, 39],
        turns: 3,
        ..ONE_TURN
    };
    let left = crew_left::<_, CountTable, Brand, _>(
        &rt,
        rt.alloc(),
        seed(rt.alloc())?,
        &OpenGate,
        run,
    )?;
    assert!(rt; left.written == 0 && left.failed == 6 && left.strangers == 0);
    assert!(rt; images(&left.writers) == 0 && left.now.six.flushed == 0);
    assert!(rt; left.is_whole() && left.cut == 0);
    Ok(())
}
