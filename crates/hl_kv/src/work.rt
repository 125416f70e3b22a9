//! The threads that use the store, and what they check.
use crate::device::{PAGE_SIZE, zeros};
use crate::images;
use crate::store::{Operation, Seat, Store};
use anyhow::{Result, ensure};
use hl::{ArrayVec, Config, Fault, Holder, NoJob, Realm, Session, Work, run_threads};
use rand::distr::Distribution;
use rand::distr::weighted::WeightedIndex;
use rand::prelude::{IndexedRandom, RngExt, SeedableRng, SmallRng};
use std::alloc::Global;
use std::num::nearest_u64_to_f64;
use std::sync::Wait;
use std::sync::atomic::AtomicU64;
use std::sync::atomic::Ordering::SeqCst;
use std::thread::Threads;
use std::time::{Clock, Instant};
use std::{io, mem};

/// How many operations a thread makes before it looks at the clock.
const BATCH: u64 = 4096;

/// How many batches a thread makes where the images are compared.
const BATCHES: u64 = 16;

/// How many keys are drawn by Zipf's law before the threads start, and then used over and over.
const DRAWS: usize = 1 << 20;

/// What the program is to do.
#[derive(Clone, Copy)]
pub(crate) struct Plan {
    /// The sizes of the log, and how many threads use it.
    pub(crate) config: Config,
    pub(crate) seconds: u64,
    /// How many of a hundred operations are reads.
    pub(crate) reads: u64,
    pub(crate) by_zipf: bool,
    pub(crate) keys: u64,
    /// Whether the thread, if it is alone, upserts too, and compares all that it reads with a row of its own.
    pub(crate) compares: bool,
    /// Whether nothing is cut from the journal, each thread makes so many batches, and the images are compared with it.
    pub(crate) images: bool,
}

// What the threads share. The keys below `plan.keys` are counters; those above are marks, one of each thread.
#[derive(Drop)]
struct Shared {
    plan: Plan,
    store: Store,
    // Keys by Zipf's law, if they are drawn so.
    drawn: Option<Vec<u64>>,
    // What the threads that have ended added to each counter, by their own account.
    sums: Vec<AtomicU64>,
    operations: AtomicU64,
    copies: AtomicU64,
}

/// Runs the plan, and prints what was right.
pub(crate) fn run<R: Threads + Wait + Clock + Print + Sync>(
    rt: &R,
    alloc: Global,
    plan: Plan,
) -> Result<()> {
    let shared = Shared {
        plan,
        store: Store::open(alloc, plan.keys)?,
        drawn: plan.by_zipf.then(|| zipf(alloc, plan.keys)).transpose()?,
        sums: zeros(alloc, plan.keys)?,
        operations: AtomicU64::new(0),
        copies: AtomicU64::new(0),
    };
    let finished = run_threads(rt, alloc, plan.config, &shared)?;
    finished.crew?;
    let mut ended = finished.outs.into_iter().chain(finished.last);
    ended.try_for_each(|outcome| outcome)?;
    println!(rt; "checked {} counters", plan.keys)?;
    if let Some(pace) = shared.operations.load(SeqCst).checked_div(plan.seconds) {
        println!(rt; "operations a second {pace}")?;
    }
    if plan.images {
        let words = images::compare(&shared.store.device, &finished.ending)?;
        let pages = finished.ending.snapshot.six.flushed / PAGE_SIZE;
        println!(rt; "checked {words} words of {pages} images")?;
    }
    Ok(())
}

impl<R: Wait + Clock + Print> Work<R> for Shared {
    type Job = NoJob;

    type Out = Result<()>;

    // What a thread does until its time is over.
    fn run<L: Realm + Send + Sync>(
        &self,
        rt: &R,
        session: &mut Session<R, L>,
        number: u64,
    ) -> Result<()> {
        let mut seat = Seat::new(session, &self.store);
        let mut sums = vec![in *self.sums.allocator(); 0; self.sums.len()]?;
        let mut random = SmallRng::seed_from_u64(number);
        let mark = self.plan.keys.saturating_add(number);
        let start = Instant::now(rt)?;
        let mut told = 0;
        for batch in 1..u64::MAX {
            seat.batch(self, &mut random, &mut sums)?;
            seat.apply(mark, Operation::Upsert(batch))?;
            seat.expect(mark, batch)?;
            let second = start.elapsed(rt)?.as_secs();
            if told < second && number == 0 {
                seat.report(rt, self, second)?;
            }
            told = second;
            if self.plan.seconds <= second && (!self.plan.images || BATCHES <= batch) {
                break;
            }
        }
        for (all, own) in self.sums.iter().zip(sums.iter()) {
            all.fetch_add(*own, SeqCst);
        }
        Ok(())
    }

    // Reads what all have left.
    fn finish<L: Realm + Send + Sync>(
        &self,
        _rt: &R,
        session: &mut Session<R, L>,
    ) -> Option<Result<()>> {
        Some(Seat::new(session, &self.store).check(&self.sums))
    }

    fn write_page(&self, _rt: &R, page: u64, image: &[u8]) -> bool {
        self.store.device.write(page, image).is_some()
    }
}

impl<'a, 'b, R: Wait + Print, L: Realm> Seat<'a, 'b, R, L> {
    // Reads counters, and adds to them. Only a thread that is alone may upsert one: the others sum up what they added.
    fn batch(&mut self, shared: &Shared, random: &mut SmallRng, sums: &mut [u64]) -> Result<()> {
        let plan = &shared.plan;
        for _ in 0..BATCH {
            self.make_room()?;
            let key = match &shared.drawn {
                Some(row) => row.choose(random).copied().unwrap_or(0),
                None => random.random_range(0..=plan.keys.saturating_sub(1)),
            };
            let value = random.random_range(0..1000u64);
            let sum = sums.get_mut(key as usize).ok_or(Fault::Size)?;
            if random.random_range(0..100u64) < plan.reads {
                let held = self.apply(key, Operation::Read)?.unwrap_or(0);
                let is_right = held == *sum || !plan.compares;
                ensure!(is_right, "key {key} holds {held}, not {sum}");
            } else if plan.compares && value < 500 {
                self.apply(key, Operation::Upsert(value))?;
                *sum = value;
            } else {
                self.apply(key, Operation::Add(value))?;
                *sum = sum.wrapping_add(value);
            }
        }
        shared.operations.fetch_add(BATCH, SeqCst);
        shared.copies.fetch_add(mem::take(&mut self.copies), SeqCst);
        Ok(())
    }

    // Compares each counter with what the threads added to it.
    fn check(&mut self, sums: &[AtomicU64]) -> Result<()> {
        for (sum, key) in sums.iter().zip(0u64..) {
            self.expect(key, sum.load(SeqCst))?;
        }
        Ok(())
    }

    // Reads a key, which has to hold what is due. A key without a value holds 0.
    fn expect(&mut self, key: u64, due: u64) -> Result<()> {
        let held = self.apply(key, Operation::Read)?.unwrap_or(0);
        ensure!(held == due, "key {key} holds {held}, not {due}");
        Ok(())
    }

    // Prints what the threads have done so far, how many frames are free, and which slots hold up the oldest action.
    fn report(&self, rt: &R, shared: &Shared, second: u64) -> io::Result<()> {
        let operations = shared.operations.load(SeqCst);
        let copies = shared.copies.load(SeqCst);
        let now = self.session.log().snapshot(rt).0;
        let (written, free) = (now.six.flushed / PAGE_SIZE, now.frames[4]);
        print!(rt; "{second} operations {operations} copies {copies}")?;
        print!(rt; " written {written} free {free}")?;
        let mut holders = ArrayVec::<Holder, 64>::new();
        if let Some(ticket) = self.session.log().holders(rt, &mut holders) {
            print!(rt; " action {ticket}")?;
            for holder in holders.as_slice() {
                print!(rt; " held by {}", holder.slot)?;
            }
        }
        println!(rt)
    }
}

// Keys by Zipf's law: the one of rank r has the weight 1 / r^0.99.
fn zipf(alloc: Global, keys: u64) -> Result<Vec<u64>> {
    let weights = (1..=keys).map(|rank| 1.0 / nearest_u64_to_f64(rank).powf(0.99));
    let weights = weights.collect::<Vec<f64>>(alloc)?;
    let law = WeightedIndex::new(alloc, weights.as_slice())?;
    let drawn = law.sample_iter(SmallRng::seed_from_u64(keys)).take(DRAWS);
    Ok(drawn.map(|key| key as u64).collect(alloc)?)
}
