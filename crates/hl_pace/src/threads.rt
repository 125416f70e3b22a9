//! The threads, and the domain that they share.
ghost use Rattle.std.specs.Prelude.{◌≡◌, ◌≤◌};
ghost use Rattle.hl_words.specs.States.{IsSeedOf};

use crate::calls::{Shared, call_all};
use crate::work::Work;
use hl_action::{AnyAnswer, NoJob};
use hl_counts::CountTable;
use hl_domain::Domain;
use hl_model::{Fault, with_room};
use hl_words::{Realm, Rider, Seed};
use std::alloc::Global;
use std::marker::Brand;
use std::sync::atomic::AtomicU64;
use std::sync::{Mutex, Wait};
use std::thread;
use std::thread::Threads;

/// How many steps the journal may have.
const JOURNAL: u64 = 1 << 21;

/// The stamp of the domain.
const STAMP: u64 = 1000;

/// Makes the calls, and returns whether all were accepted: a thread ends at a call that is refused.
///
/// `OutOfMemory` if memory was refused.
pub(crate) fn run<R: Threads + Wait + Sync>(
    rt: &R,
    alloc: Global,
    work: Work,
) -> Result<bool, Fault>
    requires { (1 ≤ work.threads) × (work.threads ≤ 8) }
{
    let seed = Seed::make(alloc, work.params, work.threads as usize)?;
    run_over::<Brand, R>(rt, alloc, seed, work)
}

// Makes the calls over the words of a seed.
fn run_over<L: Realm + Send + Sync, R: Threads + Wait + Sync>(
    rt: &R,
    alloc: Global,
    seed: Seed,
    work: Work,
) -> Result<bool, Fault>
    requires seed { IsSeedOf L.name L.parts L.table seed }
    requires named { (seed.sizes ≡ L.sizes) × (1000 ≡ L.stamp) × (2_097_152 ≡ L.limit) }
{
    let (domain, riders) = Domain::<CountTable, NoJob, AnyAnswer, L>::open(
        alloc, seed, JOURNAL, STAMP,
    )?;
    let shared = Shared {
        floor: Mutex::new(0),
        working: AtomicU64::new(work.threads),
    };
    let mut seats = with_room(alloc, riders.len() as u64)?;
    for rider in riders {
        seats.push(Some(rider)).map_err(|_| Fault::OutOfMemory)?;
    }
    let threads = seats.len().max(1);
    let start = |slot: usize, seat: &mut Option<Rider<L>>| {
        if let Some(rider) = seat.take() {
            *seat = call_all(rt, &domain, &shared, rider, slot as u64, work);
        }
    };
    thread::for_each_mut(rt, seats.as_mut_slice(), threads, &start);
    Ok(seats.iter().all(Option::is_some))
}
