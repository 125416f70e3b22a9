//! Thousands of actions at once: jobs that an engine stored, and workers end in about the order in which they were taken.
ghost use Rattle.std.specs.Prelude.{◌≡◌};

use crate::digest::Digest;
use crate::random::Random;
use hl::{AnyAnswer, CountTable, Fault, Firing, Kept, Params, Reply, Task};
use hl_cells::Engine;
use std::alloc::Global;

/// How many actions wait, and then are taken, at once.
const ACTIONS: u64 = 4096;

/// An engine whose jobs are checkpoints.
type Store = Engine<CountTable, Checkpoint, AnyAnswer>;

/// A job that answers from the number that it was given and its ticket.
#[derive(Drop)]
struct Checkpoint {
    number: u64,
}

impl Task for Checkpoint {
    ghost can = { λ job firing. firing ≡ firing };

    ghost gives = { λ job firing answer. answer ≡ answer };

    fn call(self, firing: Firing) -> u64 {
        self.number.wrapping_mul(3).wrapping_add(firing.ticket())
    }
}

/// Makes so many rounds. Returns the digest of all answers.
pub(crate) fn run(alloc: Global, seed: u64, rounds: u64) -> Result<u64, Fault> {
    let params = Params::wide(64, 64, 8, ACTIONS).ok_or(Fault::Size)?;
    let mut store = Store::open(alloc, params)?;
    for slot in 0..8 {
        store.acquire(slot)?;
    }
    let mut random = Random::of(seed, 4);
    let mut digest = Digest::new();
    let mut tickets = Vec::with_capacity(alloc, ACTIONS as usize).map_err(|_| Fault::OutOfMemory)?;
    for round in 0..rounds {
        let stored = round.wrapping_mul(ACTIONS);
        for number in 0..random.between(ACTIONS / 2, ACTIONS) {
            let job = Checkpoint {
                number: random.next(),
            };
            let kept = Kept::new(stored.wrapping_add(number), job);
            digest.add(store.bump(kept).map_err(|(fault, _)| fault)?);
        }
        for slot in 0..8 {
            digest.add(store.refresh(slot)?.epoch);
        }
        take_all(&mut store, &mut tickets)?;
        // One worker, a pool of them, or as many as there are jobs.
        let workers = [1, 16, 256, ACTIONS][(round % 4) as usize];
        end_all(&mut store, &mut tickets, workers, &mut random, &mut digest)?;
    }
    Ok(digest.value())
}

// Takes all actions: their tickets, the newest first.
fn take_all(store: &mut Store, tickets: &mut Vec<u64>) -> Result<(), Fault> {
    tickets.clear();
    for _ in 0..ACTIONS {
        match store.take() {
            Ok(ticket) => tickets.push(ticket).map_err(|_| Fault::OutOfMemory)?,
            Err(Fault::Empty) => break,
            Err(fault) => return Err(fault),
        }
    }
    tickets.reverse();
    Ok(())
}

// Ends all actions: each time one of the oldest, as many as there are workers.
fn end_all(
    store: &mut Store,
    tickets: &mut Vec<u64>,
    workers: u64,
    random: &mut Random,
    digest: &mut Digest,
) -> Result<(), Fault> {
    for _ in 0..ACTIONS {
        let left = tickets.len() as u64;
        let Some(oldest) = left.checked_sub(1) else {
            break;
        };
        let at = oldest.saturating_sub(random.below(workers.min(left)));
        tickets.swap(at as usize, oldest as usize);
        let Some(ticket) = tickets.pop() else {
            break;
        };
        match store.done(ticket)? {
            Reply::Answer(answer) => digest.add(answer),
            _ => digest.add(0),
        }
        // Somebody looks on.
        if left % 512 == 0 {
            digest.add_snapshot(&store.snapshot());
        }
    }
    Ok(())
}
