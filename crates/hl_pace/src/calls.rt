//! The calls that one thread makes.
use crate::work::{Kind, Work};
use hl_action::{Promise, Task};
use hl_domain::{Domain, Lease, Pass};
use hl_epoch::Epochs;
use hl_model::Fault;
use hl_words::{Realm, Rider};
use std::sync::atomic::{AtomicU64, Ordering};
use std::sync::{Mutex, Wait};

/// How many words each thread places: the piece of its records, and no line of a cache has words of two threads.
const PIECE: u64 = 256;

/// What the threads share beside the domain.
#[derive(Drop)]
pub(crate) struct Shared {
    /// A number under a lock of its own.
    pub(crate) floor: Mutex<u64>,
    /// How many threads haven't made all their calls.
    pub(crate) working: AtomicU64,
}

/// A thread in its slot: its pass, the piece that it leased, a word of its own, and the sum of the records' addresses.
#[derive(Drop)]
struct Seat<L: Realm> {
    pass: Pass<L>,
    lease: Lease,
    address: u64,
    sum: u64,
}

/// What a thread's calls go through.
#[derive(Drop)]
struct Caller<'x, R, E: Epochs, F: Task, P: Promise, L: Realm> {
    rt: &'x R,
    domain: &'x Domain<E, F, P, L>,
    shared: &'x Shared,
}

/// Acquires a slot, makes the calls of the work there, and releases it. A full journal is cut. No rider comes back if a
/// call was refused.
pub(crate) fn call_all<R: Wait, E: Epochs + Drop, F: Task, P: Promise, L: Realm>(
    rt: &R,
    domain: &Domain<E, F, P, L>,
    shared: &Shared,
    rider: Rider<L>,
    slot: u64,
    work: Work,
) -> Option<Rider<L>> {
    let mut pass = domain.acquire(rt, slot, rider).ok()?;
    if work.kind == Kind::LoadBeside && slot == 0 {
        refresh_beside(rt, domain, shared, &mut pass, work.calls).ok()?;
        return domain.release(rt, pass).ok();
    }
    let piece = PIECE.min(work.params.page_size());
    let address = domain.allocate(rt, &mut pass, piece).ok()?;
    let mut seat = Seat {
        pass,
        lease: Lease::of(address, 0),
        address,
        sum: 0,
    };
    let caller = Caller { rt, domain, shared };
    caller.call(&mut seat, work)?;
    shared.working.fetch_sub(1, Ordering::SeqCst);
    let Seat { pass, sum, .. } = seat;
    add_to(rt, &shared.floor, sum);
    domain.release(rt, pass).ok()
}

// Adds to a number under its lock.
fn add_to(rt: &impl Wait, floor: &Mutex<u64>, more: u64) {
    let mut number = floor.lock(rt);
    *number = number.wrapping_add(more);
}

// Refreshes while the others work, and cuts a full journal. It refreshes no more often than they call.
fn refresh_beside<E: Epochs + Drop, F: Task, P: Promise, L: Realm>(
    rt: &impl Wait,
    domain: &Domain<E, F, P, L>,
    shared: &Shared,
    pass: &mut Pass<L>,
    calls: u64,
) -> Result<(), Fault> {
    for _ in 0..calls {
        if shared.working.load(Ordering::SeqCst) <= 1 {
            break;
        }
        match domain.refresh(rt, pass) {
            Err(Fault::JournalFull) => {
                domain.cut(rt, pass.rider_mut());
            }
            refreshed => {
                refreshed?;
            }
        }
    }
    Ok(())
}

// Each kind has a loop of its own, in a function of its own, as a call has in a program. In one loop for all kinds each
// call would also choose its kind, and clear the places through which the other kinds are answered.
impl<R: Wait, E: Epochs + Drop, F: Task, P: Promise, L: Realm> Caller<'_, R, E, F, P, L> {
    // Makes the calls. `None` if one was refused.
    fn call(&self, seat: &mut Seat<L>, work: Work) -> Option<()> {
        let calls = work.calls;
        match work.kind {
            Kind::Lock => self.lock(calls),
            Kind::Refresh => self.refresh(seat, calls),
            Kind::Allocate => self.allocate(seat, calls),
            Kind::Store => self.store(seat, calls),
            Kind::Add => self.add(seat, calls),
            Kind::Lease => self.lease(seat, calls),
            Kind::Load | Kind::LoadBeside => self.load(seat, calls),
            Kind::Look => self.look(seat, calls),
            Kind::KeepUp => self.keep_up(seat, calls),
            Kind::Cut => self.cut(seat, calls),
            Kind::Past => self.past(seat, calls),
        }
    }

    // Cuts the journal, if a call was refused since it is full. `None` if it was refused for another reason.
    fn go_on(&self, seat: &mut Seat<L>, fault: Fault) -> Option<()> {
        if fault != Fault::JournalFull {
            return None;
        }
        self.domain.cut(self.rt, seat.pass.rider_mut());
        Some(())
    }

    #[inline(never)]
    fn lock(&self, calls: u64) -> Option<()> {
        for _ in 0..calls {
            add_to(self.rt, &self.shared.floor, 1);
        }
        Some(())
    }

    #[inline(never)]
    fn refresh(&self, seat: &mut Seat<L>, calls: u64) -> Option<()> {
        for _ in 0..calls {
            if let Err(fault) = self.domain.refresh(self.rt, &mut seat.pass) {
                self.go_on(seat, fault)?;
            }
        }
        Some(())
    }

    #[inline(never)]
    fn allocate(&self, seat: &mut Seat<L>, calls: u64) -> Option<()> {
        for _ in 0..calls {
            if let Err(fault) = self.domain.allocate(self.rt, &mut seat.pass, 1) {
                self.go_on(seat, fault)?;
            }
        }
        Some(())
    }

    #[inline(never)]
    fn store(&self, seat: &mut Seat<L>, calls: u64) -> Option<()> {
        let domain = self.domain;
        for _ in 0..calls {
            if let Err(Fault::TouchesFull) = domain.store(&mut seat.pass, seat.address, 1) {
                self.refresh(seat, 1)?;
            }
        }
        Some(())
    }

    #[inline(never)]
    fn add(&self, seat: &mut Seat<L>, calls: u64) -> Option<()> {
        for _ in 0..calls {
            if let Err(Fault::TouchesFull) = self
                .domain
                .fetch_add(&mut seat.pass, seat.address, 1)
            {
                self.refresh(seat, 1)?;
            }
        }
        Some(())
    }

    #[inline(never)]
    fn lease(&self, seat: &mut Seat<L>, calls: u64) -> Option<()> {
        for _ in 0..calls {
            match seat.lease.take(1) {
                Some(record) => seat.sum = seat.sum.wrapping_add(record),
                None => {
                    // A log has no words for so many records: a locked call, as an allocation is, and the log's first
                    // piece again.
                    self.refresh(seat, 1)?;
                    seat.lease = Lease::of(0, PIECE);
                }
            }
        }
        Some(())
    }

    #[inline(never)]
    fn past(&self, seat: &mut Seat<L>, calls: u64) -> Option<()> {
        let rider = seat.pass.rider_mut();
        for _ in 0..calls {
            let past = self.domain.past(rider);
            self.domain.tell_past(rider, past);
        }
        Some(())
    }

    #[inline(never)]
    fn load(&self, seat: &mut Seat<L>, calls: u64) -> Option<()> {
        let domain = self.domain;
        for _ in 0..calls {
            domain.load(&mut seat.pass, seat.address).ok()?;
        }
        Some(())
    }

    #[inline(never)]
    fn look(&self, seat: &mut Seat<L>, calls: u64) -> Option<()> {
        let domain = self.domain;
        for _ in 0..calls {
            domain.look(&mut seat.pass).ok()?;
        }
        Some(())
    }

    #[inline(never)]
    fn cut(&self, seat: &mut Seat<L>, calls: u64) -> Option<()> {
        for _ in 0..calls {
            self.domain.cut(self.rt, seat.pass.rider_mut());
        }
        Some(())
    }

    #[inline(never)]
    fn keep_up(&self, seat: &mut Seat<L>, calls: u64) -> Option<()> {
        let domain = self.domain;
        for _ in 0..calls {
            if let Err(fault) = domain.keep_up(self.rt, &mut seat.pass) {
                self.go_on(seat, fault)?;
            }
        }
        Some(())
    }
}
