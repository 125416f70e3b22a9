//! What one of many threads does on a domain: rounds of its own slot, and its turns at what all of them share.
use crate::jobs::{Anything, Asked, Pages, Tells, job, passed, released};
use hl_domain::Pass;
use hl_drain::Ask;
use hl_epoch::Epochs;
use hl_images::{answer_copy, copy_next};
use hl_model::Fault;
use hl_words::{Realm, Rider};
use std::sync::Wait;

/// How many numbers there were, their sum, and the sum of their squares.
#[derive(Clone, Copy, Debug, PartialEq, Eq)]
pub(crate) struct Sums {
    count: u64,
    sum: u64,
    squares: u64,
}

impl Sums {
    pub(crate) const NONE: Sums = Sums {
        count: 0,
        sum: 0,
        squares: 0,
    };

    fn add(&mut self, number: u64) {
        self.count = self.count.wrapping_add(1);
        self.sum = self.sum.wrapping_add(number);
        self.squares = self.squares.wrapping_add(number.wrapping_mul(number));
    }

    /// The sums of both.
    pub(crate) fn with(self, other: Sums) -> Sums {
        Sums {
            count: self.count.wrapping_add(other.count),
            sum: self.sum.wrapping_add(other.sum),
            squares: self.squares.wrapping_add(other.squares),
        }
    }
}

/// A page of 8 words that was flushed, and its copy.
#[derive(Clone, Copy)]
pub(crate) struct Image {
    pub(crate) page: u64,
    pub(crate) words: [u64; 8],
}

/// What a thread has between its calls: a slot, a rider that acquires it, and one for the calls of a rider;
/// which jobs it stored, what the jobs that it ran answered, whether a load told another number than was stored,
/// how many steps its cuts told, and the images of the pages that it flushed, if it keeps them.
#[derive(Drop)]
pub(crate) struct Worker<L: Realm> {
    pub(crate) slot: u64,
    pub(crate) acquires: Option<Rider<L>>,
    pub(crate) rider: Rider<L>,
    pub(crate) stored: Sums,
    pub(crate) answered: Sums,
    pub(crate) lost: bool,
    pub(crate) fault: Option<Fault>,
    pub(crate) cuts: bool,
    pub(crate) cut: u64,
    pub(crate) images: Option<Vec<Image>>,
}

/// Acquires its slot, makes so many rounds, and releases it. It stops at a fault that others' calls can't have caused.
pub(crate) fn work<R: Wait, E: Epochs + Drop, L: Realm>(
    rt: &R,
    domain: &Pages<E, L>,
    mut worker: Worker<L>,
    rounds: u64,
) -> Worker<L> {
    let Some(rider) = worker.acquires.take() else {
        return worker;
    };
    match passed(domain.acquire(rt, worker.slot, rider)) {
        Ok(mut pass) => {
            if let Err(fault) = make_rounds(rt, domain, &mut worker, &mut pass, rounds) {
                worker.fault = Some(fault);
            }
            match released(domain.release(rt, pass)) {
                Ok(rider) => worker.acquires = Some(rider),
                Err(fault) => worker.fault = Some(fault),
            }
        }
        Err(fault) => worker.fault = Some(fault),
    }
    worker
}

fn make_rounds<R: Wait, E: Epochs + Drop, L: Realm>(
    rt: &R,
    domain: &Pages<E, L>,
    worker: &mut Worker<L>,
    pass: &mut Pass<L>,
    rounds: u64,
) -> Result<(), Fault> {
    for i in 0..rounds {
        if !keeps_a_word(rt, domain, pass, i)? {
            worker.lost = true;
        }
        take_turn(rt, domain, worker, i)?;
    }
    Ok(())
}

// Refreshes, looks, and allocates some words: whether a load of the first tells what was stored there.
fn keeps_a_word<R: Wait, E: Epochs + Drop, L: Realm>(
    rt: &R,
    domain: &Pages<E, L>,
    pass: &mut Pass<L>,
    i: u64,
) -> Result<bool, Fault> {
    domain.refresh(rt, pass)?;
    domain.look(pass)?;
    match domain.allocate(rt, pass, 1 + i % 3) {
        Ok(a) => {
            domain.store(pass, a, i)?;
            Ok(domain.load(pass, a)? == i)
        }
        Err(fault) => {
            unless_others_may(fault)?;
            Ok(true)
        }
    }
}

// Runs an action, if one is ready, and then makes one of eight kinds of call; another one in each round.
fn take_turn<R: Wait, E: Epochs + Drop, L: Realm>(
    rt: &R,
    domain: &Pages<E, L>,
    worker: &mut Worker<L>,
    i: u64,
) -> Result<(), Fault> {
    let rider = &mut worker.rider;
    take_and_run(rt, domain, rider, &mut worker.answered)?;
    match i.wrapping_add(worker.slot) % 8 {
        0 => {
            let (now, _, _) = domain.snapshot(rt);
            forgiven(domain.raise(rt, rider, now.six.tail))
        }
        1 => forgiven(bump(rt, domain, rider, Ask::Settle)),
        2 => forgiven(domain.bare(rt, rider)),
        3 => match &mut worker.images {
            Some(images) => flush_kept(rt, domain, rider, images),
            None => flush(rt, domain, rider),
        },
        4 => {
            let (now, _, _) = domain.snapshot(rt);
            forgiven(domain.shift(rt, rider, now.six.flushed))
        }
        5 => forgiven(bump(rt, domain, rider, Ask::Close)),
        6 => clean(rt, domain, rider),
        _ => {
            let number = worker.slot << 32 | worker.stored.count;
            match bump(rt, domain, rider, job(number, number)) {
                Ok(_) => worker.stored.add(number),
                Err(fault) => unless_others_may(fault)?,
            }
            if worker.cuts {
                worker.cut = worker.cut.wrapping_add(domain.cut(rt, rider));
            }
            Ok(())
        }
    }
}

fn bump<R: Wait, E: Epochs + Drop, L: Realm>(
    rt: &R,
    domain: &Pages<E, L>,
    rider: &mut Rider<L>,
    ask: Asked,
) -> Result<u64, Fault> {
    domain.bump(rt, rider, ask).map_err(|(fault, _)| fault)
}

/// Takes the oldest action, runs it, and is done with it. Its job's answer is added.
pub(crate) fn take_and_run<R: Wait, E: Epochs + Drop, L: Realm>(
    rt: &R,
    domain: &Pages<E, L>,
    rider: &mut Rider<L>,
    answered: &mut Sums,
) -> Result<(), Fault> {
    let ready = match domain.take(rt, rider) {
        Ok(ready) => ready,
        Err(fault) => return unless_others_may(fault),
    };
    let ran = ready.run();
    if let Some(answer) = ran.answer() {
        answered.add(answer);
    }
    match domain.done(rt, rider, ran) {
        Ok(_) => Ok(()),
        Err((fault, ran)) => {
            ran.forsake();
            Err(fault)
        }
    }
}

// Flushes a page, which is written nowhere.
fn flush<R: Wait, E: Epochs + Drop, L: Realm>(
    rt: &R,
    domain: &Pages<E, L>,
    rider: &mut Rider<L>,
) -> Result<(), Fault> {
    let load = match domain.flush_take(rt, rider) {
        Ok(load) => load,
        Err(fault) => return unless_others_may(fault),
    };
    match domain.flush_done(rt, rider, load, true) {
        Ok(_) => Ok(()),
        Err((fault, load)) => {
            load.forsake();
            Err(fault)
        }
    }
}

// Flushes a page of 8 words, and keeps its image.
fn flush_kept<R: Wait, E: Epochs + Drop, L: Realm>(
    rt: &R,
    domain: &Pages<E, L>,
    rider: &mut Rider<L>,
    images: &mut Vec<Image>,
) -> Result<(), Fault> {
    let mut words = [0u64; 8];
    if domain.params().page_size() != 8 {
        return Err(Fault::Size);
    }
    let load = match copy_next(rt, domain, rider, &mut words) {
        Ok(load) => load,
        Err(fault) => return unless_others_may(fault),
    };
    let page = load.job().page;
    match answer_copy(rt, domain, rider, load, true) {
        Ok(_) => images
            .push(Image { page, words })
            .map_err(|_| Fault::OutOfMemory),
        Err((fault, load)) => {
            load.forsake();
            Err(fault)
        }
    }
}

fn clean<R: Wait, E: Epochs + Drop, L: Realm>(
    rt: &R,
    domain: &Pages<E, L>,
    rider: &mut Rider<L>,
) -> Result<(), Fault> {
    let mut broom = match domain.clean_take(rt, rider) {
        Ok(broom) => broom,
        Err(fault) => return unless_others_may(fault),
    };
    if let Err(fault) = domain.sweep(&mut broom, rider) {
        broom.forsake();
        return Err(fault);
    }
    match domain.clean_done(rt, rider, broom) {
        Ok(_) => Ok(()),
        Err((fault, broom)) => {
            broom.forsake();
            Err(fault)
        }
    }
}

fn forgiven(answer: Result<u64, Fault>) -> Result<(), Fault> {
    match answer {
        Ok(_) => Ok(()),
        Err(fault) => unless_others_may(fault),
    }
}

// A fault that may come of how far other threads are is none.
fn unless_others_may(fault: Fault) -> Result<(), Fault> {
    match fault {
        Fault::DrainFull
        | Fault::WindowFull
        | Fault::Empty
        | Fault::NotReady { .. }
        | Fault::NotAbove
        | Fault::Busy { .. }
        | Fault::NoneSealed
        | Fault::NoneClosed => Ok(()),
        fault => Err(fault),
    }
}
