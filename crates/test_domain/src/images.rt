//! Pages that threads take, copy and answer while others store: each image is compared with the words of the journal.
ghost use Rattle.std.specs.Prelude.{◌≡◌};
ghost use Rattle.hl_words.specs.States.{IsSeedOf};

use crate::crowd::{crowd_seed, riders_of, work_all, workers_of};
use crate::jobs::{Anything, Pages, Tells};
use crate::work::{Image, Worker};
use hl_counts::CountTable;
use hl_domain::{Ending, Step};
use hl_epoch::{Epochs, ScanTable};
use hl_model::filled;
use hl_words::{Realm, Seed};
use std::alloc::Global;
use std::marker::Brand;
use std::process::Abort;
use std::sync::Wait;
use std::test::Fail;
use std::thread::Threads;

// Eight threads make rounds, flush pages in turn, and keep what they copied. Nobody cuts. An address is written by the
// thread that placed it, and by no other.
fn flush_in_a_crowd<R, E, L>(rt: &R, alloc: Global, seed: Seed) -> Result<(), Fail>
where
    R: Threads + Wait + Abort + Sync,
    E: Epochs + Drop + Send,
    L: Realm + Send + Sync,
    requires seed { IsSeedOf L.name L.parts L.table seed }
    requires named { (seed.sizes ≡ L.sizes) × (1000 ≡ L.stamp) × (2_097_152 ≡ L.limit) }
{
    let (domain, riders) = Pages::<E, L>::open(alloc, seed, 1 << 21, 1000)?;
    let mut workers = workers_of(alloc, riders)?;
    for worker in workers.iter_mut() {
        worker.cuts = false;
        worker.images = Some(Vec::new(alloc));
    }
    let workers = work_all(rt, &domain, workers, 2_000)?;
    let (images, workers) = images_of(rt, alloc, workers)?;
    let Ok(ending) = domain.close(riders_of(alloc, workers)?) else {
        panic!(rt; "a rider is missing")
    };
    compare(rt, alloc, images.as_slice(), &ending)
}

// What the workers copied. None met a fault.
fn images_of<L: Realm>(
    rt: &impl Abort,
    alloc: Global,
    mut workers: Vec<Worker<L>>,
) -> Result<(Vec<Image>, Vec<Worker<L>>), Fail> {
    let mut all = Vec::new(alloc);
    for worker in workers.iter_mut() {
        assert_eq!(rt; worker.fault, None);
        if let Some(images) = worker.images.take() {
            for image in images {
                all.push(image)?;
            }
        }
    }
    Ok((all, workers))
}

// Each image has the words that the journal's writes leave; and pages were flushed in used frames.
fn compare(
    rt: &impl Abort,
    alloc: Global,
    images: &[Image],
    ending: &Ending<Tells, Anything>,
) -> Result<(), Fail> {
    let words = words_of(alloc, ending)?;
    assert!(rt; images.len() > 8, "no frame was used again");
    for image in images {
        let first = image.page.wrapping_mul(8);
        for (place, word) in image.words.iter().enumerate() {
            let at = first.wrapping_add(place as u64) as usize;
            assert_eq!(rt; words.get(at), Some(word), "page {}", image.page);
        }
    }
    Ok(())
}

// The last value written at each address, or 0, up to the end of the last page.
fn words_of(alloc: Global, ending: &Ending<Tells, Anything>) -> Result<Vec<u64>, Fail> {
    let mut words = filled(alloc, ending.snapshot.six.tail.wrapping_add(8), 0)?;
    for step in ending.journal.iter() {
        if let Step::Write { t: _, a, v } = *step {
            if let Some(word) = words.get_mut(a as usize) {
                *word = v;
            }
        }
    }
    Ok(words)
}

#[test]
fn images_have_the_words_of_the_journal(rt: HostRuntime) -> Result<(), Fail> {
    flush_in_a_crowd::<_, ScanTable, Brand>(&rt, rt.alloc(), crowd_seed(rt.alloc())?)?;
    flush_in_a_crowd::<_, CountTable, Brand>(&rt, rt.alloc(), crowd_seed(rt.alloc())?)
}
