//! A crew on a domain of sizes that an engine wants.
ghost use Rattle.std.specs.Prelude.{◌≡◌, IfOk};
ghost use Rattle.hl_words.specs.States.{IsSeedOf};

use crate::crew::{Pages, STAMP, four};
use hl_counts::CountTable;
use hl_crew::{CrewEnd, OpenGate, run_crew};
use hl_image::{MemoryWriter, PageWriter};
use hl_model::{Fault, Sizes};
use hl_words::{Realm, Rider, Seed};
use std::alloc::Global;
use std::marker::Brand;
use std::process::Abort;
use std::sync::Wait;
use std::test::Fail;
use std::thread::Threads;

/// Words of a page, and how many pages are filled.
const WORDS: u64 = 1 << 14;

const PAGES: u64 = 16;

/// A slot fills so many pages, the first word of each page is its number and one more, and leaves.
fn fill<R: Wait, L: Realm>(
    rt: &R,
    domain: &Pages<CountTable, L>,
    rider: Rider<L>,
) -> Result<Rider<L>, Fault> {
    let mut pass = match domain.acquire(rt, 127, rider) {
        Ok(pass) => pass,
        Err((fault, _)) => return Err(fault),
    };
    for page in 0..PAGES {
        let at = domain.allocate(rt, &mut pass, WORDS)?;
        domain.store(&mut pass, at, page + 1)?;
        // What was stored enters, so that there is room for the next.
        domain.refresh(rt, &mut pass)?;
    }
    match domain.release(rt, pass) {
        Ok(rider) => Ok(rider),
        Err((fault, _)) => Err(fault),
    }
}

/// How many pages have an image in one of the writers, of its number and its first word.
fn images(writers: &[MemoryWriter; 2]) -> u64 {
    let [first, second] = writers;
    let mut images = 0u64;
    for page in 0..PAGES {
        if let Some(image) = first.image(page).or(second.image(page)) {
            let is_right = image.get(..8) == Some(&page.to_be_bytes())
                && image.get(8..16) == Some(&(page + 1).to_be_bytes());
            images = images.saturating_add(u64::from(is_right));
        }
    }
    images
}

fn crew_of_wide_sizes<R, L>(rt: &R, alloc: Global, seed: Seed) -> Result<(), Fail>
where
    R: Threads + Wait + Abort + Sync,
    L: Realm + Send + Sync,
    requires seed { IsSeedOf L.name L.parts L.table seed }
    requires named { (seed.sizes ≡ L.sizes) × (STAMP ≡ L.stamp) × (10_000 ≡ L.limit) }
    requires frames { seed.sizes.frames ≡ 256 }
{
    let (domain, mut riders) = Pages::<CountTable, L>::open(alloc, seed, 10_000, STAMP)?;
    fill(rt, &domain, riders.pop().ok_or("a rider")?)?;
    let end = flush_all(rt, alloc, &domain, four(&mut riders)?)?;
    assert!(rt; end.written == 15 && end.failed == 0 && end.strangers == 0);
    assert_eq!(rt; images(&end.writers), 15);
    see_frames(rt, &domain);
    Ok(())
}

// The crew flushes all pages but the last, and closes all but two, which it frees.
fn flush_all<R, L>(
    rt: &R,
    alloc: Global,
    domain: &Pages<CountTable, L>,
    crew: [Rider<L>; 4],
) -> Result<CrewEnd<L, MemoryWriter>, Fault>
where
    R: Threads + Wait + Sync,
    L: Realm + Send + Sync,
    requires frames { domain.now.sizes.frames ≡ 256 }
{
    let bytes = 8 + 8 * WORDS;
    let one = MemoryWriter::open(alloc, PAGES, bytes)?;
    let two = MemoryWriter::open(alloc, PAGES, bytes)?;
    match run_crew(
        rt, alloc, domain, crew, one, two, &OpenGate, 1, 2, 50_000, false,
    ) {
        Ok(end) => Ok(end),
        Err((fault, ..)) => Err(fault),
    }
}

// 240 frames were never entered. How many pages the cleaner finds in time is open.
fn see_frames<R: Wait + Abort, L: Realm>(rt: &R, domain: &Pages<CountTable, L>) {
    let (now, _, _) = domain.snapshot(rt);
    let [open, sealed, flushed, closed, free] = now.frames;
    assert!(rt; open == 1 && sealed == 0 && flushed == 1);
    assert!(rt; closed.saturating_add(free) == 254 && free > 240);
}

fn seed(alloc: Global) -> Result<Seed, Fault>
    ensures { IfOk result (λ seed. seed.sizes.frames ≡ 256) }
{
    let params = Sizes::checked(WORDS, 256, 128, 1024).ok_or(Fault::Size)?;
    Seed::make(alloc, params, 5)
}

#[test]
fn a_crew_of_wide_sizes(rt: HostRuntime) -> Result<(), Fail> {
    crew_of_wide_sizes::<_, Brand>(&rt, rt.alloc(), seed(rt.alloc())?)
}
