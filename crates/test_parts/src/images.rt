//! What a crew writes: each image on a device in memory is compared with the words of the journal.
use hl::{
    Closed, Duty, Ending, Fault, MemoryDevice, NoJob, Opening, Params, Realm, Session, Step, Work,
    Written, with_memory,
};
use hl_model::filled;
use std::alloc::Global;
use std::process::Abort;
use std::sync::Wait;
use std::test::Fail;

/// How many records each thread places.
const RECORDS: u64 = 300;

/// Each thread places records of a word, and stores into each twice: no other thread writes there.
struct OwnWords;

impl<R: Wait> Work<R> for OwnWords {
    type Job = NoJob;

    type Out = Result<(), Fault>;

    fn run<L: Realm + Send + Sync>(
        &self,
        _rt: &R,
        session: &mut Session<R, L>,
        number: u64,
    ) -> Result<(), Fault> {
        for round in 0..RECORDS {
            let word = number.wrapping_mul(1_000_000).wrapping_add(round);
            let Ok(address) = place(session) else {
                return Ok(());
            };
            // A record whose page became read-only meanwhile keeps the word that it has.
            let _ = session.store(address, word);
            let _ = session.store(address, word.wrapping_add(500_000));
        }
        Ok(())
    }

    fn write_page(&self, _rt: &R, _page: u64, _image: &[u8]) -> bool {
        false
    }
}

// Places a word: it waits for a frame as long as that takes the crew.
fn place<R: Wait, L: Realm>(session: &mut Session<R, L>) -> Result<u64, Fault> {
    for _ in 0..1_000_000 {
        session.keep_up()?;
        match session.allocate(1) {
            Err(Fault::Busy { .. }) => std::thread::yield_now(),
            placed => return placed,
        }
    }
    session.allocate(1)
}

// The last value written at each address, or 0, up to the end of the last page of 4 words.
fn words_of<F: hl::Task, P: hl::Promise>(
    alloc: Global,
    ending: &Ending<F, P>,
) -> Result<Vec<u64>, Fail> {
    let mut words = filled(alloc, ending.snapshot.six.tail.wrapping_add(4), 0)?;
    for step in ending.journal.iter() {
        if let Step::Write { t: _, a, v } = *step {
            if let Some(word) = words.get_mut(a as usize) {
                *word = v;
            }
        }
    }
    Ok(words)
}

// Each flushed page is on the device: its number and its words, eight bytes each.
fn compare(
    rt: &impl Abort,
    alloc: Global,
    closed: Closed<Written<Result<(), Fault>>>,
) -> Result<(), Fail> {
    let ending = closed.ending?;
    let words = words_of(alloc, &ending)?;
    let pages = ending.snapshot.six.flushed / 4;
    assert!(rt; pages > 8, "no frame was used again");
    for page in 0..pages {
        let Some(image) = image_of(&closed.out.device, page) else {
            panic!(rt; "page {page} is missing")
        };
        assert_eq!(rt; number(image, 0), page);
        for place in 0..4u64 {
            let at = page.wrapping_mul(4).wrapping_add(place) as usize;
            assert_eq!(rt;
                words.get(at).copied(),
                Some(number(image, place.wrapping_add(1)))
            );
        }
    }
    Ok(())
}

// The image of a page that one of the two writers has.
fn image_of(device: &MemoryDevice, page: u64) -> Option<&[u8]> {
    match device.images(page) {
        (Some(image), _) => Some(image),
        (None, image) => image,
    }
}

// The number in the eight bytes at this place, the most significant first.
fn number(image: &[u8], place: u64) -> u64 {
    let mut number = 0u64;
    for k in 0..8u64 {
        let at = place.wrapping_mul(8).wrapping_add(k) as usize;
        let byte = image.get(at).copied().unwrap_or(0);
        number = number.wrapping_mul(256).wrapping_add(byte as u64);
    }
    number
}

// Four threads fill pages of four words in eight frames, beside a crew; nobody cuts.
#[test]
fn written_pages_have_the_words_of_the_journal(rt: HostRuntime) -> Result<(), Fail> {
    let params = Params::checked(4, 8, 4, 16).ok_or(Fault::Size)?;
    let opening = Opening {
        params,
        riders: 8,
        journal: 100_000,
        stamp: 1,
    };
    let duty = Duty::checked(params, 2, 4).ok_or(Fault::Size)?;
    let device = MemoryDevice::open(rt.alloc(), 400, 40)?;
    let closed = with_memory(&rt, rt.alloc(), opening, duty, &OwnWords, device)?;
    compare(&rt, rt.alloc(), closed)
}
