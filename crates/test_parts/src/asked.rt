//! What a crew asks of a device: for which pages, with which images, and how often.
use hl::{
    Duty, Fault, NoJob, Opening, Params, Realm, Returned, Session, Step, Work, attempt,
    with_threads,
};
use std::alloc::Global;
use std::sync::{Mutex, Wait};
use std::test::Fail;

/// How many threads place records, and how many each.
const THREADS: u64 = 3;

const RECORDS: u64 = 200;

/// Words a page, and a record. So a page has two records, and behind them two words that lie in none.
const PAGE: u64 = 8;

const RECORD: u64 = 3;

/// How many pages the records take, and in how many frames.
const PAGES: u64 = 300;

const FRAMES: u64 = 8;

/// The bytes of an image: 8 of the page's number, and 8 for each of its words.
const IMAGE: usize = 72;

/// How often a record is tried to be placed again while no frame is free.
const AGAIN: u32 = 100_000;

// That a device was asked to write a page; whether the image was that of the page; and what it answered.
#[derive(Clone, Copy)]
struct Asked {
    page: u64,
    is_right: bool,
    answer: bool,
}

// A device that fails to write a page twice, once or not at all before it does; and threads that place records.
#[derive(Drop)]
struct Device {
    asked: Mutex<Vec<Asked>>,
}

impl<R: Wait> Work<R> for Device {
    type Job = NoJob;

    type Out = Result<(), Fault>;

    fn run<L: Realm + Send + Sync>(
        &self,
        _rt: &R,
        session: &mut Session<R, L>,
        _number: u64,
    ) -> Result<(), Fault> {
        for _ in 0..RECORDS {
            let first = attempt(session, AGAIN, |session| session.allocate(RECORD))?;
            for address in first..first.saturating_add(RECORD) {
                session.store(address, word_at(address))?;
            }
        }
        Ok(())
    }

    fn write_page(&self, rt: &R, page: u64, image: &[u8]) -> bool {
        let mut asked = self.asked.lock(rt);
        let before = asked.iter().filter(|ask| ask.page == page).count();
        let answer = before as u64 == failures_of(page);
        let ask = Asked {
            page,
            is_right: is_image(image, page),
            answer,
        };
        asked.push(ask).is_ok() && answer
    }
}

// The word that lies at an address of a record.
fn word_at(address: u64) -> u64 {
    address.wrapping_mul(7).wrapping_add(1)
}

// How often a write of this page fails.
fn failures_of(page: u64) -> u64 {
    page % 3
}

// Whether it is the image of the page: its number, the words of two records, and two words that are 0, each with its most
// significant byte first.
fn is_image(image: &[u8], page: u64) -> bool {
    let mut is_right = image.len() == IMAGE && image.get(..8) == Some(&page.to_be_bytes());
    for (place, bytes) in (0..PAGE).zip(image.chunks(8).skip(1)) {
        let address = page.wrapping_mul(PAGE).wrapping_add(place);
        let word = if place < 2 * RECORD {
            word_at(address)
        } else {
            0
        };
        is_right = is_right && bytes == word.to_be_bytes().as_slice();
    }
    is_right
}

// What the journal tells of the writes of a page: whether each ended well.
fn ends_of(alloc: Global, journal: &[Step], page: u64) -> Result<Vec<bool>, Fail> {
    let mut ends = Vec::new(alloc);
    for step in journal {
        if let Step::FlushDone { page: of, ok } = *step {
            if of == page {
                ends.push(ok)?;
            }
        }
    }
    Ok(ends)
}

// What the device answered to the asks for a page.
fn answers_of(alloc: Global, asked: &[Asked], page: u64) -> Result<Vec<bool>, Fail> {
    let mut answers = Vec::new(alloc);
    for ask in asked {
        if ask.page == page {
            answers.push(ask.answer)?;
        }
    }
    Ok(answers)
}

// A log in which three threads place records, with a crew that writes to this device.
fn opening_of(params: Params) -> Opening<Params> {
    Opening {
        params,
        riders: THREADS + 4,
        journal: 100_000,
        stamp: 1,
    }
}

// A page that is flushed was asked for once more than it failed, and each ask is a flush in the journal. So none is asked for
// twice by one take, after it was written, or without a take.
#[test]
fn a_device_is_asked_once_for_each_take(rt: HostRuntime) -> Result<(), Fail> {
    let params = Params::checked(PAGE, FRAMES, THREADS, 16).ok_or(Fault::Size)?;
    let duty = Duty::checked(params, 2, 4).ok_or(Fault::Size)?;
    let device = Device {
        asked: Mutex::new(Vec::new(rt.alloc())),
    };
    let closed = with_threads(&rt, rt.alloc(), opening_of(params), duty, &device)?;
    let Returned { outs, crew } = closed.out;
    let report = crew?;
    let ending = closed.ending?;
    for out in outs {
        out??;
    }
    let (asked, six) = (device.asked.lock(&rt), ending.snapshot.six);
    assert!(rt; asked.iter().all(|ask| ask.is_right));
    assert_eq!(rt; six.tail, PAGES * PAGE - 2);
    let flushed = six.flushed / PAGE;
    assert!(rt; PAGES - FRAMES <= flushed && flushed < PAGES);
    let mut all = 0_usize;
    for page in 0..PAGES {
        let answers = answers_of(rt.alloc(), &asked, page)?;
        assert_eq!(rt; answers, ends_of(rt.alloc(), &ending.journal, page)?);
        let (asks, wanted) = (answers.len() as u64, failures_of(page).saturating_add(1));
        assert!(rt;
            asks == wanted || (flushed <= page && asks < wanted),
            "page {page}"
        );
        all = all.saturating_add(answers.len());
    }
    assert_eq!(rt; all, asked.len());
    let flushes = report.written.saturating_add(report.failed);
    assert_eq!(rt; flushes, asked.len() as u64);
    Ok(())
}
