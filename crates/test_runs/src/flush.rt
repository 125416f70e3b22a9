ghost use Rattle.std.specs.Prelude.{◌≡◌, ◌+◌, ◌-◌, ◌^◌, min};

use crate::jobs::{TestEngine, small_engine};
use crate::lines::ask;
use hl_counts::CountTable;
use hl_epoch::{Epochs, ScanTable};
use hl_flush::{flush_one, lag_steps};
use hl_image::{MemoryWriter, PageWriter};
use hl_model::{Fault, FrameState, Six, Sizes, Step};
use std::alloc::Global;
use std::process::Abort;
use std::test::Fail;

// A page with the words 1, 0, 0 and 258 is sealed, and nobody is protected.
const ONE_SEALED: &str = "acquire 0 -> epoch 1 view 0 0 0
alloc 0 4 -> at 0
write 0 0 1 -> written
write 0 3 258 -> written
raise 4 -> read_only 4
settle -> ticket 1
release 0 -> left
take -> taken 1
done 1 -> safe_read_only 4";

// Two pages are sealed, in which nothing was written.
const TWO_SEALED: &str = "acquire 0 -> epoch 1 view 0 0 0
alloc 0 4 -> at 0
alloc 0 4 -> at 4
raise 8 -> read_only 8
settle -> ticket 1
refresh 0 -> epoch 2 view 8 0 8
take -> taken 1
done 1 -> safe_read_only 8";

// Flushes one page, with a buffer for its image.
fn flush<E: Epochs + Drop, W: PageWriter>(
    alloc: Global,
    engine: &mut TestEngine<E>,
    writer: &mut W,
) -> Result<u64, Fault> {
    let size = 8 + 8 * engine.params().page_size();
    let mut image = vec![in alloc; 0; size as usize].map_err(|_| Fault::OutOfMemory)?;
    flush_one(engine, writer, &mut image)
}

// The first write fails, the second one doesn't, and then there is nothing left to flush: what is answered, and the
// state of the page then.
const AGAIN: [(Result<u64, Fault>, FrameState); 3] = [
    (Err(Fault::Device), FrameState::Sealed),
    (Ok(0), FrameState::Flushed),
    (Err(Fault::NoneSealed), FrameState::Flushed),
];

fn flushes_again<E: Epochs + Drop>(
    rt: &impl Abort,
    alloc: Global,
    engine: &mut TestEngine<E>,
    writer: &mut MemoryWriter,
) {
    for (wanted, state) in AGAIN {
        let answer = flush(alloc, engine, writer);
        assert_eq!(rt; (answer, writer.failures()), (wanted, 1));
        assert_eq!(rt; first_frame(rt, engine), (state, Some(0)));
    }
}

fn first_frame<E: Epochs + Drop>(
    rt: &impl Abort,
    engine: &TestEngine<E>,
) -> (FrameState, Option<u64>) {
    assert_eq!(rt; engine.params().frames(), 2);
    engine.frame(0)
}

// The image of the page that is sealed.
fn sealed_image() -> [u8; 40] {
    let mut image = [0; 40];
    image[15] = 1;
    image[38] = 1;
    image[39] = 2;
    image
}

fn made_again<E: Epochs + Drop>(
    rt: &impl Abort,
    alloc: Global,
    engine: &mut TestEngine<E>,
) -> Result<(), Fault> {
    ask(rt, engine, ONE_SEALED);
    let mut writer = MemoryWriter::open(alloc, 2, 40)?;
    writer.fail_at(1);
    flushes_again(rt, alloc, engine, &mut writer);
    assert_eq!(rt; writer.image(0), Some(sealed_image().as_slice()));
    assert_eq!(rt; engine.six().flushed, 4);
    Ok(())
}

#[test]
fn a_failed_flush_is_made_again(rt: HostRuntime) -> Result<(), Fault> {
    made_again::<ScanTable>(&rt, rt.alloc(), &mut small_engine(rt.alloc())?)?;
    made_again::<CountTable>(&rt, rt.alloc(), &mut small_engine(rt.alloc())?)
}

// Both pages were written, each with its number and no words.
fn has_both_pages(rt: &impl Abort, writer: &MemoryWriter, k: u64) {
    assert!(rt;
        writer
            .image(0)
            .is_some_and(|image| image == [0; 40].as_slice()),
        "write {k}"
    );
    assert!(rt;
        writer
            .image(1)
            .is_some_and(|image| image.starts_with(&[0, 0, 0, 0, 0, 0, 0, 1]))
    );
}

// The write that fails, what the flushes are answered, and how many fail.
type Turn = (u64, [Result<u64, Fault>; 4], u64);

const NONE: Result<u64, Fault> = Err(Fault::NoneSealed);

// The page whose write failed is written by the next flush, before the one behind it.
const TURNS: [Turn; 3] = [
    (1, [Err(Fault::Device), Ok(0), Ok(1), NONE], 1),
    (2, [Ok(0), Err(Fault::Device), Ok(1), NONE], 1),
    (3, [Ok(0), Ok(1), NONE, NONE], 0),
];

fn flushes_both<E: Epochs + Drop>(
    rt: &impl Abort,
    alloc: Global,
    engine: &mut TestEngine<E>,
    (k, answers, failures): Turn,
) -> Result<(), Fault> {
    ask(rt, engine, TWO_SEALED);
    let mut writer = MemoryWriter::open(alloc, 2, 40)?;
    writer.fail_at(k);
    for wanted in answers {
        assert_eq!(rt; flush(alloc, engine, &mut writer), wanted, "write {k}");
    }
    has_both_pages(rt, &writer, k);
    let ended = (writer.failures(), engine.six().flushed);
    assert_eq!(rt; ended, (failures, 8), "write {k}");
    Ok(())
}

#[test]
fn each_page_write_fails_in_turn(rt: HostRuntime) -> Result<(), Fault> {
    for turn in TURNS {
        flushes_both::<ScanTable>(&rt, rt.alloc(), &mut small_engine(rt.alloc())?, turn)?;
        flushes_both::<CountTable>(&rt, rt.alloc(), &mut small_engine(rt.alloc())?, turn)?;
    }
    Ok(())
}

// Fails each time, and counts the calls.
#[derive(Drop)]
struct Refusing {
    calls: u64,
}

impl PageWriter for Refusing {
    ghost wrote = { λ before page bytes after. ⊥ };

    ghost failed = { λ before page bytes after. after.calls ≡ min (before.calls + 1) (2 ^ 64 - 1) };

    ghost failures = { λ writer. min writer.calls (2 ^ 62) };

    fn write_page(&mut self, _page: u64, _bytes: &[u8]) -> Result<(), Fault> {
        self.calls = self.calls.saturating_add(1);
        Err(Fault::Device)
    }

    fn failures(&self) -> u64 {
        self.calls.min(1 << 62)
    }
}

// Each flush calls the writer, and is refused.
fn refused_each_time<E: Epochs + Drop>(rt: &impl Abort, alloc: Global, engine: &mut TestEngine<E>) {
    ask(rt, engine, ONE_SEALED);
    let mut writer = Refusing { calls: 0 };
    for calls in 1..4 {
        let answer = flush(alloc, engine, &mut writer);
        assert_eq!(rt; answer, Err(Fault::Device));
        assert_eq!(rt; writer.calls, calls);
    }
    assert_eq!(rt; engine.six().flushed, 0);
}

#[test]
fn a_writer_that_always_fails(rt: HostRuntime) -> Result<(), Fault> {
    refused_each_time::<ScanTable>(&rt, rt.alloc(), &mut small_engine(rt.alloc())?);
    refused_each_time::<CountTable>(&rt, rt.alloc(), &mut small_engine(rt.alloc())?);
    Ok(())
}

// The greatest number of steps, those that are late, and none.
#[test]
fn steps_to_the_lag(rt: HostRuntime) -> Result<(), Fail> {
    let sizes = Sizes::checked(4, 8, 2, 4).ok_or("sizes in range")?;
    let raise = Step::Raise { x: 16 };
    let shift = Step::Shift { x: 8 };
    let all = [raise, Step::Settle, shift, Step::Close];
    let late = [Step::Settle, Step::Close];
    let cases = [
        ("all four", [0, 0, 8, 8, 8, 17], all.as_slice()),
        ("what is behind", [0, 8, 8, 8, 16, 17], late.as_slice()),
        ("one page", [0, 0, 0, 0, 0, 4], [].as_slice()),
    ];
    for (name, offsets, wanted) in cases {
        let [closed, head, flushed, safe_read_only, read_only, tail] = offsets;
        let six = Six {
            closed,
            head,
            flushed,
            safe_read_only,
            read_only,
            tail,
        };
        assert_eq!(rt; lag_steps(sizes, six, 1, 2).as_slice(), wanted, "{name}");
    }
    Ok(())
}
