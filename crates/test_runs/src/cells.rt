ghost use Rattle.std.specs.Prelude.{◌≡◌, IfSome};

use crate::jobs::{Anything, Counted, Tells, TestEngine, small_engine};
use crate::lines::ask;
use hl_action::Kept;
use hl_cells::Engine;
use hl_counts::CountTable;
use hl_epoch::{Epochs, ScanTable};
use hl_model::{Fault, Params, Reply, Step};
use std::alloc::Global;
use std::process::Abort;
use std::sync::atomic::{AtomicU64, Ordering};

// What a caller knows by the clauses alone: the done of its ticket is answered by its own job.
fn own_answer<E: Epochs + Drop>(engine: &mut TestEngine<E>, number: u64) -> Option<u64>
    ensures { IfSome result (λ answer. answer ≡ number) }
{
    let ticket = engine.bump(Kept::new(7, Tells { number })).ok()?;
    engine.step(&Step::Take).ok()?;
    match engine.step(&Step::Done { ticket }) {
        Ok(Reply::Answer(answer)) => Some(answer),
        _ => None,
    }
}

// A job is taken; another of its tag is stored, taken and done before it.
fn two_jobs<E: Epochs + Drop>(rt: &impl Abort, engine: &mut TestEngine<E>) {
    assert!(rt; engine.bump(Kept::new(7, Tells { number: 50 })).is_ok());
    ask(rt, engine, "take -> taken 1");
    assert_eq!(rt; own_answer(engine, 60), Some(60));
    ask(rt, engine, "done 1 -> answer 50");
}

#[test]
fn two_jobs_of_one_tag(rt: HostRuntime) -> Result<(), Fault> {
    two_jobs::<ScanTable>(&rt, &mut small_engine(rt.alloc())?);
    two_jobs::<CountTable>(&rt, &mut small_engine(rt.alloc())?);
    Ok(())
}

// Slot 0 allocates two words, and writes the second one, and none behind it.
fn writes_a_word<E: Epochs + Drop>(rt: &impl Abort, engine: &mut TestEngine<E>) {
    ask(
        rt,
        engine,
        "acquire 0 -> epoch 1 view 0 0 0\nalloc 0 2 -> at 0",
    );
    let answers = [engine.write(0, 1, 51), engine.write(0, 2, 60)];
    assert_eq!(rt; answers, [Ok(()), Err(Fault::Beyond { tail: 2 })]);
}

// The word is seen in the page in frame 0; the tail that the slot sees is behind it.
fn shows_the_word<E: Epochs + Drop>(rt: &impl Abort, engine: &TestEngine<E>) {
    assert_eq!(rt; engine.read(0, 1), Ok(51));
    let (_, page) = engine.frame(0);
    let Some(page) = page else {
        panic!(rt; "a page was entered")
    };
    assert!(rt; engine.page_words(page) == [0, 51, 0, 0].as_slice());
    assert_eq!(rt; engine.view(0).map(|view| view.tail), Some(2));
}

#[test]
fn words_of_a_page(rt: HostRuntime) -> Result<(), Fault> {
    a_word::<ScanTable>(&rt, &mut small_engine(rt.alloc())?);
    a_word::<CountTable>(&rt, &mut small_engine(rt.alloc())?);
    Ok(())
}

fn a_word<E: Epochs + Drop>(rt: &impl Abort, engine: &mut TestEngine<E>) {
    writes_a_word(rt, engine);
    shows_the_word(rt, engine);
}

// What becomes of a job that was bumped. No clause can say it of a drop.
#[derive(Clone, Copy, Debug)]
enum End {
    // It is pending in a dropped engine.
    Pending,
    // It is dropped in a drain list.
    InItsDrainList,
    // It is taken in a dropped engine.
    Taken,
    // It is taken, and given up by `into_drain`.
    GivenUp,
    // A bump refuses it.
    Refused,
    Done,
}

type CountingEngine<'a, E> = Engine<E, Counted<'a>, Anything>;

// An engine with one place in its drain list.
fn one_place<'a, E: Epochs + Drop>(alloc: Global) -> Result<CountingEngine<'a, E>, Fault> {
    Engine::open(alloc, Params::checked(4, 2, 1, 1).ok_or(Fault::Size)?)
}

// Makes the steps to this end of a job, whose ticket is 1.
fn step_to<'a, E: Epochs + Drop>(
    rt: &impl Abort,
    engine: &mut CountingEngine<'a, E>,
    end: End,
    calls: &'a AtomicU64,
) {
    assert!(rt; engine.bump(Kept::new(7, Counted { calls })).is_ok());
    match end {
        End::Taken | End::GivenUp => ask(rt, engine, "take -> taken 1"),
        End::Done => ask(rt, engine, "take -> taken 1\ndone 1 -> answer 0"),
        End::Pending | End::InItsDrainList | End::Refused => {}
    }
}

// Ends the engine, and with it a job that is still there.
fn finish<'a, E: Epochs + Drop>(mut engine: CountingEngine<'a, E>, end: End, calls: &'a AtomicU64) {
    match end {
        End::InItsDrainList | End::GivenUp => drop(engine.into_drain()),
        End::Refused => drop(engine.bump(Kept::new(7, Counted { calls }))),
        End::Pending | End::Taken | End::Done => drop(engine),
    }
}

fn bring_to<E: Epochs + Drop>(
    rt: &impl Abort,
    alloc: Global,
    end: End,
    calls: &AtomicU64,
) -> Result<(), Fault> {
    let mut engine = one_place::<E>(alloc)?;
    step_to(rt, &mut engine, end, calls);
    finish(engine, end, calls);
    Ok(())
}

// How often a job is called until its end.
fn calls_until<E: Epochs + Drop>(rt: &impl Abort, alloc: Global, end: End) -> Result<u64, Fault> {
    let calls = AtomicU64::new(0);
    bring_to::<E>(rt, alloc, end, &calls)?;
    Ok(calls.load(Ordering::SeqCst))
}

fn ends_with_calls(rt: &impl Abort, alloc: Global, end: End, calls: u64) -> Result<(), Fault> {
    assert_eq!(rt; calls_until::<ScanTable>(rt, alloc, end)?, calls, "{end:?}");
    assert_eq!(rt;
        calls_until::<CountTable>(rt, alloc, end)?,
        calls,
        "{end:?}"
    );
    Ok(())
}

#[test]
fn a_job_is_run_by_its_done_alone(rt: HostRuntime) -> Result<(), Fault> {
    for end in [
        End::Pending,
        End::InItsDrainList,
        End::Taken,
        End::GivenUp,
        End::Refused,
    ] {
        ends_with_calls(&rt, rt.alloc(), end, 0)?;
    }
    ends_with_calls(&rt, rt.alloc(), End::Done, 1)
}
