//! Lists of steps that a core is given whole, and jobs that come back from it.
use crate::jobs::Job;
use crate::lines::{is_told, read_told};
use hl_core::Core;
use hl_counts::CountTable;
use hl_drain::{Action, Ask};
use hl_epoch::{Epochs, ScanTable};
use hl_model::{Fault, FrameState, Params, Reply, Step, Tag};
use std::alloc::Global;
use std::process::Abort;
use std::test::Fail;

// Each raise and each shift but one is refused.
const REFUSED: &str = "acquire 0 -> epoch 1 view 0 0 0
alloc 0 4 -> at 0
raise 0 -> fault 10 NotAbove
raise 5 -> fault 11 AboveTail
raise 4 -> read_only 4
raise 4 -> fault 10 NotAbove
shift 0 -> fault 10 NotAbove
shift 3 -> fault 12 NotPage
shift 4 -> fault 13 AboveFlushed";

// The greatest number in each place.
const GREATEST: &str = "acquire 0 -> epoch 1 view 0 0 0
acquire 18446744073709551615 -> fault 1 NoSlot
raise 18446744073709551615 -> fault 11 AboveTail
shift 18446744073709551615 -> fault 12 NotPage
shift 18446744073709551612 -> fault 13 AboveFlushed
alloc 0 18446744073709551615 -> fault 14 Size
write 0 18446744073709551615 1 -> fault 18 Beyond tail 0
read 0 18446744073709551615 -> fault 18 Beyond tail 0
flush done 18446744073709551615 ok -> fault 21 NotInFlight
clean done 18446744073709551615 -> fault 23 NotCleaning
done 18446744073709551615 -> fault 9 NotTaken
look 0 18446744073709551615 18446744073709551615 -> view 18446744073709551615 18446744073709551615 0
write 0 0 1 -> fault 17 Below read_only 18446744073709551615
refresh 0 -> epoch 1 view 0 0 0";

// The second slot reads the first page until it has seen the close. Once the page is clean, its frame is used again.
const STALE_READER: &str = "acquire 0 -> epoch 1 view 0 0 0
alloc 0 4 -> at 0
alloc 0 4 -> at 4
acquire 1 -> epoch 1 view 0 0 8
alloc 0 1 -> fault 15 Busy page 2
raise 8 -> read_only 8
settle -> ticket 1
refresh 0 -> epoch 2 view 8 0 8
refresh 1 -> epoch 2 view 8 0 8
take -> taken 1
done 1 -> safe_read_only 8
flush take -> page 0
flush done 0 ok -> flushed 4
shift 4 -> head 4
close -> ticket 2
read 1 0 -> readable
refresh 0 -> epoch 3 view 8 4 8
take -> fault 8 NotReady front 2 safe 1
alloc 0 1 -> fault 15 Busy page 2
refresh 1 -> epoch 3 view 8 4 8
take -> taken 2
done 2 -> closed 4
read 1 0 -> fault 19 Evicted head 4
alloc 0 1 -> fault 15 Busy page 2
clean take -> page 0
clean done 0 -> freed 0
alloc 0 1 -> at 8";

// A slot that reads the first page leaves while it is closed; it wrote below a read-only offset that it hadn't seen.
const SLOW_READER: &str = "acquire 0 -> epoch 1 view 0 0 0
alloc 0 4 -> at 0
alloc 0 4 -> at 4
acquire 1 -> epoch 1 view 0 0 8
raise 8 -> read_only 8
settle -> ticket 1
refresh 0 -> epoch 2 view 8 0 8
write 1 1 7 -> written
refresh 1 -> epoch 2 view 8 0 8
take -> taken 1
done 1 -> safe_read_only 8
flush take -> page 0
flush done 0 ok -> flushed 4
shift 4 -> head 4
close -> ticket 2
read 1 0 -> readable
refresh 0 -> epoch 3 view 8 4 8
take -> fault 8 NotReady front 2 safe 1
release 1 -> left
take -> taken 2
done 2 -> closed 4
alloc 0 1 -> fault 15 Busy page 2
clean take -> page 0
clean done 0 -> freed 0
alloc 0 1 -> at 8
bump 9 -> ticket 3";

fn steps_of(alloc: Global, lines: &str) -> Result<Vec<Step>, Fail> {
    let mut steps = Vec::new(alloc);
    for line in lines.lines() {
        let (step, _) = read_told(line).ok_or("a step with its answer")?;
        steps.push(step)?;
    }
    Ok(steps)
}

// A core of pages of 4 words in 2 frames, 2 slots and 4 places.
fn open<E: Epochs + Drop>(alloc: Global) -> Result<Core<E, Tag>, Fault> {
    Core::open(alloc, Params::checked(4, 2, 2, 4).ok_or(Fault::Size)?)
}

// Gives a core all steps of a list at once, and compares each answer with what its line tells.
fn run_whole<E: Epochs + Drop>(
    rt: &impl Abort,
    alloc: Global,
    core: &mut Core<E, Tag>,
    lines: &str,
) -> Result<(), Fail> {
    let steps = steps_of(alloc, lines)?;
    let mut answers = vec![in alloc; Err(Fault::Empty); steps.len()]?;
    core.run(&steps, &mut answers);
    compare(rt, &answers, lines);
    Ok(())
}

fn compare(rt: &impl Abort, answers: &[Result<Reply, Fault>], lines: &str) {
    for (line, answer) in lines.lines().zip(answers.iter()) {
        assert!(rt; is_answered(line, *answer), "{line}: {answer:?}");
    }
}

fn is_answered(line: &str, answer: Result<Reply, Fault>) -> bool {
    match read_told(line) {
        Some((_, text)) => is_told(answer, text),
        None => false,
    }
}

// Page 2 is in frame 0, and page 1 sealed in frame 1; so many actions are pending.
fn frame_is_used_again<E: Epochs + Drop>(rt: &impl Abort, core: &Core<E, Tag>, pending: usize) {
    let wanted = [(FrameState::Opened, Some(2)), (FrameState::Sealed, Some(1))];
    for f in 0..core.params().frames() {
        assert_eq!(rt; Some(&core.frame(f)), wanted.get(f as usize));
    }
    assert_eq!(rt; core.pending().len(), pending);
    assert_eq!(rt; core.snapshot().frames, [1, 1, 0, 0, 0]);
    assert_eq!(rt; core.view(0).map(|view| view.tail), Some(9));
    assert_eq!(rt; core.check(&Step::Acquire { t: 2 }), Err(Fault::NoSlot));
}

// A list, and how many actions are pending behind it where it uses a frame again.
const LISTS: [(&str, Option<usize>); 4] = [
    (REFUSED, None),
    (GREATEST, None),
    (STALE_READER, Some(0)),
    (SLOW_READER, Some(1)),
];

fn run_lists<E: Epochs + Drop>(rt: &impl Abort, alloc: Global) -> Result<(), Fail> {
    for (lines, pending) in LISTS {
        let mut core = open::<E>(alloc)?;
        run_whole(rt, alloc, &mut core, lines)?;
        if let Some(pending) = pending {
            frame_is_used_again(rt, &core, pending);
        }
    }
    Ok(())
}

#[test]
fn lists_over_both_tables(rt: HostRuntime) -> Result<(), Fail> {
    run_lists::<ScanTable>(&rt, rt.alloc())?;
    run_lists::<CountTable>(&rt, rt.alloc())
}

// Bumps of two jobs are answered so, and a third job comes back.
fn store_two<E: Epochs + Drop>(rt: &impl Abort, core: &mut Core<E, Job>) {
    let refused = Err((Fault::DrainFull, Ask::User(Job { tag: 9 })));
    for (tag, answer) in [(7, Ok(1)), (8, Ok(2)), (9, refused)] {
        assert_eq!(rt; core.bump(Ask::User(Job { tag })), answer);
    }
}

// The first job comes out by its take, and is done.
fn take_first<E: Epochs + Drop>(rt: &impl Abort, core: &mut Core<E, Job>) -> Result<(), Fault> {
    let (firing, job) = core.take()?;
    assert_eq!(rt; (firing.ticket(), job), (1, Some(Job { tag: 7 })));
    assert_eq!(rt; core.act(&Step::Done { ticket: 1 }), Ok(Reply::Ran(7)));
    Ok(())
}

fn come_back<E: Epochs + Drop>(rt: &impl Abort, mut core: Core<E, Job>) -> Result<(), Fault> {
    store_two(rt, &mut core);
    take_first(rt, &mut core)?;
    let left = Some((2, Action::User(Job { tag: 8 })));
    assert_eq!(rt; core.into_drain().give_up(), left);
    Ok(())
}

#[test]
fn jobs_come_back(rt: HostRuntime) -> Result<(), Fault> {
    let params = Params::checked(4, 2, 2, 2).ok_or(Fault::Size)?;
    come_back::<ScanTable>(&rt, Core::open(rt.alloc(), params)?)?;
    come_back::<CountTable>(&rt, Core::open(rt.alloc(), params)?)
}
