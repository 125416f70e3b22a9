//! Sizes that an engine wants, in a core: all slots protected, all frames on their whole way, all places for actions
//! used; and a base of the greatest sizes.
use crate::cuts::base_behind;
use hl_core::Core;
use hl_counts::CountTable;
use hl_epoch::{Epochs, ScanTable};
use hl_model::{Fault, Reply, Sizes, Step, Tag};
use std::alloc::Global;
use std::process::Abort;
use std::test::Fail;

type Steps<E> = Core<E, Tag>;

/// Words of a page, frames, slots, and places for actions.
const WORDS: u64 = 1 << 14;

const FRAMES: u64 = 256;

const SLOTS: u64 = 128;

const ACTIONS: u64 = 1024;

/// The words of all frames.
const ALL: u64 = FRAMES * WORDS;

fn makes<E: Epochs + Drop>(rt: &impl Abort, core: &mut Steps<E>, step: Step, reply: Reply) {
    assert_eq!(rt; core.step(&step), Ok(reply), "{step:?}");
}

// Each slot is acquired, and after it refreshes sees this.
fn see_all<E: Epochs + Drop>(
    rt: &impl Abort,
    core: &mut Steps<E>,
    epoch: u64,
    read_only: u64,
    head: u64,
) {
    for t in 0..SLOTS {
        assert!(rt; core.step(&Step::Refresh { t }).is_ok());
        let view = core.view(t);
        assert!(rt; view.is_some_and(|view| view.read_only == read_only && view.head == head));
    }
    assert_eq!(rt; core.snapshot().epoch, epoch);
}

fn fill<E: Epochs + Drop>(rt: &impl Abort, core: &mut Steps<E>) {
    for t in 0..SLOTS {
        assert!(rt; core.step(&Step::Acquire { t }).is_ok());
    }
    assert_eq!(rt; core.step(&Step::Acquire { t: SLOTS }), Err(Fault::NoSlot));
    for page in 0..FRAMES {
        makes(
            rt,
            core,
            Step::Allocate {
                t: SLOTS - 1,
                n: WORDS,
            },
            Reply::At(page * WORDS),
        );
    }
    let busy = core.step(&Step::Allocate { t: 0, n: 1 });
    assert_eq!(rt; busy, Err(Fault::Busy { page: FRAMES }));
}

// As many actions wait as there are places; then all are taken, and done from the last to the first.
fn act<E: Epochs + Drop>(rt: &impl Abort, core: &mut Steps<E>) {
    for ended in 0..ACTIONS {
        makes(
            rt,
            core,
            Step::Bump { tag: ended },
            Reply::Ticket(ended + 1),
        );
    }
    assert_eq!(rt; core.step(&Step::Bump { tag: 0 }), Err(Fault::DrainFull));
    assert!(rt;
        core.pending_at(ACTIONS - 1)
            .is_some_and(|last| last.ticket == ACTIONS)
    );
    assert!(rt; core.pending_at(ACTIONS).is_none());
    see_all(rt, core, ACTIONS + 1, 0, 0);
    for ended in 0..ACTIONS {
        makes(rt, core, Step::Take, Reply::Taken(ended + 1));
    }
    for left in 0..ACTIONS {
        let ticket = ACTIONS - left;
        makes(rt, core, Step::Done { ticket }, Reply::Ran(ticket - 1));
    }
}

fn settle_and_close<E: Epochs + Drop>(rt: &impl Abort, core: &mut Steps<E>) {
    makes(rt, core, Step::Raise { x: ALL }, Reply::Raised(ALL));
    makes(rt, core, Step::Settle, Reply::Ticket(ACTIONS + 1));
    see_all(rt, core, ACTIONS + 2, ALL, 0);
    makes(rt, core, Step::Take, Reply::Taken(ACTIONS + 1));
    makes(
        rt,
        core,
        Step::Done {
            ticket: ACTIONS + 1,
        },
        Reply::Settled(ALL),
    );
    for page in 0..FRAMES {
        makes(rt, core, Step::FlushTake, Reply::Page(page));
        makes(
            rt,
            core,
            Step::FlushDone { page, ok: true },
            Reply::Flushed((page + 1) * WORDS),
        );
    }
    makes(rt, core, Step::Shift { x: ALL }, Reply::Shifted(ALL));
    makes(rt, core, Step::Close, Reply::Ticket(ACTIONS + 2));
    see_all(rt, core, ACTIONS + 3, ALL, ALL);
    makes(rt, core, Step::Take, Reply::Taken(ACTIONS + 2));
    makes(
        rt,
        core,
        Step::Done {
            ticket: ACTIONS + 2,
        },
        Reply::Closed(ALL),
    );
}

fn free<E: Epochs + Drop>(rt: &impl Abort, core: &mut Steps<E>) {
    for page in 0..FRAMES {
        makes(rt, core, Step::CleanTake, Reply::Page(page));
        makes(rt, core, Step::CleanDone { page }, Reply::Freed(page));
    }
    makes(rt, core, Step::Allocate { t: 0, n: WORDS }, Reply::At(ALL));
    assert_eq!(rt; core.snapshot().frames, [1, 0, 0, 0, FRAMES - 1]);
}

fn whole_way<E: Epochs + Drop>(rt: &impl Abort, alloc: Global) -> Result<(), Fail> {
    let params = Sizes::checked(WORDS, FRAMES, SLOTS, ACTIONS).ok_or("sizes in range")?;
    let mut core = Steps::<E>::open(alloc, params)?;
    fill(rt, &mut core);
    act(rt, &mut core);
    settle_and_close(rt, &mut core);
    free(rt, &mut core);
    let base = base_behind(alloc, &core)?;
    assert!(rt; base.slots().len() == 128 && base.frames().len() == 256);
    assert!(rt; base.slots().iter().all(|slot| slot.is_some()) && base.six() == core.six());
    Ok(())
}

#[test]
fn wide_sizes(rt: HostRuntime) -> Result<(), Fail> {
    whole_way::<ScanTable>(&rt, rt.alloc())?;
    whole_way::<CountTable>(&rt, rt.alloc())
}

// All places for actions are used.
fn wait_all<E: Epochs + Drop>(rt: &impl Abort, core: &mut Steps<E>) {
    makes(rt, core, Step::Settle, Reply::Ticket(1));
    for ended in 1..4096u64 {
        makes(rt, core, Step::Bump { tag: 7 }, Reply::Ticket(ended + 1));
    }
}

fn widest<E: Epochs + Drop>(rt: &impl Abort, alloc: Global) -> Result<(), Fail> {
    let params = Sizes::checked(1 << 20, 1 << 16, 1024, 4096).ok_or("sizes in range")?;
    let mut core = Steps::<E>::open(alloc, params)?;
    wait_all(rt, &mut core);
    let base = base_behind(alloc, &core)?;
    let waiting = base.waiting();
    assert!(rt; waiting.len() == 4096 && waiting.last().is_some_and(|last| last.ticket == 4096));
    assert!(rt; base.slots().len() == 1024 && base.frames().len() == 65536);
    assert!(rt; base.copied(alloc)?.waiting().len() == 4096);
    Ok(())
}

// A base of the greatest sizes, all of whose actions wait.
#[test]
fn the_widest_base(rt: HostRuntime) -> Result<(), Fail> {
    widest::<ScanTable>(&rt, rt.alloc())?;
    widest::<CountTable>(&rt, rt.alloc())
}
