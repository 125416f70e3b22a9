use crate::say::say;
use hl_core::{Core, Fault, Params, Tag};
use hl_counts::CountTable;
use std::alloc::Global;
use std::io::Write;
use std::sync::{Mutex, Wait};
use std::thread;
use std::thread::Threads;

/// A core under a lock of the author's own: two threads place a hundred records each. The words are the author's too.
///
/// Faults: `OutOfMemory`; `Stream` if the writer fails.
pub(crate) fn run<R: Threads + Wait + Sync, W: Write>(
    rt: &R,
    alloc: Global,
    out: &mut W,
) -> Result<(), Fault> {
    let params = Params::checked(64, 16, 2, 4).ok_or(Fault::Size)?;
    let core = Mutex::new(Core::<CountTable, Tag>::open(alloc, params)?);
    let (first, second) = thread::join(rt, || place(rt, &core, 0), || place(rt, &core, 1));
    first?;
    second?;
    say(out, "tail", core.into_inner().six().tail)
}

// Places a hundred records of two words for a slot, one critical section each.
fn place(rt: &impl Wait, core: &Mutex<Core<CountTable, Tag>>, slot: u64) -> Result<(), Fault> {
    core.lock(rt).acquire(slot)?;
    for _ in 0..100 {
        let mut core = core.lock(rt);
        core.allocate(slot, 2)?;
        core.refresh(slot)?;
    }
    core.lock(rt).release(slot)
}
