use crate::say::say;
use hl_core::{Ask, Core, Fault, Params, Tagged};
use hl_counts::CountTable;
use std::alloc::Global;
use std::io::Write;

/// A row that was unlinked, and is freed once each slot that may have seen it has moved on.
#[derive(Drop)]
struct Retired {
    number: u64,
    row: Vec<u64>,
}

impl Tagged for Retired {
    ghost tag = { λ retired. retired.number };

    fn tag(&self) -> u64 {
        self.number
    }
}

/// A core whose actions free rows.
type RowCore = Core<CountTable, Retired>;

/// Frees an old row once the reader that may have seen it has moved on: the deferred free for which epochs are mostly
/// used. The row itself is what the bump stores.
///
/// Faults: `OutOfMemory`; `Stream` if the writer fails.
pub(crate) fn run<W: Write>(alloc: Global, out: &mut W) -> Result<(), Fault> {
    let params = Params::checked(4, 2, 2, 4).ok_or(Fault::Size)?;
    let mut core = RowCore::open(alloc, params)?;
    run_on(alloc, &mut core, out)
}

fn run_on<W: Write>(alloc: Global, core: &mut RowCore, out: &mut W) -> Result<(), Fault> {
    // A reader enters, and may hold a reference to the row.
    core.acquire(0)?;
    // The writer puts another row in its place, and retires this one.
    let ticket = retire(alloc, core)?;
    say(out, "retired under ticket", ticket)?;

    // Not yet: the reader has not moved on.
    if let Some(Fault::NotReady { front, safe }) = core.take().err() {
        say(out, "waits for ticket", front)?;
        say(out, "safe epoch", safe)?;
    }
    core.refresh(0)?;
    let words = free(core)?;
    say(out, "freed row of words", words)?;
    core.release(0)
}

// Stores the row until it may be freed; returns the ticket.
fn retire(alloc: Global, core: &mut RowCore) -> Result<u64, Fault> {
    let row = vec![in alloc; 7; 100].map_err(|_| Fault::OutOfMemory)?;
    let retired = Ask::User(Retired { number: 1, row });
    core.bump(retired).map_err(|(fault, _)| fault)
}

// Takes the oldest action, and frees its row; returns how many words it had.
fn free(core: &mut RowCore) -> Result<u64, Fault> {
    let (firing, job) = core.take()?;
    core.done(firing.ticket())?;
    Ok(job.map_or(0, |retired| retired.row.len() as u64))
}
