//! Short programs, one for each way to use the allocator without the crate `hl`, as the author of an engine would write
//! them. They run one after another, and write what their calls answered.
//!
//! | Program | What it shows |
//! |---|---|
//! | `one_thread` | an engine in one thread: a page from its first record to its freed frame |
//! | `retired_row` | an object of the author's own that is freed once each slot that may have seen it moved on |
//! | `one_lock` | a core under a lock of the author's own, with two threads |
//! | `serving` | a domain with four threads, and a crew that serves behind more records than the frames hold |
//!
//! docs/GUIDE.md and docs/THREADS.md walk through them.
#![tactic(auto)]

mod one_lock;
mod one_thread;
mod retired_row;
mod say;
mod serving;

use hl_model::Fault;
use std::alloc::Global;
use std::io;
use std::io::Write;
use std::process::ExitCode;
use std::sync::Wait;
use std::thread::Threads;

fn main(rt: HostRuntime) -> io::Result<ExitCode> {
    if let Err(fault) = run_all(&rt, rt.alloc(), &mut rt.stdout()) {
        println!(rt; "{fault}")?;
        return Ok(ExitCode::from(1));
    }
    Ok(ExitCode::from(0))
}

// All programs, up to the first that is refused something.
fn run_all<R: Threads + Wait + Sync, W: Write>(
    rt: &R,
    alloc: Global,
    out: &mut W,
) -> Result<(), Fault> {
    one_thread::run(alloc, out)?;
    retired_row::run(alloc, out)?;
    one_lock::run(rt, alloc, out)?;
    serving::run(rt, alloc, out)
}
