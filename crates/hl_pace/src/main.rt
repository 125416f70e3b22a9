//! Makes calls of a domain in some threads, for `measure/threads`, `measure/journal` and `./hl bench domains` to time:
//! `hl_pace KIND THREADS CALLS [PAGE FRAMES SLOTS ACTIONS]`.
//!
//! The kinds are `refresh`, `allocate`, `store`, `load`, `look`, `add` (an add to a word in one step), `lease` (a record of
//! one word from a lease), `keep_up` where nothing is new, `load_beside` (loads of all threads but one, which
//! refreshes meanwhile), `cut`, `past` (a rider's past, told to the rider), and `lock`, which adds to a number under a lock
//! and so shows what the lock itself costs.
//! Each thread has a slot of its own and makes CALLS calls. The journal has room for 2^21 steps, and is cut when it is
//! full. The domain has 256 pages of 4,096 words, 8 slots and 64 places for actions; PAGE, FRAMES, SLOTS and ACTIONS name
//! other sizes, also wide ones. Nothing is printed but the fault of a domain that couldn't be opened; the status is 1 if
//! a call was refused.
//!
//! `hl_pace idle SECONDS` makes no call: a thread sleeps that long in its slot, beside a crew that
//! serves and has nothing to do. What the process uses meanwhile is what such a crew costs.
//!
//! `hl_pace rings ROUNDS` prints for how many microseconds in all a thread filled pages beside a crew that had been idle:
//! with the crew woken by a round of help at each `Busy`, and left to wake by itself. It does each so many times.
#![tactic(auto)]

mod calls;
mod idle;
mod rings;
mod threads;
mod work;

use std::io::Write;
use std::process::ExitCode;
use std::{env, io};

const USAGE: &[u8] =
    b"usage: hl_pace KIND THREADS CALLS [PAGE FRAMES SLOTS ACTIONS], with KIND lock|refresh|allocate|store|load|look|add|lease|keep_up|load_beside|cut|past\n       hl_pace idle SECONDS\n       hl_pace rings ROUNDS\n";

fn main(rt: HostRuntime) -> io::Result<ExitCode> {
    let words = env::args(&rt)?.collect::<Vec<String>>(rt.alloc())?;
    let accepted = if let Some(seconds) = idle::read(&words) {
        idle::run(&rt, rt.alloc(), seconds).is_ok()
    } else if let Some(rounds) = rings::read(&words) {
        match rings::run(&rt, rt.alloc(), rounds) {
            Ok(waited) => {
                println!(rt; "{} {}", waited.rung, waited.left)?;
                true
            }
            Err(fault) => {
                eprintln!(rt; "{fault}")?;
                false
            }
        }
    } else if let Some(work) = work::read(&words) {
        match threads::run(&rt, rt.alloc(), work) {
            Ok(accepted) => accepted,
            Err(fault) => {
                eprintln!(rt; "{fault}")?;
                false
            }
        }
    } else {
        rt.stderr().write_all(USAGE)?;
        return Ok(ExitCode::from(2));
    };
    Ok(ExitCode::from(if accepted { 0 } else { 1 }))
}
