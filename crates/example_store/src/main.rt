//! A small key-value store over a log: put, read, and add to a counter, in four threads beside a crew.
//!
//! | Module | What it has |
//! |---|---|
//! | `store` | the index, and what is done to one key |
//! | `count` | what the threads do, and what they leave |
#![tactic(auto)]

mod count;
mod store;

use std::io;
use std::process::ExitCode;

fn main(rt: HostRuntime) -> io::Result<ExitCode> {
    match count::run(&rt, rt.alloc(), &mut rt.stdout()) {
        Ok(()) => Ok(ExitCode::from(0)),
        Err(fault) => {
            println!(rt; "{fault}")?;
            Ok(ExitCode::from(1))
        }
    }
}
