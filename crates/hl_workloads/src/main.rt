//! Jobs that users of hl wait for, for `bench/run` to time: `hl_workloads JOB SEED [SHARE|small]`.
//!
//! | Job | What it is |
//! |---|---|
//! | `script` | the answers to a long script |
//! | `slow` | the same in the slow form, for short scripts |
//! | `log` | counters in a log of one thread that is its own crew |
//! | `frames` | the same with 65,536 frames |
//! | `threads` | counters in a log of two threads beside a crew |
//! | `actions` | thousands of actions that are taken at once, and end out of order |
//! | `all` | each of them, a small part |
//!
//! Each seed below 2^32 gives another input of the same kind and size. A job is made in whole, or its first SHARE
//! parts of a thousand: one script at least, of `script` and `slow`, and one turn or round of the others. `small`
//! is less than that, for who counts a job's instructions: a shorter script, and turns and rounds of each kind.
//! What is printed is a digest of all results; or why there is none, and then the status is 1: a call was refused,
//! a script's status wasn't 0, or a word wasn't what was due.
#![tactic(auto)]

mod actions;
mod counters;
mod digest;
mod failure;
mod hand;
mod random;
mod script;
mod threads;

use crate::digest::{Digest, DigestWriter};
use crate::failure::Failure;
use crate::hand::Plan;
use hl::Fault;
use std::alloc::Global;
use std::io::{BufWriter, Write};
use std::process::ExitCode;
use std::sync::Wait;
use std::thread::Threads;
use std::time::Clock;
use std::{env, io};

const USAGE: &[u8] =
    b"usage: hl_workloads script|slow|log|frames|threads|actions|all SEED [SHARE|small]\n";

const JOBS: [&str; 6] = ["script", "slow", "log", "frames", "threads", "actions"];

fn main(rt: HostRuntime) -> io::Result<ExitCode> {
    let words = env::args(&rt)?.collect::<Vec<String>>(rt.alloc())?;
    let asked = (
        words.get(1),
        number_of(words.get(2)),
        amount_of(words.get(3)),
    );
    let (Some(job), Some(seed), Some(amount)) = asked else {
        rt.stderr().write_all(USAGE)?;
        return Ok(ExitCode::from(2));
    };
    for name in JOBS {
        if job.as_str() != "all" && job.as_str() != name {
            continue;
        }
        match run(&rt, rt.alloc(), name, seed, amount) {
            Ok(digest) => println!(rt; "{name} {digest}")?,
            Err(failure) => {
                println!(rt; "{name} {failure}")?;
                return Ok(ExitCode::from(1));
            }
        }
    }
    Ok(ExitCode::from(0))
}

// The number that a word spells.
fn number_of(word: Option<&String>) -> Option<u64> {
    word?.parse().ok()
}

/// How much of a job is made.
#[derive(Clone, Copy)]
enum Amount {
    /// So many parts of a thousand.
    Parts(u64),
    /// Less than one of them.
    Small,
}

impl Amount {
    // How many scripts, turns or rounds of a job that has this many in whole.
    fn of(self, whole: u64, small: u64) -> u64 {
        match self {
            Amount::Parts(parts) => (whole.saturating_mul(parts) / 1000).max(1),
            Amount::Small => small,
        }
    }

    // How many lines each script has.
    fn lines(self, whole: u64, small: u64) -> u64 {
        match self {
            Amount::Parts(_) => whole,
            Amount::Small => small,
        }
    }
}

// How much a word asks for: all, if there is none.
fn amount_of(word: Option<&String>) -> Option<Amount> {
    match word {
        None => Some(Amount::Parts(1000)),
        Some(word) if word.as_str() == "small" => Some(Amount::Small),
        Some(word) => Some(Amount::Parts(word.parse().ok()?)),
    }
}

// A job, or as much of it.
fn run<R: Threads + Wait + Clock + Sync>(
    rt: &R,
    alloc: Global,
    job: &str,
    seed: u64,
    amount: Amount,
) -> Result<u64, Failure> {
    let fast = Scripts {
        count: amount.of(14, 1),
        lines: amount.lines(500_000, 20_000),
        form: Form::Fast,
    };
    let slow = Scripts {
        count: amount.of(3, 1),
        lines: amount.lines(4000, 2000),
        form: Form::Slow,
    };
    match job {
        "script" => answer_all(alloc, seed, fast),
        "slow" => answer_all(alloc, seed, slow),
        "log" => hand::run(rt, alloc, log_plan(seed, amount.of(2500, 20))),
        "frames" => hand::run(rt, alloc, frames_plan(seed, amount.of(2000, 40))),
        "threads" => threads::run(rt, alloc, seed, amount.of(48_000_000, 20_000)),
        _ => Ok(actions::run(alloc, seed, amount.of(120, 4))?),
    }
}

// An engine with some frames of large pages.
fn log_plan(seed: u64, turns: u64) -> Plan {
    Plan {
        seed,
        page_size: 4096,
        frames: 64,
        counters: 1 << 16,
        piece: 512,
        turns,
        operations: 20_000,
    }
}

// A cache with many frames of small pages.
fn frames_plan(seed: u64, turns: u64) -> Plan {
    Plan {
        seed,
        page_size: 64,
        frames: 1 << 16,
        counters: 1 << 20,
        piece: 64,
        turns,
        operations: 1000,
    }
}

/// In which form a script is answered.
#[derive(Clone, Copy)]
enum Form {
    Fast,
    Slow,
}

/// Scripts to be answered.
#[derive(Clone, Copy)]
struct Scripts {
    count: u64,
    /// About how many lines each has.
    lines: u64,
    form: Form,
}

// The digest of the answers to all of them.
fn answer_all(alloc: Global, seed: u64, scripts: Scripts) -> Result<u64, Failure> {
    let mut digest = Digest::new();
    for stream in 0..scripts.count {
        let text = script::text(alloc, seed, stream, scripts.lines)?;
        digest.add(answer(alloc, text.as_slice(), scripts.form)?);
    }
    Ok(digest.value())
}

// The digest of the answers to a script. `Status` where it doesn't end well.
fn answer(alloc: Global, text: &[u8], form: Form) -> Result<u64, Failure> {
    let mut writer = DigestWriter::new(alloc)?;
    let mut output = BufWriter::new(alloc, &mut writer).map_err(|_| Fault::OutOfMemory)?;
    let mut reader = text;
    let mut errors = Vec::new(alloc);
    let status = match form {
        Form::Fast => hl_commands::run(alloc, false, &mut reader, &mut output, &mut errors),
        Form::Slow => hl_commands::slow(alloc, &mut reader, &mut output, &mut errors),
    };
    drop(output);
    if status != 0 {
        return Err(Failure::Status(status));
    }
    Ok(writer.finish())
}
