//! A small key-value store over a log, after FASTER: an example. Its functions are proved safe, and to end; that no add is
//! lost is only tested, by the program itself.
//!
//! `hl_kv THREADS SECONDS [--reads PERCENT] [--zipf] [--keys N] [--frames F] [--compare] [--images]`: so many threads read
//! counters and add to them, beside a crew, and a line a second tells how far they are. At the end each counter is
//! compared with what the threads added by their own account; with `--compare` a thread that is alone upserts, too, and
//! compares all that it reads. With 0 seconds each thread makes 4,096 operations; with `--images` it makes sixteen times
//! as many, and the images of all pages that were written are compared with the journal.
#![tactic(auto)]

mod device;
mod images;
mod store;
mod work;

use hl::Config;
use std::process::ExitCode;
use std::{env, io};
use work::Plan;

const USAGE: &str =
    "usage: hl_kv THREADS SECONDS [--reads PERCENT] [--zipf] [--keys N] [--frames F] [--compare] [--images]";

fn main(rt: HostRuntime) -> io::Result<ExitCode> {
    let words = env::args(&rt)?.collect::<Vec<String>>(rt.alloc())?;
    let Some(plan) = plan_of(&words) else {
        eprintln!(rt; "{USAGE}")?;
        return Ok(ExitCode::from(2));
    };
    if let Some(number) = plan.config.out_of_range() {
        eprintln!(rt; "hl_kv: {number}")?;
        return Ok(ExitCode::from(2));
    }
    if let Err(trouble) = work::run(&rt, rt.alloc(), plan) {
        println!(rt; "{trouble}")?;
        return Ok(ExitCode::from(1));
    }
    Ok(ExitCode::from(0))
}

// The plan that the program's words ask for; `None` if they ask for something else.
fn plan_of(words: &[String]) -> Option<Plan> {
    let mut plan = Plan {
        config: Config::for_threads(words.get(1)?.parse().ok()?),
        seconds: words.get(2)?.parse().ok()?,
        reads: 50,
        by_zipf: false,
        keys: 100_000,
        compares: false,
        images: false,
    };
    let mut rest = words.iter().skip(3);
    while let Some(option) = rest.next() {
        match option.as_str() {
            "--zipf" => plan.by_zipf = true,
            "--compare" => plan.compares = plan.config.threads == 1,
            "--images" => {
                plan.images = true;
                plan.seconds = 0;
                // Room for twice as many steps as they make, since the crew cuts above the half.
                plan.config.journal = 1 << 22;
            }
            "--reads" => plan.reads = rest.next()?.parse().ok()?,
            "--keys" => plan.keys = rest.next()?.parse().ok()?,
            "--frames" => plan.config = plan.config.with_frames(rest.next()?.parse().ok()?),
            _ => return None,
        }
    }
    (1..=1 << 20).contains(&plan.keys).then_some(plan)
}
