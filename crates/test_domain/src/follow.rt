//! Plays an example: a keeper and a domain, over each table of epochs, are asked the same calls.
ghost use Rattle.std.specs.Prelude.{◌≡◌};
ghost use Rattle.hl_words.specs.States.{IsSeedOf};

use crate::alone::open_alone;
use crate::call::{is_told, read_call};
use crate::ending::{put_ending, put_shares};
use crate::jobs::{STAMP, small_seed};
use crate::play::Play;
use crate::shared::open_shared;
use hl_counts::CountTable;
use hl_epoch::{Epochs, ScanTable};
use hl_words::{Realm, Seed};
use std::alloc::Global;
use std::marker::Brand;
use std::process::Abort;
use std::sync::Wait;
use std::test::Fail;

/// A worked example: two or three riders, one of them without a slot; room for so many steps; calls, each on a line with
/// what it is answered; and what is left, where the passes of all slots are left at the end. The journal stands last
/// there, and its first steps are enough.
///
/// A line is a call as in a script, ` -> ` and its answer there. The differences are: an acquire and a refresh tell
/// the view; `look t` is told no offsets; `done c` of a job tells its tag, as a core does; a page that is taken to be
/// cleaned is swept. What a domain has beside: `abandon t -> left`, `forsake p -> page p`, `cut -> answer n`, and
/// `stamp t -> answer n` of slot t's pass; `claim t` is an acquire by the rider without a slot. Before a line, `n times `
/// makes it so often.
pub(crate) struct Example {
    pub(crate) riders: usize,
    pub(crate) journal: u32,
    pub(crate) calls: &'static str,
    pub(crate) end: &'static str,
}

/// Plays the example with both tables.
pub(crate) fn follow(
    rt: &(impl Wait + Abort),
    alloc: Global,
    example: &Example,
) -> Result<(), Fail> {
    let riders = if example.riders == 2 { 2 } else { 3 };
    let (one, other) = (small_seed(alloc, riders)?, small_seed(alloc, riders)?);
    follow_both::<ScanTable, Brand, Brand>(rt, alloc, one, other, example)?;
    let (one, other) = (small_seed(alloc, riders)?, small_seed(alloc, riders)?);
    follow_both::<CountTable, Brand, Brand>(rt, alloc, one, other, example)
}

fn follow_both<E: Epochs + Drop, L: Realm, M: Realm>(
    rt: &(impl Wait + Abort),
    alloc: Global,
    one: Seed,
    other: Seed,
    example: &Example,
) -> Result<(), Fail>
    requires one { IsSeedOf L.name L.parts L.table one }
    requires one_named { (one.sizes ≡ L.sizes) × (STAMP ≡ L.stamp) }
    requires other { IsSeedOf M.name M.parts M.table other }
    requires other_named { (other.sizes ≡ M.sizes) × (STAMP ≡ M.stamp) × (example.now.journal ≡ M.limit) }
{
    let journal = u64::from(example.journal);
    let mut alone = open_alone::<E, L>(alloc, one, journal, STAMP)?;
    let mut shared = open_shared::<E, M>(alloc, other, journal, STAMP)?;
    ask_lines(rt, &mut alone, &mut shared, example.calls);
    check_end(rt, alloc, alone, example.end)?;
    check_end(rt, alloc, shared, example.end)
}

fn ask_lines<E: Epochs + Drop, L: Realm, M: Realm>(
    rt: &(impl Wait + Abort),
    alone: &mut Play<E, L>,
    shared: &mut Play<E, M>,
    lines: &str,
) {
    for line in lines.lines() {
        ask_both(rt, alone, shared, line);
    }
}

// Both answer as the line tells, and have the same quantities then.
fn ask_both<E: Epochs + Drop, L: Realm, M: Realm>(
    rt: &(impl Wait + Abort),
    alone: &mut Play<E, L>,
    shared: &mut Play<E, M>,
    line: &str,
) {
    let (times, line) = repeated(line);
    assert!(rt; times > 0, "{line}");
    for _ in 0..times {
        ask(rt, alone, line);
        ask(rt, shared, line);
        assert!(rt;
            alone.asked.snapshot(rt) == shared.asked.snapshot(rt),
            "{line}"
        );
    }
}

// How often a line is made, and the line.
fn repeated(line: &str) -> (u64, &str) {
    match line.split_once(" times ") {
        Some((times, line)) => (times.parse::<u64>().unwrap_or(0), line),
        None => (1, line),
    }
}

/// Asks one, line for line.
pub(crate) fn ask_all<E: Epochs + Drop, L: Realm>(
    rt: &(impl Wait + Abort),
    play: &mut Play<E, L>,
    lines: &str,
) {
    for line in lines.lines() {
        ask(rt, play, line);
    }
}

// The answer is the one that the line tells, and a refused call leaves all as it was.
fn ask<E: Epochs + Drop, L: Realm>(rt: &(impl Wait + Abort), play: &mut Play<E, L>, line: &str) {
    let Some((call, answer)) = line.split_once(" -> ") else {
        panic!(rt; "no call with its answer: {line}")
    };
    let Some(call) = read_call(call) else {
        panic!(rt; "no call: {line}")
    };
    let before = play.asked.snapshot(rt);
    let told = play.answer(rt, call);
    assert!(rt; is_told(told, answer), "{line}: {told:?}");
    assert!(rt; told.is_ok() || play.asked.snapshot(rt) == before, "{line}");
}

fn check_end<E: Epochs + Drop, L: Realm>(
    rt: &impl Abort,
    alloc: Global,
    play: Play<E, L>,
    end: &str,
) -> Result<(), Fail> {
    let mut text = String::new(alloc);
    put_end(&mut text, play)?;
    assert!(rt; text.as_str().starts_with(end), "{}", text.as_str());
    Ok(())
}

// What is left, where all riders are idle.
fn put_end<E: Epochs + Drop, L: Realm>(text: &mut String, play: Play<E, L>) -> Result<(), Fail> {
    put_shares(text, &play)?;
    let mut ending = play.close()?.ok_or("all riders")?;
    put_ending(text, &mut ending)?;
    Ok(())
}
