//! Generated scripts of 1,000 lines: all forms write one text.
use crate::draws::Draws;
use crate::script::{Form, TAGS, run_form};
use hl_core::Core;
use hl_counts::CountTable;
use hl_model::{Params, Step, Tag};
use hl_script::{Line, print_line};
use std::alloc::{AllocError, Global};
use std::process::Abort;
use std::str;
use std::test::Fail;

const LINES: usize = 1000;

// What lines of the texts are to begin with, together. No such script meets the faults that are left out.
const BEGINNINGS: &str =
    "opened|epoch |left|ticket |bumped |taken |answer |safe_read_only |closed |read_only |head |at |\
view |written|value |page |flushed |freed |status |pending|frames |\
fault 1 |fault 2 |fault 3 |fault 4 |fault 5 |fault 7 |fault 8 |fault 9 |fault 10 |fault 11 |fault 12 |fault 13 |\
fault 14 |fault 15 |fault 17 |fault 18 |fault 19 |fault 20 |fault 21 |fault 22 |fault 23 |fault 24 ";

fn put_line(script: &mut Vec<u8>, line: &Line) -> Result<(), AllocError> {
    script.extend_from_slice(print_line(line).as_str().as_bytes())?;
    script.extend_from_slice(b"\n")
}

// The next line, whose step the core makes as a script does: of a tag that has no job, or none left, no bump is made.
fn next_line(draws: &mut Draws, core: &mut Core<CountTable, Tag>) -> Line {
    match draws.below(60) {
        0 => return Line::Status,
        1 => return Line::Pending,
        2 => return Line::Frames,
        _ => {}
    }
    let step = draws.step(&core.snapshot());
    if has_job(draws, step) {
        draws.note(step, core.step(&step));
    }
    Line::Step(step)
}

fn has_job(draws: &Draws, step: Step) -> bool {
    match step {
        Step::Bump { tag } => tag < TAGS && draws.is_next(tag),
        _ => true,
    }
}

// Each frame is used three times at least.
fn generated(rt: &impl Abort, alloc: Global, params: Params) -> Result<Vec<u8>, Fail> {
    let mut core = Core::<CountTable, Tag>::open(alloc, params)?;
    let mut draws = Draws::new(params, 1);
    let mut script = Vec::new(alloc);
    put_line(&mut script, &Line::Config(params))?;
    for _ in 1..LINES {
        put_line(&mut script, &next_line(&mut draws, &mut core))?;
    }
    let pages = core.six().tail / params.page_size();
    assert!(rt; pages >= 3 * params.frames(), "only {pages} pages");
    Ok(script)
}

// A form's text, and how many steps it accepted.
fn text_of(form: Form, alloc: Global, script: &[u8]) -> Result<(Option<u64>, Vec<u8>), Fail> {
    let mut reader = script;
    let mut text = Vec::new(alloc);
    let accepted = run_form(form, alloc, &mut reader, &mut text)?;
    Ok((accepted, text))
}

// The text of a script in all forms, with a line for each of its lines.
fn one_text(rt: &impl Abort, alloc: Global, script: &[u8]) -> Result<Vec<u8>, Fail> {
    let slow = text_of(Form::Slow, alloc, script)?;
    for form in [Form::Scanning, Form::Counting] {
        assert!(rt; text_of(form, alloc, script)? == slow);
    }
    assert_eq!(rt; slow.1.iter().filter(|byte| **byte == b'\n').count(), LINES);
    Ok(slow.1)
}

fn has_line(text: &str, beginning: &str) -> bool {
    for line in text.lines() {
        if line.starts_with(beginning) {
            return true;
        }
    }
    false
}

fn have_each_beginning(rt: &impl Abort, texts: &str) {
    for beginning in BEGINNINGS.split("|") {
        assert!(rt; has_line(texts, beginning), "{beginning}");
    }
}

#[test]
fn generated_scripts_have_one_text(rt: HostRuntime) -> Result<(), Fail> {
    let mut texts = Vec::new(rt.alloc());
    for [page_size, frames, slots, drain] in [[4, 2, 2, 1], [4, 2, 3, 4], [8, 3, 4, 2]] {
        let params = Params::checked(page_size, frames, slots, drain).ok_or("sizes in range")?;
        let script = generated(&rt, rt.alloc(), params)?;
        texts.extend_from_slice(&one_text(&rt, rt.alloc(), &script)?)?;
    }
    have_each_beginning(&rt, str::from_utf8(&texts)?);
    Ok(())
}
