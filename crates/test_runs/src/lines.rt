//! Steps as lines of a script, each with its answer: `acquire 0 -> epoch 1 view 0 0 0`.
use hl_action::{Promise, Task};
use hl_cells::Engine;
use hl_epoch::Epochs;
use hl_model::{Fault, Reply, Step};
use hl_script::{Line, print_fault, print_reply, read_line};
use std::process::Abort;

/// The step of a line, and its answer as text.
pub(crate) fn read_told(line: &str) -> Option<(Step, &str)> {
    let (call, answer) = line.split_once(" -> ")?;
    match read_line(call.as_bytes())? {
        Line::Step(step) => Some((step, answer)),
        _ => None,
    }
}

/// Whether an answer is spelled so.
pub(crate) fn is_told(answer: Result<Reply, Fault>, text: &str) -> bool {
    match answer {
        Ok(reply) => print_reply(&reply).as_bytes() == text.as_bytes(),
        Err(fault) => print_fault(&fault).as_bytes() == text.as_bytes(),
    }
}

/// Makes the step of each line, of which none is a bump with a job: it is answered so.
pub(crate) fn ask<E: Epochs + Drop, F: Task, P: Promise>(
    rt: &impl Abort,
    engine: &mut Engine<E, F, P>,
    lines: &str,
) {
    for line in lines.lines() {
        assert!(rt; is_answered(engine, line), "{line}");
    }
}

fn is_answered<E: Epochs + Drop, F: Task, P: Promise>(
    engine: &mut Engine<E, F, P>,
    line: &str,
) -> bool {
    match read_told(line) {
        None | Some((Step::Bump { .. }, _)) => false,
        Some((step, answer)) => is_told(engine.step(&step), answer),
    }
}
