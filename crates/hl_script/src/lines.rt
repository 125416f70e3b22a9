ghost use Rattle.std.specs.Prelude.{◌≡◌, ℕ, Bool, true, None, Ok, List};
ghost use Rattle.hl_line.specs.declared.line.Line.{Line as LINE};
ghost use Rattle.hl_model.specs.declared.step.Step.{Step};
ghost use Rattle.hl_model.specs.Sizes.{Sizes};
ghost use Rattle.hl_model.specs.Actions.{pending};
ghost use Rattle.hl_script.specs.Answers.{status_text, pending_text, frames_text};
ghost use Rattle.hl_script.specs.Interpreter.{Answers};
ghost use Rattle.hl_script.specs.Lines.{is_config, takes_memory};
ghost use Rattle.hl_script.specs.Runs.{StandsAt};
ghost use Rattle.hl_script.specs.Stepping.{IsStanding, StepAnswers, QueryAnswers};

use crate::answers::{add_frame, print_pending, print_quantities, put_line, put_result};
use crate::stepping::Stepping;
use arrayvec::ArrayString;
use hl_line::{AnswerLine, Line};
use hl_model::{Fault, Step};
use std::io::Write;

/// Writes the answer to a line behind the config, with an LF, and returns whether the line was a step and
/// accepted. None if it is a config, of which there is one: nothing was written.
///
/// `OutOfMemory` if memory was refused; nothing was written. `Stream` if a write failed or took no byte; the
/// first bytes of the answer were written.
pub(crate) fn answer<S: Stepping, W: Write>(
    stepping: &mut S,
    line: &Line,
    row: &mut AnswerLine,
    out: &mut W,
) -> Result<Option<bool>, Fault>
    requires { (has : ℕ → Bool) × (before : List LINE) × StandsAt (S.stands stepping.old) has before }
    ensures config { is_config line.now ≡ true → result ≡ Ok None }
    ensures answers { (has : ℕ → Bool) (before : List LINE) → StandsAt (S.stands stepping.old) has before
        → Answers (StandsAt (S.stands stepping.new)) (takes_memory S.may_lack) has before line.now
        (W.contents out.old) (W.contents out.new) result }
{
    match line {
        Line::Config(_) => Ok(None),
        Line::Step(step) => Ok(Some(answer_step(stepping, step, row, out)?)),
        Line::Status => Ok(Some(answer_status(stepping, out)?)),
        Line::Pending => Ok(Some(answer_pending(stepping, out)?)),
        Line::Frames => Ok(Some(answer_frames(stepping, out)?)),
    }
}

/// Makes a step and writes the line that answers it. Returns whether the step was accepted; faults as for a
/// line.
fn answer_step<S: Stepping, W: Write>(
    stepping: &mut S,
    step: &Step,
    row: &mut AnswerLine,
    out: &mut W,
) -> Result<bool, Fault>
    requires { IsStanding (S.stands stepping.old) }
    ensures { (has : ℕ → Bool) (sizes : Sizes) (A : List Step) → S.stands stepping.old has sizes A
        → StepAnswers (S.stands stepping.new) S.may_lack has sizes A step.now (W.contents out.old)
        (W.contents out.new) result }
{
    let Some(result) = stepping.step(step) else {
        return Err(Fault::OutOfMemory);
    };
    put_result(out, row, &result)?;
    Ok(result.is_ok())
}

/// Writes the answer to a query of the quantities, with an LF. It is no step: returns false.
///
/// `Stream` as for a line.
#[inline(never)]
fn answer_status<S: Stepping, W: Write>(stepping: &S, out: &mut W) -> Result<bool, Fault>
    requires { IsStanding (S.stands stepping.now) }
    ensures { (has : ℕ → Bool) (sizes : Sizes) (A : List Step) → S.stands stepping.now has sizes A
        → QueryAnswers (status_text sizes A) (W.contents out.old) (W.contents out.new) result }
{
    put_line(out, print_quantities(&stepping.snapshot()).as_str())?;
    Ok(false)
}

/// The same for a query of the pending actions.
#[inline(never)]
fn answer_pending<S: Stepping, W: Write>(stepping: &S, out: &mut W) -> Result<bool, Fault>
    requires { IsStanding (S.stands stepping.now) }
    ensures { (has : ℕ → Bool) (sizes : Sizes) (A : List Step) → S.stands stepping.now has sizes A
        → QueryAnswers (pending_text (pending A)) (W.contents out.old) (W.contents out.new) result }
{
    put_line(out, print_pending(stepping.pending().as_slice()).as_str())?;
    Ok(false)
}

/// The same for a query of the frames.
#[inline(never)]
fn answer_frames<S: Stepping, W: Write>(stepping: &S, out: &mut W) -> Result<bool, Fault>
    requires { IsStanding (S.stands stepping.now) }
    ensures { (has : ℕ → Bool) (sizes : Sizes) (A : List Step) → S.stands stepping.now has sizes A
        → QueryAnswers (frames_text sizes A) (W.contents out.old) (W.contents out.new) result }
{
    put_line(out, print_frames(stepping).as_str())?;
    Ok(false)
}

/// Returns the word `frames` and what each frame is at.
fn print_frames<S: Stepping>(stepping: &S) -> ArrayString<8192>
    requires { IsStanding (S.stands stepping.now) }
    ensures { (has : ℕ → Bool) (sizes : Sizes) (A : List Step) → S.stands stepping.now has sizes A
        → result.bytes ≡ frames_text sizes A }
{
    let mut text = ArrayString::new();
    text.push_str("frames");
    for f in 0..stepping.frames() {
        let (state, page) = stepping.frame(f);
        add_frame(&mut text, state, page);
    }
    text
}
