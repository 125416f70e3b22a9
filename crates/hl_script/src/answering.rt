ghost use Rattle.std.specs.Prelude.{◌≡◌, ℕ, Bool, true, false, None, Ok, List, [], ◌∷◌, IfSome, IfOk, IfErr};
ghost use Rattle.hl_line.specs.declared.line.Line.{Line as LINE};
ghost use Rattle.hl_line.specs.Lines.{Fits};
ghost use Rattle.hl_script.specs.Lines.{is_config, takes_memory};
ghost use Rattle.hl_script.specs.Interpreter.{Answers};
ghost use Rattle.hl_script.specs.Text.{tags_on};
ghost use Rattle.hl_script.specs.Fast.{FastStands};

use crate::fast::{Fast, Jobs};
use crate::lines::answer;
use crate::stepping::Opening;
use crate::sum::Sum;
use hl_action::{Shelf, Task};
use hl_epoch::Epochs;
use hl_line::{AnswerLine, Line};
use hl_model::Fault;
use std::alloc::Global;
use std::io::Write;

/// Answers a script's lines one after another, for who reads them otherwise than
/// [`run_text`](crate::run_text): an engine whose table of epochs is an E, and the jobs that no accepted bump
/// took.
#[derive(Drop)]
pub struct Answering<E: Epochs, F: Task> {
    pub(crate) fast: Fast<E, F>,
    row: AnswerLine,
}

impl<E: Epochs + Drop, F: Task> Answering<E, F> {
    /// Returns what answers the lines behind this first one, with these jobs on the shelf. None if it is no
    /// config.
    ///
    /// Fault: `OutOfMemory` if memory was refused.
    pub fn open(
        alloc: Global,
        shelf: Shelf<F, Sum>,
        first: &Line,
    ) -> Result<Option<Answering<E, F>>, Fault>
        requires { Fits first.now }
        ensures none { result ≡ Ok None → is_config first.now ≡ false }
        ensures some { IfOk result (λ opened. IfSome opened (λ answering. (is_config first.now ≡ true)
            × FastStands answering.fast.shelf answering.fast.engine (tags_on shelf) (first.now ∷ []))) }
        ensures refused { IfErr result (λ fault. fault ≡ Fault.OutOfMemory) }
    {
        let Line::Config(sizes) = *first else {
            return Ok(None);
        };
        let Some(fast) = Jobs { alloc, shelf }.open(sizes) else {
            return Err(Fault::OutOfMemory);
        };
        let row = AnswerLine::new();
        Ok(Some(Answering { fast, row }))
    }

    /// Writes the answer to a line, with an LF, and returns whether the line was a step and accepted. None if
    /// it is a config: nothing was written.
    ///
    /// `Stream` if a write failed or took no byte; the first bytes of the answer were written.
    pub fn answer<W: Write>(&mut self, line: &Line, out: &mut W) -> Result<Option<bool>, Fault>
        requires { (has : ℕ → Bool) × (before : List LINE)
            × FastStands self.old.fast.shelf self.old.fast.engine has before }
        ensures config { is_config line.now ≡ true → result ≡ Ok None }
        ensures answers { (has : ℕ → Bool) (before : List LINE)
            → FastStands self.old.fast.shelf self.old.fast.engine has before
            → Answers (FastStands self.new.fast.shelf self.new.fast.engine) (takes_memory false) has before
            line.now (W.contents out.old) (W.contents out.new) result }
    {
        answer(&mut self.fast, line, &mut self.row, out)
    }
}
