ghost use Rattle.std.specs.Prelude.{◌≡◌};
ghost use Rattle.hl_log.specs.Logs.{IsOwn};
ghost use Rattle.hl_c_log.specs.Logs.{Answers, AnswersBriefly};

use crate::log_handle::LogHandle;
use hl_answers::{Brief, Outcome};
use hl_model::Step;

impl LogHandle {
    /// Makes a step of its log, if it has one, and tells the reply.
    #[inline(always)]
    pub(crate) fn step(&mut self, step: Step) -> Outcome
        requires { IsOwn step }
        ensures { Answers self.old.slot.value step self.new.slot.value result }
    {
        match self.take() {
            Some(mut log) => {
                let outcome = Outcome::of(log.step(&step));
                self.put(log);
                outcome
            }
            None => Outcome::no_core(),
        }
    }

    /// The same for a step of which one number is told.
    #[inline(always)]
    pub(crate) fn step_briefly(&mut self, step: Step) -> Brief
        requires { IsOwn step }
        ensures { AnswersBriefly self.old.slot.value step self.new.slot.value result }
    {
        self.step(step).brief()
    }
}
