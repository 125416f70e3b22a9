ghost use Rattle.std.specs.Fn.{FnOnceReturnsAtMut};
ghost use Rattle.hl_c.specs.Doors.{Answers, AnswersBriefly, MakesStep};

use crate::door::Door;
use crate::handle::Handle;
use hl_answers::{Brief, Outcome};
use hl_model::{Fault, Reply, Step};

impl Handle {
    /// Makes a step of its core, if it has one, by the core's own call of that step, and tells the reply. The
    /// step itself is read by the clauses alone: with a call of its own, each export is compiled with no
    /// match over steps.
    #[inline(always)]
    pub(crate) fn step<F: FnOnce(&mut Door) -> Result<Reply, Fault>>(
        &mut self,
        _step: Step,
        call: F,
    ) -> Outcome
        requires able { F.IsAlwaysCallable call }
        requires made { MakesStep (FnOnceReturnsAtMut F.FnOnce call) _step }
        ensures { Answers self.old.slot.value _step self.new.slot.value result }
    {
        match self.take_core() {
            Some(mut core) => {
                let outcome = Outcome::of(call(&mut core));
                self.put_core(core);
                outcome
            }
            None => Outcome::no_core(),
        }
    }

    /// The same for a step of which one number is told.
    #[inline(always)]
    pub(crate) fn step_briefly<F: FnOnce(&mut Door) -> Result<Reply, Fault>>(
        &mut self,
        step: Step,
        call: F,
    ) -> Brief
        requires able { F.IsAlwaysCallable call }
        requires made { MakesStep (FnOnceReturnsAtMut F.FnOnce call) step }
        ensures { AnswersBriefly self.old.slot.value step self.new.slot.value result }
    {
        self.step(step, call).brief()
    }
}
