ghost use Rattle.std.specs.Prelude.{◌≡◌, false, List, OnErr};
ghost use Rattle.hl_model.specs.declared.step.Step.{Step as STEP};
ghost use Rattle.hl_cells.specs.Engines.{EngineStands, IsEngine};
ghost use Rattle.hl_cells.specs.EngineSteps.{Moves, is_job_bump};
ghost use Rattle.hl_cells.specs.Jobs.{JobsKept, RunsItsJob};

use crate::engine::Engine;
use hl_action::{Promise, Task};
use hl_epoch::Epochs;
use hl_model::{Fault, Reply, Step};

impl<E: Epochs + Drop, F: Task, P: Promise> Engine<E, F, P> {
    /// Makes a step, of any kind but a bump, of which a job goes in. The faults are tried in their order, and
    /// a refused step changes nothing.
    ///
    /// From an engine that stands at an accepted list, whatever the step is: the reply is the definitions'
    /// after that list, a read's with the word; the reply to the done of a job is what the job returned,
    /// which keeps the promise for its tag under its firing. The engine then stands at the list with the
    /// step, if it was accepted.
    ///
    /// An accepted done runs the job that lies under its ticket, under the firing of its take, and nothing
    /// lies there then. All other jobs stay under their tickets.
    pub fn step(&mut self, step: &Step) -> Result<Reply, Fault>
        requires { is_job_bump step.now ≡ false }
        ensures moved { Moves P.keeps self.old step.now self.new result }
        ensures jobs { JobsKept self.old step.now self.new result }
        ensures ran { (A : List STEP) → EngineStands self.old A
            → RunsItsJob F.gives self.old A step.now result }
        ensures refused { OnErr result (self.new ≡ self.old) }
        ensures valid { IsEngine self.old }
    {
        match *step {
            Step::Bump { .. } => unreachable!(),
            Step::Settle => self.settle().map(Reply::Ticket),
            Step::Close => self.close().map(Reply::Ticket),
            Step::Take => self.take().map(Reply::Taken),
            Step::Done { ticket } => self.done(ticket),
            Step::Write { t, a, v } => self.write(t, a, v).map(|()| Reply::Written),
            Step::Read { t, a } => self.read(t, a).map(Reply::Value),
            Step::CleanDone { page } => self.clean_done(page).map(Reply::Freed),
            // To the others an engine adds nothing.
            _ => self.core.act(step),
        }
    }
}
