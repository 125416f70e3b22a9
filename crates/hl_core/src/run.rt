ghost use Rattle.std.specs.Prelude.{◌≡◌, List, length, OnErr, ◌++◌};
ghost use Rattle.hl_model.specs.declared.step.Step.{Step as STEP};
ghost use Rattle.hl_model.specs.Headline.{Headline};
ghost use Rattle.hl_model.specs.Replies.{good, replies_after};
ghost use Rattle.hl_core.specs.Standing.{Stands};
ghost use Rattle.hl_core.specs.Steps.{Made};

use crate::state::Core;
use hl_drain::Ask;
use hl_epoch::Epochs;
use hl_model::{Fault, Reply, Step, Tag};

impl<E: Epochs + Drop> Core<E, Tag> {
    /// Makes a step, of any kind. The faults are tried in their order, and a refused step changes nothing.
    #[inline(always)]
    pub fn step(&mut self, step: &Step) -> Result<Reply, Fault>
        ensures made { Made (λ t. t.0) self.old step.now self.new result }
        ensures refused { OnErr result (self.new ≡ self.old) }
        ensures sizes { self.new.sizes ≡ self.old.sizes }
    {
        match *step {
            Step::Bump { tag } => match self.bump(Ask::User(Tag(tag))) {
                Ok(ticket) => Ok(Reply::Ticket(ticket)),
                Err((fault, _)) => Err(fault),
            },
            Step::Settle => self.settle().map(Reply::Ticket),
            Step::Close => self.close().map(Reply::Ticket),
            Step::Take => {
                let (firing, _) = self.take()?;
                Ok(Reply::Taken(firing.ticket()))
            }
            _ => self.act(step),
        }
    }

    /// Makes these steps, one after another, and writes the result of each to its place. The two rows are
    /// equally long.
    ///
    /// From a core that stands at an accepted list A, whatever the steps L are, lawful or not, of whatever
    /// threads in whatever order: each result is the definitions' reply after the accepted steps before it,
    /// and the core then stands at the accepted steps of A and L, which keep the headline.
    pub fn run(&mut self, steps: &[Step], results: &mut [Result<Reply, Fault>])
        requires { length results.old ≡ length steps.now }
        ensures replies { (A : List STEP) → Stands (λ t. t.0) self.old A
            → results.new ≡ replies_after self.old.sizes A steps.now }
        ensures standing { (A : List STEP) → Stands (λ t. t.0) self.old A
            → Stands (λ t. t.0) self.new (good self.old.sizes (A ++ steps.now)) }
        ensures headline { (A : List STEP) → Stands (λ t. t.0) self.old A
            → Headline self.old.sizes (good self.old.sizes (A ++ steps.now)) }
        ensures sizes { self.new.sizes ≡ self.old.sizes }
    {
        for i in 0..steps.len() {
            results[i] = self.step(&steps[i]);
        }
    }
}
