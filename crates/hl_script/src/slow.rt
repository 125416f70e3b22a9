ghost use Rattle.std.specs.Prelude.{◌≡◌, ◌^◌, ◌≤◌, true};
ghost use Rattle.std.specs.List.{list_any};
ghost use Rattle.hl_script.specs.Answers.{bears, lacks_job, shown};
ghost use Rattle.hl_script.specs.Text.{below};
ghost use Rattle.hl_script.specs.Slow.{IsSlow, SumFits};

use crate::stepping::{Opening, Stepping};
use arrayvec::ArrayVec;
use hl_model::{Fault, FrameState, Params, Reply, Snapshot, Step, Waiting};
use hl_plain::Plain;
use std::alloc::Global;

/// A script without jobs: the tags below a number count as having one.
#[derive(Drop)]
pub(crate) struct Tags {
    pub(crate) alloc: Global,
    pub(crate) count: u64,
}

/// Makes the steps of such a script in the slow form.
#[derive(Drop)]
pub(crate) struct Slow {
    tags: u64,
    plain: Plain,
}

impl Opening<Slow> for Tags {
    ghost begins = { λ tags has. (has ≡ below tags.count) × (tags.count ≤ 2 ^ 62) };

    fn open(self, params: Params) -> Option<Slow> {
        let Ok(plain) = Plain::open(self.alloc, params) else {
            return None;
        };
        Some(Slow {
            tags: self.count,
            plain,
        })
    }
}

impl Stepping for Slow {
    ghost stands = { λ slow has sizes A. IsSlow slow.tags slow.plain has sizes A };

    ghost may_lack = { true };

    fn step(&mut self, step: &Step) -> Option<Result<Reply, Fault>> {
        if self.lacks_job(step) {
            return Some(Err(Fault::NoJob));
        }
        match self.plain.step(step) {
            Ok(reply) => Some(Ok(shown(step, reply))),
            Err(fault) => match fault {
                Fault::OutOfMemory => None,
                _ => Some(Err(fault)),
            },
        }
    }

    fn snapshot(&self) -> Snapshot {
        self.plain.snapshot()
    }

    fn pending(&self) -> ArrayVec<Waiting, 64> {
        self.plain.pending()
    }

    fn frames(&self) -> u64 {
        self.plain.params().frames()
    }

    fn frame(&self, f: u64) -> (FrameState, Option<u64>) {
        self.plain.frame(f)
    }
}

impl Slow {
    /// Returns whether a step is a bump whose tag has no job, or none left: an accepted bump bore it.
    fn lacks_job(&self, step: &Step) -> bool
        ensures { result ≡ lacks_job (below self.now.tags) self.now.plain.steps step.now }
    {
        match *step {
            Step::Bump { tag } => tag >= self.tags || self.is_borne(tag),
            _ => false,
        }
    }

    /// Returns whether an accepted bump bore this tag.
    fn is_borne(&self, tag: u64) -> bool
        ensures { result ≡ list_any (bears tag) self.now.plain.steps }
    {
        self.plain.steps().iter().any(|step| bears(tag, step))
    }
}

/// Returns whether a step is a bump with the job of this tag.
fn bears(tag: u64, step: &Step) -> bool
    ensures { result ≡ bears tag step.now }
{
    match *step {
        Step::Bump { tag: borne } => borne == tag,
        _ => false,
    }
}

/// Returns the reply to a script's step: a job answers its tag + its ticket.
fn shown(step: &Step, reply: Reply) -> Reply
    requires { SumFits step.now reply }
    ensures { result ≡ shown step.now reply }
{
    match (step, reply) {
        (Step::Done { ticket }, Reply::Ran(tag)) => Reply::Answer(tag + ticket),
        _ => reply,
    }
}
