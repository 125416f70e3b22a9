ghost use Rattle.std.specs.Prelude.{◌≡◌, ℕ, ◌<◌, ◌≤◌, Bool, List, [], IfSome};
ghost use Rattle.hl_model.specs.declared.step.Step.{Step};
ghost use Rattle.hl_model.specs.Sizes.{Sizes, AreNarrow};
ghost use Rattle.hl_model.specs.Actions.{pending};
ghost use Rattle.hl_model.specs.Frames.{frame_of};
ghost use Rattle.hl_model.specs.Snapshots.{snapshot_of};
ghost use Rattle.hl_script.specs.Stepping.{IsStanding, Stepped};

use arrayvec::ArrayVec;
use hl_model::{Fault, FrameState, Params, Reply, Snapshot, Step, Waiting};

/// What makes the steps of a script, and answers its queries.
pub(crate) trait Stepping {
    // It stands at these accepted steps of a script, with these sizes, whose tags have jobs where the test
    // says so.
    ghost stands: { Self → (ℕ → Bool) → Sizes → List Step → Type 0 };

    // Whether a step may be refused memory.
    ghost may_lack: { Bool };

    /// Makes a step, and returns its reply or its fault. A bump of a tag without a job is refused with
    /// `NoJob`, before all other faults. None if memory was refused; then it stands as before.
    fn step(&mut self, step: &Step) -> Option<Result<Reply, Fault>>
        requires { IsStanding (stands self.old) }
        ensures { (has : ℕ → Bool) (sizes : Sizes) (A : List Step) → stands self.old has sizes A
            → Stepped (stands self.new) may_lack has sizes A step.now result };

    /// Returns the quantities.
    fn snapshot(&self) -> Snapshot
        requires { IsStanding (stands self.now) }
        ensures { (has : ℕ → Bool) (sizes : Sizes) (A : List Step) → stands self.now has sizes A
            → result ≡ snapshot_of sizes A };

    /// Returns the pending actions, oldest first.
    fn pending(&self) -> ArrayVec<Waiting, 64>
        requires { IsStanding (stands self.now) }
        ensures { (has : ℕ → Bool) (sizes : Sizes) (A : List Step) → stands self.now has sizes A
            → result.items ≡ pending A };

    /// Returns how many frames there are.
    fn frames(&self) -> u64
        requires { IsStanding (stands self.now) }
        ensures frames { (has : ℕ → Bool) (sizes : Sizes) (A : List Step) → stands self.now has sizes A
            → result ≡ sizes.frames }
        ensures most { result ≤ 256 };

    /// Returns what frame f is at, and its last entered page if it isn't free.
    fn frame(&self, f: u64) -> (FrameState, Option<u64>)
        requires { (has : ℕ → Bool) × (sizes : Sizes) × (A : List Step)
            × stands self.now has sizes A × (f < sizes.frames) }
        ensures { (has : ℕ → Bool) (sizes : Sizes) (A : List Step) → stands self.now has sizes A
            → result ≡ frame_of sizes f A };
}

/// What a script is begun with: its config's sizes make of it what makes the steps.
pub(crate) trait Opening<S: Stepping> {
    // The tags that have jobs.
    ghost begins: { Self → (ℕ → Bool) → Type 0 };

    /// Returns what has made no step yet, or None if memory was refused. The sizes are narrow.
    fn open(self, params: Params) -> Option<S>
        requires narrow { AreNarrow params }
        ensures { (has : ℕ → Bool) → begins self has
            → IfSome result (λ opened. S.stands opened has params []) };
}
