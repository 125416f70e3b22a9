ghost use Rattle.std.specs.Prelude.{◌≡◌, ◌<◌, ◌≤◌, List, IfSome, slice_get, take};
ghost use Rattle.hl_model.specs.declared.step.Step.{Step};
ghost use Rattle.hl_model.specs.Actions.{pending};
ghost use Rattle.hl_model.specs.Views.{slot_view};
ghost use Rattle.hl_model.specs.Frames.{frame_of};
ghost use Rattle.hl_model.specs.Snapshots.{six, snapshot_of, AreInOrder};
ghost use Rattle.hl_cells.specs.Engines.{EngineStands, IsEngine, Shows};

use crate::engine::Engine;
use arrayvec::ArrayVec;
use hl_action::{Promise, Task};
use hl_epoch::Epochs;
use hl_model::{FrameState, Six, Sizes, Snapshot, View, Waiting};

impl<E: Epochs, F: Task, P: Promise> Engine<E, F, P> {
    /// The sizes that it was opened with.
    pub fn params(&self) -> Sizes
        ensures value { result ≡ self.now.core.sizes }
        ensures valid { IsEngine self.now }
    {
        self.core.params()
    }

    /// Returns the view of slot t, or None if the slot isn't protected, or t is S or more.
    pub fn view(&self, t: u64) -> Option<View>
        ensures value { (A : List Step) → EngineStands self.now A
            → result ≡ slot_view self.now.core.sizes t A }
        ensures bounded { let log = self.now.core.offsets
            in IfSome result (λ view. (log.safe_read_only ≤ view.read_only) × (log.closed ≤ view.head)) }
    {
        self.core.view(t)
    }

    /// The six offsets.
    pub fn six(&self) -> Six
        ensures value { (A : List Step) → EngineStands self.now A → result ≡ six self.now.core.sizes A }
        ensures in_order { AreInOrder self.now.core.sizes.page_size result }
    {
        self.core.six()
    }

    /// All quantities.
    pub fn snapshot(&self) -> Snapshot
        ensures { (A : List Step) → EngineStands self.now A → result ≡ snapshot_of self.now.core.sizes A }
    {
        self.core.snapshot()
    }

    /// The n-th pending action, oldest first, counted from 0; None if fewer are pending.
    pub fn pending_at(&self, n: u64) -> Option<Waiting>
        ensures { (A : List Step) → EngineStands self.now A → result ≡ slice_get (pending A) n }
    {
        self.core.pending_at(n)
    }

    /// Returns the oldest 64 of the pending actions, oldest first: all, if at most 64 may be stored.
    pub fn pending(&self) -> ArrayVec<Waiting, 64>
        ensures value { (A : List Step) → EngineStands self.now A → result.items ≡ take 64 (pending A) }
        ensures all { (A : List Step)
            → EngineStands self.now A → self.now.core.sizes.drain ≤ 64 → result.items ≡ pending A }
    {
        self.core.pending()
    }

    /// Returns the state of frame f, which is below F, and its last entered page; None if it is free.
    pub fn frame(&self, f: u64) -> (FrameState, Option<u64>)
        requires { f < self.now.core.sizes.frames }
        ensures value { (A : List Step) → EngineStands self.now A
            → result ≡ frame_of self.now.core.sizes f A }
        ensures shown { IfSome result.1 (λ page. Shows self.now page) }
    {
        self.core.frame(f)
    }
}
