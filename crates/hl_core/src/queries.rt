ghost use Rattle.std.specs.Prelude.{◌≡◌, ◌<◌, ◌≤◌, List, IfSome, length, slice_get, take};
ghost use Rattle.hl_model.specs.declared.step.Step.{Step};
ghost use Rattle.hl_model.specs.Actions.{pending};
ghost use Rattle.hl_model.specs.Views.{slot_view};
ghost use Rattle.hl_model.specs.Frames.{frame_of};
ghost use Rattle.hl_model.specs.Snapshots.{six, snapshot_of, AreInOrder};
ghost use Rattle.hl_core.specs.Standing.{Stands};

use crate::state::Core;
use arrayvec::ArrayVec;
use hl_epoch::Epochs;
use hl_model::{FrameState, Six, Sizes, Snapshot, Tagged, View, Waiting};

impl<E: Epochs, J: Tagged> Core<E, J> {
    /// The sizes that it was opened with.
    pub fn params(&self) -> Sizes
        ensures { result ≡ self.now.sizes }
    {
        self.params
    }

    /// Returns the view of slot t, or None if the slot isn't protected, or t is S or more.
    pub fn view(&self, t: u64) -> Option<View>
        ensures value { (A : List Step) → Stands J.tag self.now A → result ≡ slot_view self.now.sizes t A }
        ensures bounded { let log = self.now.offsets
            in IfSome result (λ view. (log.safe_read_only ≤ view.read_only) × (log.closed ≤ view.head)) }
    {
        self.views.get(t)?
    }

    /// The six offsets.
    pub fn six(&self) -> Six
        ensures value { (A : List Step) → Stands J.tag self.now A → result ≡ six self.now.sizes A }
        ensures in_order { AreInOrder self.now.sizes.page_size result }
    {
        self.offsets.six(self.frames.flushed_until())
    }

    /// All quantities.
    pub fn snapshot(&self) -> Snapshot
        ensures { (A : List Step) → Stands J.tag self.now A → result ≡ snapshot_of self.now.sizes A }
    {
        Snapshot {
            epoch: self.table.current(),
            safe: self.table.safe(),
            protected: self.views.protected(),
            pending: self.drain.pending_count(),
            taken: self.drain.taken_row().len() as u64,
            six: self.six(),
            frames: self.frame_counts(),
        }
    }

    /// How many actions are pending.
    pub fn pending_count(&self) -> u64
        ensures { (A : List Step) → Stands J.tag self.now A → result ≡ length (pending A) }
    {
        self.drain.pending_count()
    }

    /// The n-th pending action, oldest first, counted from 0; None if fewer are pending.
    pub fn pending_at(&self, n: u64) -> Option<Waiting>
        ensures { (A : List Step) → Stands J.tag self.now A → result ≡ slice_get (pending A) n }
    {
        self.drain.pending_at(n)
    }

    /// Returns the oldest 64 of the pending actions, oldest first: all, if at most 64 may be stored.
    pub fn pending(&self) -> ArrayVec<Waiting, 64>
        ensures value { (A : List Step) → Stands J.tag self.now A → result.items ≡ take 64 (pending A) }
        ensures all { (A : List Step)
            → Stands J.tag self.now A → self.now.sizes.drain ≤ 64 → result.items ≡ pending A }
    {
        self.drain.pending()
    }

    /// Returns the state of frame f, which is below F, and its last entered page; None if it is free.
    pub fn frame(&self, f: u64) -> (FrameState, Option<u64>)
        requires { f < self.now.sizes.frames }
        ensures { (A : List Step) → Stands J.tag self.now A → result ≡ frame_of self.now.sizes f A }
    {
        self.frames
            .state(f, self.offsets.safe_read_only(), self.offsets.closed())
    }

    /// How many frames are open, sealed, flushed, closed and free.
    fn frame_counts(&self) -> [u64; 5]
        ensures { (A : List Step) → Stands J.tag self.now A → result ≡ (snapshot_of self.now.sizes A).frames }
    {
        self.frames
            .counts(self.offsets.safe_read_only(), self.offsets.closed())
    }
}
