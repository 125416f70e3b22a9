ghost use Rattle.std.specs.Prelude.{◌≡◌, ◌%◌, List, length, take};
ghost use Rattle.hl_model.specs.declared.step.Step.{Step as STEP};
ghost use Rattle.hl_model.specs.Frames.{frame_of};
ghost use Rattle.hl_model.specs.Snapshots.{snapshot_of};
ghost use Rattle.hl_core.specs.Holding.{is_over, oldest, holders};
ghost use Rattle.hl_keeper.specs.Keepers.{IsOf, KeeperStands};

use crate::keeper::Keeper;
use arrayvec::ArrayVec;
use hl_action::{Promise, Task};
use hl_core::Holder;
use hl_epoch::Epochs;
use hl_model::{FrameState, Sizes, Snapshot, Step};
use hl_words::Realm;

impl<E: Epochs, F: Task, P: Promise, L: Realm> Keeper<E, F, P, L> {
    /// The sizes that it was opened with.
    pub fn params(&self) -> Sizes
        ensures sizes { result ≡ self.now.core.sizes }
        ensures kept { IsOf L.sizes L.stamp self.now }
    {
        self.core.params()
    }

    /// The steps since the last cut, in the order in which they entered.
    pub fn journal(&self) -> &[Step]
        ensures { result.now ≡ self.now.journal }
    {
        &self.journal.steps
    }

    /// How many steps riders entered in all.
    pub fn steps(&self) -> u64
        ensures { (A : List STEP) → KeeperStands self.now A → result ≡ length A }
    {
        self.master.total()
    }

    /// Whether the action of this ticket is over: it was taken, and is done. So it is of a ticket under which no action was
    /// stored, once all before it were taken.
    pub fn is_over(&self, ticket: u64) -> bool
        ensures { (A : List STEP) → KeeperStands self.now A → result ≡ is_over ticket A }
    {
        self.core.is_over(ticket)
    }

    /// All quantities, the number of steps since the last cut, and the number of steps cut in all.
    pub fn snapshot(&self) -> (Snapshot, u64, u64)
        ensures quantities { (A : List STEP) → KeeperStands self.now A
            → result.0 ≡ snapshot_of self.now.core.sizes A }
        ensures steps { result.1 ≡ length self.now.journal }
        ensures cut { result.2 ≡ self.now.cut }
    {
        let journal = &self.journal;
        (
            self.core.snapshot(),
            journal.steps.len() as u64,
            journal.cut,
        )
    }

    /// Returns the ticket of the oldest pending action, and makes the row that of the slots that
    /// hold it up, least first, each with its epoch: those protected at an epoch that isn't above
    /// the ticket, the first N of them if there are more. Each of them has to refresh or to leave
    /// before a take gives that action; if the row is empty, the next take gives it.
    ///
    /// `None`, and an empty row, if no action is pending.
    pub fn holders<const N: usize>(&self, row: &mut ArrayVec<Holder, N>) -> Option<u64>
        ensures ticket { (A : List STEP) → KeeperStands self.now A → result ≡ oldest A }
        ensures row { (A : List STEP) → KeeperStands self.now A
            → row.new.items ≡ take N (holders self.now.core.sizes.slots A) }
    {
        self.core.holders(row)
    }

    /// The state of a page's frame, and the page that was last entered there, or `None` if the
    /// frame is free. For the page that a `Busy` names it tells what is in its way: a page to be
    /// settled, flushed, closed or cleaned.
    pub fn frame_of(&self, page: u64) -> (FrameState, Option<u64>)
        ensures { (A : List STEP) → KeeperStands self.now A
            → let sizes = self.now.core.sizes in result ≡ frame_of sizes (page % sizes.frames) A }
    {
        self.core.frame(page % self.core.params().frames())
    }
}
