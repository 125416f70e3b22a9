//! Who holds the oldest action up, and the least free slot.
ghost use Rattle.std.specs.Prelude.{◌≡◌, ◌<◌, take, List, [], ◌∷◌, ◌++◌};
ghost use Rattle.hl_model.specs.declared.step.Step.{Step};
ghost use Rattle.hl_model.specs.Epochs.{slot_epoch};
ghost use Rattle.hl_core.specs.declared.holders.Holder.{Holder};
ghost use Rattle.hl_core.specs.Standing.{Stands};
ghost use Rattle.hl_core.specs.Holding.{holding, holders_of, oldest, holders, is_before, is_over, least_free};

use crate::state::Core;
use arrayvec::ArrayVec;
use hl_epoch::Epochs;
use hl_model::Tagged;

/// A slot that holds an action up: it is protected, at an epoch that isn't above the action's ticket.
#[derive(Clone, Copy, Debug, Default, PartialEq, Eq)]
pub struct Holder {
    /// The slot's number.
    pub slot: u64,
    /// The current epoch at its last acquire or refresh.
    pub epoch: u64,
}

impl<E: Epochs, J: Tagged> Core<E, J> {
    /// Returns the ticket of the oldest pending action, and puts into the row the slots that hold it up,
    /// least first: the first N of them, if there are more. Each of them has to refresh or to leave before a
    /// take returns that action; if the row is empty, the next take does.
    ///
    /// None, and no slot, if no action is pending.
    pub fn holders<const N: usize>(&self, row: &mut ArrayVec<Holder, N>) -> Option<u64>
        ensures ticket { (A : List Step) → Stands J.tag self.now A → result ≡ oldest A }
        ensures row { (A : List Step) → Stands J.tag self.now A
            → row.new.items ≡ take N (holders self.now.sizes.slots A) }
    {
        row.clear();
        let ticket = self.drain.front()?;
        self.hold(ticket, row);
        Some(ticket)
    }

    /// Whether the action of this ticket is over: it was taken, and is done. So it is of a ticket under which no action was
    /// stored, once all before it were taken.
    pub fn is_over(&self, ticket: u64) -> bool
        ensures { (A : List Step) → Stands J.tag self.now A → result ≡ is_over ticket A }
    {
        is_before(ticket, self.drain.front()) && self.may_end(ticket).is_err()
    }

    /// Returns the least slot that isn't protected, or S if all are.
    pub fn least_free(&self) -> u64
        ensures { (A : List Step) → Stands J.tag self.now A → result ≡ least_free self.now.sizes A }
    {
        match self.views.first_free() {
            Some(t) => t as u64,
            None => self.params.slots(),
        }
    }

    /// Puts the slots that hold up the action of this ticket into a row that has none, as far as there is
    /// room.
    fn hold<const N: usize>(&self, ticket: u64, row: &mut ArrayVec<Holder, N>)
        requires { row.old.items ≡ [] }
        ensures { (A : List Step) → Stands J.tag self.now A
            → row.new.items ≡ take N (holders_of self.now.sizes.slots ticket A) }
    {
        for t in 0..self.params.slots() {
            if let Some(holder) = self.holder(ticket, t) {
                push_within(row, holder);
            }
        }
    }

    /// Slot t, below S, with its epoch, if that holds up the action of this ticket.
    fn holder(&self, ticket: u64, t: u64) -> Option<Holder>
        requires { t < self.now.sizes.slots }
        ensures { (A : List Step) → Stands J.tag self.now A → result ≡ holding ticket t (slot_epoch t A) }
    {
        let epoch = self.table.epoch_of(t)?;
        if epoch <= ticket {
            Some(Holder { slot: t, epoch })
        } else {
            None
        }
    }
}

// Whether a ticket is below that of the oldest pending action, if there is one.
fn is_before(ticket: u64, front: Option<u64>) -> bool
    ensures { result ≡ is_before ticket front }
{
    match front {
        None => true,
        Some(front) => ticket < front,
    }
}

// Puts a holder behind a row, if there is room: so a row of the first N holders stays one.
fn push_within<const N: usize>(row: &mut ArrayVec<Holder, N>, holder: Holder)
    ensures { (all : List Holder) → row.old.items ≡ take N all
        → row.new.items ≡ take N (all ++ holder ∷ []) }
{
    if !row.is_full() {
        row.push(holder);
    }
}
