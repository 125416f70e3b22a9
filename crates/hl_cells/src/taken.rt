ghost use Rattle.std.specs.Prelude.{◌≡◌, ◌<◌, nat_lt, position, is_some, option_and_then, IfSome, IsSomeAnd, IfOk, IfErr, [], ◌∷◌, ◌++◌, length, remove};
ghost use Rattle.std.specs.List.{find, position_or_len};
ghost use Rattle.hl_drain.specs.Taken.{Rises};
ghost use Rattle.hl_cells.specs.TakenActions.{fires, tickets_held};

use crate::undone::Undone;
use hl_action::{Promise, Ready, Task};
use hl_model::Fault;
use std::alloc::Global;
use std::collections::VecDeque;
use std::marker::Model;

/// The taken actions that aren't done, in the order of their takes. What leaves them is closed up from the
/// shorter side.
pub(crate) struct TakenActions<F: Task, P: Promise> {
    row: VecDeque<Undone<F, P>>,
}

impl<F: Task, P: Promise> Model for TakenActions<F, P> {
    ghost use Rattle.std.specs.VecDeque.{deque_capacity};
    ghost use Rattle.hl_cells.specs.TakenActions.{Row};

    ghost Value = { Row F };

    ghost view = { λ a. record { room = deque_capacity a.row; actions = a.row.items } };
}

impl<F: Task, P: Promise> Drop for TakenActions<F, P> {
    fn drop(self) {
        let TakenActions { row: _ } = self;
    }
}

impl<F: Task, P: Promise> TakenActions<F, P> {
    /// Returns a row with this many places, all free. No other call takes memory.
    ///
    /// `OutOfMemory` if the places were refused.
    pub(crate) fn open(alloc: Global, places: u64) -> Result<TakenActions<F, P>, Fault>
        ensures ok { IfOk result (λ held. held ≡ record { room = places; actions = [] }) }
        ensures err { IfErr result (λ fault. fault ≡ Fault.OutOfMemory) }
    {
        let row = VecDeque::with_capacity(alloc, places as usize).map_err(|_| Fault::OutOfMemory)?;
        Ok(TakenActions { row })
    }

    /// Holds one more action. There is a free place.
    pub(crate) fn push(&mut self, ready: Ready<F, P>)
        requires { length self.old.actions < self.old.room }
        ensures { self.new ≡ record { room = self.old.room; actions = self.old.actions ++ ready ∷ [] } }
    {
        self.row.push_back_reserved(Undone::of(ready));
    }

    /// Runs the action of this ticket, an epoch, and holds it no longer. Tickets rise. Returns what its job
    /// returned under its firing, which keeps the promise for its tag. None if it has no job, or there is no
    /// such action.
    pub(crate) fn run(&mut self, ticket: u64) -> Option<u64>
        requires rising { Rises (tickets_held self.old.actions) }
        ensures answered { is_some result
            ≡ is_some (option_and_then (λ ready. ready.kept) (find (fires ticket) self.old.actions)) }
        ensures gives { IfSome (find (fires ticket) self.old.actions) (λ ready.
            IfSome ready.kept (λ kept. IsSomeAnd result (F.gives kept.job ready.firing))) }
        ensures keeps { IfSome (find (fires ticket) self.old.actions) (λ ready.
            IfSome ready.kept (λ kept. IsSomeAnd result (P.keeps kept.tag ready.firing))) }
        ensures others { self.new ≡ record {
          room = self.old.room;
          actions = remove self.old.actions (position_or_len (fires ticket) self.old.actions);
        } }
    {
        let place = self.place_of(ticket)?;
        let undone = self.row.remove(place)?;
        undone.run()
    }

    /// The place of the action of this ticket, if there is one.
    fn place_of(&self, ticket: u64) -> Option<usize>
        requires rising { Rises (tickets_held self.now.actions) }
        ensures { result ≡ position (fires ticket) self.now.actions }
    {
        let place = self.row.partition_point(
            |undone: &Undone<F, P>| -> bool
                ensures { result ≡ nat_lt undone.now.firing.ticket ticket }
            { undone.ticket() < ticket },
        );
        if place == self.row.len() {
            return None;
        }
        if self.row[place].ticket() != ticket {
            return None;
        }
        Some(place)
    }
}
