ghost use Rattle.std.specs.Prelude.{◌≡◌, ◌*◌, ◌<◌, ◌≤◌, [], ◌∷◌, ◌++◌, length, nat_lt, position, remove, slice_index_or, IfOk, IfErr};
ghost use Rattle.hl_drain.specs.Lists.{has_ticket};
ghost use Rattle.hl_drain.specs.Taken.{Rises, tickets_of};

use hl_model::{Fault, Waiting, with_room};
use std::alloc::Global;
use std::marker::Model;

/// The taken actions, oldest first, in one row. What leaves it is closed up from the shorter side: so the row
/// begins behind a gap, which is as wide as the actions may be many at most, and has twice the places that
/// these may take.
#[derive(Drop)]
pub(crate) struct Taken {
    places: usize,
    // Where the row begins.
    first: usize,
    row: Vec<Waiting>,
}

impl Model for Taken {
    ghost use Rattle.hl_drain.specs.Taken.{Actions};

    ghost Value = { Actions };

    ghost use Rattle.hl_drain.specs.Taken.{actions_of, IsKept};

    ghost view = { actions_of };

    ghost invariant = { IsKept };
}

impl Taken {
    /// None, with room for so many.
    ///
    /// `OutOfMemory` if memory for them was refused.
    pub(crate) fn open(alloc: Global, places: usize) -> Result<Taken, Fault>
        requires { places ≤ 4096 }
        ensures ok { IfOk result (λ taken. (taken.items ≡ []) × (taken.places ≡ places)) }
        ensures err { IfErr result (λ fault. fault ≡ Fault.OutOfMemory) }
    {
        let row = with_room(alloc, 2 * places as u64)?;
        Ok(Taken {
            places,
            first: 0,
            row,
        })
    }

    /// How many there are.
    pub(crate) fn len(&self) -> usize
        ensures { result ≡ length self.now.items }
    {
        self.row.len() - self.first
    }

    /// Where they lie.
    pub(crate) fn as_slice(&self) -> &[Waiting]
        ensures { result.now ≡ self.now.items }
    {
        &self.row.as_slice()[self.first..]
    }

    /// Puts one more behind the others. There is room for it, and no other one is moved.
    pub(crate) fn push(&mut self, waiting: Waiting)
        requires { length self.old.items < self.old.places }
        ensures items { self.new.items ≡ self.old.items ++ waiting ∷ [] }
        ensures places { self.new.places ≡ self.old.places }
    {
        self.row.push_reserved(waiting);
    }

    /// The place of the action of this ticket, if there is one. Tickets rise.
    pub(crate) fn place_of(&self, ticket: u64) -> Option<usize>
        requires rising { Rises (tickets_of self.now.items) }
        ensures { result ≡ position (has_ticket ticket) self.now.items }
    {
        let row = self.as_slice();
        let place = row.partition_point(
            |waiting: &Waiting| -> bool
                ensures { result ≡ nat_lt waiting.now.ticket ticket }
            { waiting.ticket < ticket },
        );
        if place == row.len() {
            return None;
        }
        if row[place].ticket != ticket {
            return None;
        }
        Some(place)
    }

    /// Takes out the action at a place.
    pub(crate) fn remove(&mut self, place: usize) -> Waiting
        requires { place < length self.old.items }
        ensures value { result ≡ slice_index_or self.old.items place result }
        ensures others { self.new.items ≡ remove self.old.items place }
        ensures places { self.new.places ≡ self.old.places }
    {
        let at = self.first + place;
        if place >= self.len() / 2 {
            return self.row.remove(at);
        }
        let waiting = self.row[at];
        if self.first < self.places {
            let first = self.first;
            self.row.copy_within(first..at, first + 1);
            self.first = first + 1;
        } else {
            self.close_gap(place);
        }
        waiting
    }

    // Moves all but the action at a place to the front of the row, each once. The gap is as wide then as
    // there is room for actions: each removal widens it by one, so no more are moved than were removed since
    // the last time.
    fn close_gap(&mut self, place: usize)
        requires { place < length self.old.items }
        ensures others { self.new.items ≡ remove self.old.items place }
        ensures places { self.new.places ≡ self.old.places }
    {
        let at = self.first + place;
        let left = self.len() - 1;
        self.row.copy_within(self.first..at, 0);
        self.row.copy_within(at + 1.., place);
        self.row.truncate(left);
        self.first = 0;
    }
}
