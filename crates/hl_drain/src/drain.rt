ghost use Rattle.std.specs.Prelude.{◌≡◌, ◌↔◌, ◌<◌, ◌≤◌, ◌==◌, [], length, map, option_map, position, slice_get, take, All, IsTrue, IfOk, IfErr, OnErr, IfNone};

use crate::action::Action;
use crate::pending::Pending;
use crate::taken::Taken;
use crate::visits::Visits;
use arrayvec::ArrayVec;
use hl_model::{Fault, Kind, Tagged, Waiting};
use std::alloc::Global;
use std::marker::Model;

/// A drain list: the pending actions and the taken ones, each oldest first.
#[derive(Drop)]
pub struct Drain<J> {
    limit: usize,
    // The first has `limit` places from the start, the second twice as many; both keep them.
    pending: Pending<J>,
    taken: Taken,
    last_take: Visits,
}

impl<J> Model for Drain<J> {
    ghost use Rattle.hl_drain.specs.Lists.{Lists};

    ghost Value = { Lists J };

    ghost use Rattle.hl_drain.specs.Rows.{lists_of, IsKept};

    ghost view = { lists_of };

    ghost invariant = { IsKept };
}

impl<J> Drain<J> {
    ghost use Rattle.hl_drain.specs.Lists.{IsDrain, count_of, tickets, put_answer, after_put, after_give_up, has_ticket, done_answer, after_done};

    /// Returns an empty list for at most `d` actions, 1 to 4,096.
    ///
    /// `OutOfMemory` if memory for them was refused.
    pub fn open(alloc: Global, d: u64) -> Result<Drain<J>, Fault>
        requires least { 1 ≤ d }
        requires most { d ≤ 4096 }
        ensures ok { IfOk result (λ drain.
            drain ≡ record { limit = d; pending = []; taken = []; turns = 0 }) }
        ensures err { IfErr result (λ fault. fault ≡ Fault.OutOfMemory) }
    {
        let limit = d as usize;
        // The row of actions comes last: if it is refused, none is left to be dropped, and `J` may forbid
        // that.
        let taken = Taken::open(alloc, limit)?;
        let pending = Pending::open(alloc, limit).map_err(|_| Fault::OutOfMemory)?;
        Ok(Drain {
            limit,
            pending,
            taken,
            last_take: Visits::none(),
        })
    }

    /// Stores an action as the last pending one. Its ticket, an epoch, is above all tickets in the list.
    ///
    /// `DrainFull`, with the action handed back, if pending and taken actions together are as many as the
    /// limit.
    pub fn put(&mut self, ticket: u64, action: Action<J>) -> Result<(), (Fault, Action<J>)>
        requires { All (λ earlier. earlier < ticket) (tickets self.old) }
        ensures answer { result ≡ put_answer self.old action }
        ensures lists { self.new ≡ after_put self.old ticket action }
        ensures refused { OnErr result (self.new ≡ self.old) }
        ensures valid { IsDrain self.new }
    {
        if !self.has_room() {
            return Err((Fault::DrainFull, action));
        }
        self.pending
            .push(ticket, action, &mut Visits::none())
            .map_err(|action| (Fault::DrainFull, action))
    }

    /// The taken action of this ticket, an epoch, was carried out: it leaves the list. Returns its kind.
    ///
    /// `NotTaken` if no taken action has the ticket: it is pending, or done, or was never stored.
    pub fn done(&mut self, ticket: u64) -> Result<Kind, Fault>
        ensures answer { result ≡ done_answer self.old ticket }
        ensures lists { self.new ≡ after_done self.old ticket }
        ensures refused { OnErr result (self.new ≡ self.old) }
        ensures valid { IsDrain self.new }
    {
        let Some(place) = self.place_of(ticket) else {
            return Err(Fault::NotTaken);
        };
        Ok(self.taken.remove(place).kind)
    }

    /// Gives up the oldest pending action, whatever is safe: it leaves the list, and nobody took it. Returns
    /// it with its ticket, or `None` if none is pending.
    pub fn give_up(&mut self) -> Option<(u64, Action<J>)>
        ensures answer { result ≡ slice_get self.old.pending 0 }
        ensures lists { self.new ≡ after_give_up self.old }
        ensures none { IfNone result (self.new ≡ self.old) }
        ensures valid { IsDrain self.new }
    {
        self.pending.pop(&mut Visits::none())
    }

    /// How many pending places the last accepted `take` visited: one, and 0 before the first.
    pub fn turns(&self) -> u64
        ensures turns { result ≡ self.now.turns }
        ensures bound { result ≤ 1 }
        ensures valid { IsDrain self.now }
    {
        self.last_take.count()
    }

    /// The ticket of the oldest pending action.
    pub fn front(&self) -> Option<u64>
        ensures ticket { result ≡ option_map (λ entry. entry.0) (slice_get self.now.pending 0) }
        ensures valid { IsDrain self.now }
    {
        self.pending.front()
    }

    /// How many actions are pending.
    pub fn pending_count(&self) -> u64
        ensures count { result ≡ length self.now.pending }
        ensures valid { IsDrain self.now }
    {
        self.pending.len() as u64
    }

    /// The taken actions that aren't done, oldest first, where they lie.
    pub fn taken_row(&self) -> &[Waiting]
        ensures list { result.now ≡ self.now.taken }
        ensures valid { IsDrain self.now }
    {
        self.taken.as_slice()
    }

    /// Returns the oldest 64 of the taken actions that aren't done, oldest first: all, if the limit is at
    /// most 64.
    pub fn taken(&self) -> ArrayVec<Waiting, 64>
        ensures list { result.items ≡ take 64 self.now.taken }
        ensures all { self.now.limit ≤ 64 → result.items ≡ self.now.taken }
        ensures valid { IsDrain self.now }
    {
        let taken = self.taken.as_slice();
        let mut row = ArrayVec::new();
        for waiting in &taken[..taken.len().min(64)] {
            row.push(*waiting);
        }
        row
    }

    /// Whether a put would be taken: fewer actions are pending and taken than the limit.
    pub fn has_room(&self) -> bool
        ensures room { IsTrue result ↔ (count_of self.now < self.now.limit) }
        ensures valid { IsDrain self.now }
    {
        self.pending.len() + self.taken.len() < self.limit
    }

    /// The place of the taken action of this ticket, if there is one.
    fn place_of(&self, ticket: u64) -> Option<usize>
        ensures place { result ≡ position (has_ticket ticket) self.now.taken }
        ensures valid { IsDrain self.now }
    {
        self.taken.place_of(ticket)
    }
}

impl<J: Tagged> Drain<J> {
    ghost use Rattle.hl_drain.specs.Actions.{waiting_of};
    ghost use Rattle.hl_drain.specs.Lists.{IsDrain, take_answer, after_take};

    /// Takes the oldest pending action, if its ticket is at most the safe epoch, and returns both. The list
    /// goes on to know it as taken.
    ///
    /// `Empty` if none is pending. `NotReady`, with the oldest ticket and the safe epoch, if it is above.
    pub fn take(&mut self, safe: u64) -> Result<(u64, Action<J>), Fault>
        ensures answer { result ≡ take_answer self.old safe }
        ensures lists { self.new ≡ after_take J.tag result self.old }
        ensures refused { OnErr result (self.new ≡ self.old) }
        ensures valid { IsDrain self.new }
    {
        let front = self.pending.front().ok_or(Fault::Empty)?;
        if front > safe {
            return Err(Fault::NotReady { front, safe });
        }
        let mut visits = Visits::none();
        let (ticket, action) = self.pending.pop(&mut visits).ok_or(Fault::Empty)?;
        self.taken.push(action.waiting(ticket));
        self.last_take = visits;
        Ok((ticket, action))
    }

    /// The n-th pending action, oldest first, counted from 0; `None` if fewer are pending.
    pub fn pending_at(&self, n: u64) -> Option<Waiting>
        ensures value { result ≡ option_map (waiting_of J.tag) (slice_get self.now.pending n) }
        ensures valid { IsDrain self.now }
    {
        let (ticket, action) = self.pending.at(n as usize)?;
        Some(action.waiting(*ticket))
    }

    /// Returns the oldest 64 of the pending actions, oldest first: all, if the limit is at most 64.
    pub fn pending(&self) -> ArrayVec<Waiting, 64>
        ensures list { result.items ≡ take 64 (map (waiting_of J.tag) self.now.pending) }
        ensures all { self.now.limit ≤ 64 → result.items ≡ map (waiting_of J.tag) self.now.pending }
        ensures valid { IsDrain self.now }
    {
        let mut row = ArrayVec::new();
        for n in 0..self.pending_count().min(64) {
            if let Some(waiting) = self.pending_at(n) {
                row.push(waiting);
            }
        }
        row
    }
}
