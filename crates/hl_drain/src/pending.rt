ghost use Rattle.std.specs.Prelude.{◌≡◌, ◌+◌, ◌^◌, ◌<◌, [], ◌∷◌, ◌++◌, length, drop, slice_get, option_copied, option_map, IfOk, IfErr, IsOk, OnOk, ◌↔◌};
ghost use Rattle.circular_buffer.specs.Buffer.{buffer};

use crate::action::Action;
use crate::visits::Visits;
use circular_buffer::HeapCircularBuffer;
use std::alloc::{AllocError, Global};

/// Pending actions with their tickets, oldest first, in a ring of places: behind its last place comes its
/// first again. Its places are laid out once, and no call makes more or fewer. Each call that moves an action
/// visits the one place that it counts, and leaves all other actions where they lie.
#[derive(Drop)]
pub(crate) struct Pending<J> {
    ring: HeapCircularBuffer<(u64, Action<J>)>,
}

impl<J> Pending<J> {
    /// An empty ring of so many places.
    pub(crate) fn open(alloc: Global, places: usize) -> Result<Pending<J>, AllocError>
        ensures { IfOk result (λ pending. pending.ring ≡ buffer [] places) }
    {
        let ring = HeapCircularBuffer::with_capacity(alloc, places)?;
        Ok(Pending { ring })
    }

    /// How many are pending.
    pub(crate) fn len(&self) -> usize
        ensures { result ≡ length self.now.ring.items }
    {
        self.ring.len()
    }

    /// The ticket of the oldest one.
    pub(crate) fn front(&self) -> Option<u64>
        ensures { result ≡ option_map (λ entry. entry.0) (slice_get self.now.ring.items 0) }
    {
        self.ring.front().map(|entry| entry.0)
    }

    /// The n-th one, counted from 0, with its ticket.
    pub(crate) fn at(&self, n: usize) -> Option<&(u64, Action<J>)>
        ensures { option_copied result ≡ slice_get self.now.ring.items n }
    {
        self.ring.get(n)
    }

    /// Moves an action into the place behind the last one, or hands it back if no place is free.
    pub(crate) fn push(
        &mut self,
        ticket: u64,
        action: Action<J>,
        visits: &mut Visits,
    ) -> Result<(), Action<J>>
        requires { visits.old < 2 ^ 63 }
        ensures room { IsOk result ↔ (length self.old.ring.items < self.old.ring.capacity) }
        ensures ok { OnOk result (self.new.ring ≡
            buffer (self.old.ring.items ++ (ticket, action) ∷ []) self.old.ring.capacity) }
        ensures err { IfErr result (λ back. (back ≡ action) × (self.new ≡ self.old)) }
        ensures visit { visits.new ≡ visits.old + 1 }
    {
        visits.tick();
        self.ring
            .try_push_back((ticket, action))
            .map_err(|(_, action)| action)
    }

    /// Moves the oldest one out of its place.
    pub(crate) fn pop(&mut self, visits: &mut Visits) -> Option<(u64, Action<J>)>
        requires { visits.old < 2 ^ 63 }
        ensures value { result ≡ slice_get self.old.ring.items 0 }
        ensures rest { self.new.ring ≡ buffer (drop 1 self.old.ring.items) self.old.ring.capacity }
        ensures visit { visits.new ≡ visits.old + 1 }
    {
        visits.tick();
        self.ring.pop_front()
    }
}
