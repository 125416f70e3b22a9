ghost use Rattle.std.specs.Prelude.{◌≡◌, ℕ, ◌≤◌, ◌<◌, None, Some, is_some, IfSome, IfOk, IfErr, IsOk, List, length, replicate, slice_index_or, slice_set, if◌then◌else◌};
ghost use Rattle.hl_model.specs.declared.fault.Fault.TheVariants.{OutOfMemory};
ghost use Rattle.hl_action.specs.Jobs.{KeptRecord};
ghost use Rattle.hl_action.specs.Shelves.{job_of, has_place};

use crate::kept::Kept;
use crate::promise::Promise;
use crate::task::Task;
use hl_model::{Fault, Tagged};
use std::alloc::Global;
use std::marker::Model;

/// A map from the tags below a number to jobs, each stored under its own tag.
pub struct Shelf<F: Task, P: Promise> {
    places: Vec<Option<Kept<F, P>>>,
}

impl<F: Task, P: Promise> Model for Shelf<F, P> {
    ghost use Rattle.std.specs.Prelude.{◌≡◌, List, length, Option, vec_capacity};
    ghost use Rattle.hl_action.specs.Jobs.{KeptRecord};
    ghost use Rattle.hl_action.specs.Shelves.{AreAtTheirTags};

    ghost Value = { List (Option (KeptRecord F)) };

    ghost view = { λ a. a.places.items };

    // The row has as many places as it was opened with: it never grows or shrinks.
    ghost invariant = { λ a. AreAtTheirTags a.places.items
        × (vec_capacity a.places ≡ length a.places.items) };
}

impl<F: Task, P: Promise> Drop for Shelf<F, P> {
    fn drop(self) {
        let Shelf { places: _ } = self;
    }
}

impl<F: Task, P: Promise> Shelf<F, P> {
    /// A shelf with a place for each tag below n, all free. No other call of a shelf takes memory.
    ///
    /// # Errors
    ///
    /// `OutOfMemory` if the places were refused.
    pub fn open(alloc: Global, n: u64) -> Result<Shelf<F, P>, Fault>
        ensures free { IfOk result (λ shelf. shelf ≡ replicate n None) }
        ensures error { IfErr result (λ fault. fault ≡ OutOfMemory) }
        ensures none_needed { n ≡ 0 → IsOk result }
    {
        let Ok(mut places) = Vec::with_capacity(alloc, n as usize) else {
            return Err(Fault::OutOfMemory);
        };
        for _ in 0..n {
            places.push_reserved(None);
        }
        Ok(Shelf { places })
    }

    /// Puts a job at the place of its tag. Hands it back, and changes nothing, if there is no such place or
    /// another job is there.
    pub fn put(&mut self, kept: Kept<F, P>) -> Option<Kept<F, P>>
        ensures back { result ≡ (if has_place self.old kept.tag then None else Some kept) }
        ensures after { self.new ≡
            (if has_place self.old kept.tag then slice_set self.old kept.tag (Some kept) else self.old) }
    {
        let at = kept.tag() as usize;
        match self.places.get(at) {
            Some(None) => {
                self.places[at] = Some(kept);
                None
            }
            _ => Some(kept),
        }
    }

    /// Takes the job of a tag; returns it, or None if it isn't there.
    pub fn take(&mut self, tag: u64) -> Option<Kept<F, P>>
        ensures value { result ≡ job_of self.old tag }
        ensures after { self.new ≡ slice_set self.old tag None }
        ensures own_tag { IfSome result (λ kept. kept.tag ≡ tag) }
    {
        self.places.get_mut(tag as usize)?.take()
    }

    /// Whether the job of a tag is there.
    pub fn has(&self, tag: u64) -> bool
        ensures { result ≡ is_some (job_of self.now tag) }
    {
        matches!(self.places.get(tag as usize), Some(Some(_)))
    }
}
