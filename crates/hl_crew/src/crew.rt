//! A crew's riders, page writers and counts by their names.
ghost use Rattle.std.specs.Prelude.{◌≡◌, ◌<◌, ◌≤◌, ◌+◌, ◌++◌, ◌↔◌, true, IfErr, IfNone, IfOk, IfSome, IsOk, MatchResult, length, vec_len, vec_capacity};
ghost use Rattle.hl_model.specs.declared.fault.Fault.TheVariants.{OutOfMemory};
ghost use Rattle.hl_crew.specs.Riders.{riders_of};

use crate::counts::Counts;
use crate::limits::Limits;
use hl_model::Fault;
use hl_words::{Realm, Rider};

/// The riders of a crew.
#[derive(Drop)]
pub struct CrewRiders<L: Realm> {
    pub flusher: Rider<L>,
    pub first_writer: Rider<L>,
    pub second_writer: Rider<L>,
    pub cleaner: Rider<L>,
}

impl<L: Realm> CrewRiders<L> {
    // The riders of this row, in their order.
    pub(crate) fn of(riders: [Rider<L>; 4]) -> CrewRiders<L>
        ensures { riders_of result ≡ riders }
    {
        let [flusher, first_writer, second_writer, cleaner] = riders;
        CrewRiders {
            flusher,
            first_writer,
            second_writer,
            cleaner,
        }
    }

    /// Takes the last four of these riders; `None` if there are fewer, and then all stay.
    pub fn take_from(riders: &mut Vec<Rider<L>>) -> Option<CrewRiders<L>>
        ensures taken { IfSome result (λ crew. riders.old.items ≡ riders.new.items ++ riders_of crew) }
        ensures few { IfNone result ((length riders.old.items < 4) × (riders.new ≡ riders.old)) }
    {
        if riders.len() < 4 {
            return None;
        }
        Some(CrewRiders {
            cleaner: riders.pop().unwrap(),
            second_writer: riders.pop().unwrap(),
            first_writer: riders.pop().unwrap(),
            flusher: riders.pop().unwrap(),
        })
    }

    /// Puts them behind these.
    ///
    /// Fault, with the riders: `OutOfMemory` if memory was refused; the others are then as before.
    pub fn put_back(self, riders: &mut Vec<Rider<L>>) -> Result<(), (Fault, CrewRiders<L>)>
        ensures { MatchResult result
            (λ _. riders.new.items ≡ riders.old.items ++ riders_of self)
            (λ back. (back ≡ (OutOfMemory, self)) × (riders.new.items ≡ riders.old.items)) }
    {
        if riders.reserve(4).is_err() {
            return Err((Fault::OutOfMemory, self));
        }
        self.put_back_reserved(riders);
        Ok(())
    }

    /// Puts them behind these, where there is room for them: so it takes no memory.
    pub fn put_back_reserved(self, riders: &mut Vec<Rider<L>>)
        requires room { vec_len riders.old + 4 ≤ vec_capacity riders.old }
        ensures items { riders.new.items ≡ riders.old.items ++ riders_of self }
        ensures room { vec_capacity riders.new ≡ vec_capacity riders.old }
    {
        riders.push_reserved(self.flusher);
        riders.push_reserved(self.first_writer);
        riders.push_reserved(self.second_writer);
        riders.push_reserved(self.cleaner);
    }
}

/// A crew before and after it works: its riders, and where each of its two writers writes pages.
#[derive(Drop)]
pub struct Crew<L: Realm, W> {
    pub riders: CrewRiders<L>,
    pub first: W,
    pub second: W,
}

/// What a crew did.
#[derive(Clone, Copy, Debug)]
pub struct CrewReport {
    /// How many flushes were answered as ended well.
    pub written: u64,
    /// How many flushes were answered as failed.
    pub failed: u64,
    /// How many acknowledgements named a page that the flusher didn't hold.
    pub strangers: u64,
    // Of all its threads: only `CrewReport::of` makes a report.
    limits: Limits,
}

impl CrewReport {
    /// Returns the limits that all its threads kept to.
    pub fn limits(self) -> Limits
        ensures { result ≡ self.limits }
    {
        self.limits
    }

    // Returns the report of a crew within these limits, if all of its threads have done their work.
    //
    // `OutOfMemory` if one hasn't: it couldn't be made.
    pub(crate) fn of(are_done: bool, counts: Counts, limits: Limits) -> Result<CrewReport, Fault>
        ensures done { IsOk result ↔ (are_done ≡ true) }
        ensures counts { IfOk result (λ report. (report.written ≡ counts.written)
            × (report.failed ≡ counts.failed) × (report.strangers ≡ counts.strangers)) }
        ensures limits { IfOk result (λ report. report.limits ≡ limits) }
        ensures memory { IfErr result (λ fault. fault ≡ OutOfMemory) }
    {
        if !are_done {
            return Err(Fault::OutOfMemory);
        }
        Ok(CrewReport {
            written: counts.written,
            failed: counts.failed,
            strangers: counts.strangers,
            limits,
        })
    }
}
