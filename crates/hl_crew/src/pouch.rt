ghost use Rattle.std.specs.Prelude.{◌≡◌, ℕ, ◌+◌, ◌<◌, Some, None, Err, replicate, position, is_none, is_some, length, IfSome, IfNone, OnOk, OnErr, false, slice_get, slice_set};
ghost use Rattle.hl_model.specs.declared.fault.Fault.TheVariants.{NotInFlight};
ghost use Rattle.hl_crew.specs.Pouches.{is_of, load_count, Puts, Answers};
ghost use Rattle.hl_crew.specs.Tries.{EndsFlush};
ghost use Rattle.hl_crew.specs.Waits.{Waits};

use crate::gate::Taken;
use hl_action::{Promise, Task};
use hl_domain::{Domain, Load};
use hl_epoch::Epochs;
use hl_model::Fault;
use hl_words::{Realm, Rider};
use std::marker::Model;
use std::sync::Wait;

/// At most four pages that were taken to be flushed, until each is answered. Contracts see it as
/// four places, each with a load or without. It must be ended, by `forsake`.
pub struct Pouch {
    loads: [Option<Load>; 4],
}

impl Model for Pouch {
    ghost use Rattle.std.specs.Prelude.{◌≡◌, Option, List, length};
    ghost use Rattle.hl_keeper.specs.declared.load.PageJob.{PageJob};

    ghost Value = { List (Option PageJob) };

    ghost view = { λ a. a.loads };

    ghost invariant = { λ a. length a.loads ≡ 4 };
}

impl Pouch {
    /// Returns a pouch that holds none.
    pub fn new() -> Pouch
        ensures { result ≡ replicate 4 None }
    {
        Pouch {
            loads: [None, None, None, None],
        }
    }

    /// Puts a page into the first place that is free. It holds fewer than four.
    pub fn put(&mut self, load: Load)
        requires { load_count self.old < 4 }
        ensures held { Puts load self.old self.new }
        ensures more { load_count self.new ≡ load_count self.old + 1 }
    {
        let _ = self.hold(load);
    }

    /// The same. Returns the page, for a writer.
    #[tactic(auto, using(crate::proofs::PouchLaws::none_free, crate::proofs::PouchLaws::filled))]
    pub(crate) fn hold(&mut self, load: Load) -> Taken
        requires { load_count self.old < 4 }
        ensures held { Puts load self.old self.new }
        ensures more { load_count self.new ≡ load_count self.old + 1 }
        ensures taken { result.job ≡ load }
    {
        let taken = Taken::of(&load);
        match self.free_place() {
            Some(at) => self.set(at, load),
            None => unreachable!(),
        }
        taken
    }

    /// Answers the flush of a page as ended, well or not; returns the flushed offset. The page is
    /// held no longer.
    ///
    /// Faults, of which none changes what it holds: `NotInFlight` if it holds no load of that page,
    /// and then nothing enters the journal; else those of `Domain::flush_done`.
    #[tactic(auto, using(crate::proofs::Steps::waits_same))]
    pub fn answer<R: Wait, E: Epochs + Drop, F: Task, P: Promise, L: Realm>(
        &mut self,
        rt: &R,
        domain: &Domain<E, F, P, L>,
        rider: &mut Rider<L>,
        page: u64,
        ok: bool,
    ) -> Result<u64, Fault>
        ensures none { position (is_of page) self.old ≡ None
            → (result ≡ Err NotInFlight) × (self.new ≡ self.old) × (rider.new ≡ rider.old) }
        ensures held { (at : ℕ) → position (is_of page) self.old ≡ Some at
            → Answers page at self.old self.new result
            (λ stamp. EndsFlush F domain.now page ok stamp result rider.old rider.new) }
        ensures fewer { OnOk result (load_count self.new + 1 ≡ load_count self.old) }
        ensures refused { OnErr result (self.new ≡ self.old) }
        ensures waits { OnErr result (Waits rider.old rider.new) }
    {
        let Some(at) = self.place_of(page) else {
            return Err(Fault::NotInFlight);
        };
        let Some(load) = self.take(at) else {
            unreachable!()
        };
        match domain.flush_done(rt, rider, load, ok) {
            Ok(flushed) => Ok(flushed),
            Err((fault, load)) => {
                self.set(at, load);
                Err(fault)
            }
        }
    }

    /// Returns the page of the first that it holds, `None` if it holds none.
    #[tactic(auto, using(crate::proofs::PouchLaws::none_held))]
    pub(crate) fn first(&self) -> Option<u64>
        ensures none { IfNone result (load_count self.now ≡ 0) }
        ensures held { IfSome result (λ page. (at : ℕ) × (position (is_of page) self.now ≡ Some at)) }
    {
        let at = self.held_place()?;
        match &self.loads[at] {
            Some(load) => Some(load.job().page),
            None => unreachable!(),
        }
    }

    /// Returns whether it holds a load of this page.
    pub(crate) fn holds(&self, page: u64) -> bool
        ensures { result ≡ is_some (position (is_of page) self.now) }
    {
        self.place_of(page).is_some()
    }

    /// Gives up all that it holds: these pages stay in flight.
    pub fn forsake(self) {
        let Pouch { loads } = self;
        forsake_all(loads);
    }

    // Returns the first place that holds a load.
    fn held_place(&self) -> Option<usize>
        ensures place { result ≡ position is_some self.now }
        ensures within { IfSome result (λ at. at < 4) }
        ensures places { length self.now ≡ 4 }
    {
        self.loads.iter().position(|held| held.is_some())
    }

    // Returns the first place that is free.
    fn free_place(&self) -> Option<usize>
        ensures place { result ≡ position is_none self.now }
        ensures within { IfSome result (λ at. at < 4) }
        ensures places { length self.now ≡ 4 }
    {
        self.loads.iter().position(|held| held.is_none())
    }

    // Returns the first place that holds a load of this page.
    fn place_of(&self, page: u64) -> Option<usize>
        ensures place { result ≡ position (is_of page) self.now }
        ensures within { IfSome result (λ at. at < 4) }
    {
        self.loads.iter().position(|held| is_of(held, page))
    }

    // Takes what this place holds.
    fn take(&mut self, at: usize) -> Option<Load>
        requires { at < 4 }
        ensures value { slice_get self.old at ≡ Some result }
        ensures after { self.new ≡ slice_set self.old at None }
    {
        self.loads[at].take()
    }

    // Puts a page into this place, which is free.
    fn set(&mut self, at: usize, load: Load)
        requires { at < 4 }
        ensures { self.new ≡ slice_set self.old at (Some load) }
    {
        match self.loads[at].replace(load) {
            None => {}
            Some(other) => other.forsake(),
        }
    }
}

// Whether it is of this page.
fn is_of(held: &Option<Load>, page: u64) -> bool
    ensures { result ≡ is_of page held.now }
{
    match held {
        Some(load) => load.job().page == page,
        None => false,
    }
}

// Gives it up, if there is one.
fn forsake_any(held: Option<Load>) {
    match held {
        Some(load) => load.forsake(),
        None => {}
    }
}

// Gives up all of these.
fn forsake_all(loads: [Option<Load>; 4]) {
    let [first, second, third, fourth] = loads;
    forsake_any(first);
    forsake_any(second);
    forsake_any(third);
    forsake_any(fourth);
}
