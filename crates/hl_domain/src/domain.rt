//! The keeper and the one list under a lock, beside the words, which need none.
ghost use Rattle.std.specs.Prelude.{◌≡◌, ◌≢◌, ◌≤◌, Some, length, map, IfOk, IfErr, OnOk};
ghost use Rattle.std.specs.List.{AllByRecursion};
ghost use Rattle.std.specs.Option.{IfSome};
ghost use Rattle.std.specs.Sync.Mutex.{mutex_guard_value};
ghost use Rattle.hl_model.specs.declared.fault.Fault.TheVariants.{OutOfMemory, Stranger};
ghost use Rattle.hl_words.specs.Seats.{IsKnown};
ghost use Rattle.hl_words.specs.States.{IsSeedOf, new_riders};
ghost use Rattle.hl_keeper.specs.Keepers.{steps_most};
ghost use Rattle.hl_domain.specs.Domains.{setup_of, IsEnding, IsHeld};

// The one way of a locked call: waits for the lock, makes the keeper's call of that name, and notes it for its rider, with
// the steps that it put behind the journal. It is no function: a closure's bound can't name a keeper's type.
macro_rules! locked {
    ($domain:ident, $rt:ident, $call:ident($who:ident $(, $arg:expr)*)) => {
        locked!($domain, $rt, $call($who $(, $arg)*), $who)
    };
    ($domain:ident, $rt:ident, $call:ident($who:ident $(, $arg:expr)*), $rider:expr) => {{
        let mut guard = $domain.lock($rt);
        let Held { keeper, recorder, .. } = &mut *guard;
        let before = keeper.journal().len();
        let answer = keeper.$call(&$domain.words, $who $(, $arg)*);
        keeper.note(&$domain.words, recorder, $rider, before);
        answer
    }};
}

// The same of a call that hands its rider on, as a pass has one: of whichever of the two comes back it is noted.
macro_rules! handed {
    ($domain:ident, $rt:ident, $call:ident($($arg:expr),*), Ok($ok:ident) => $rider:expr, Err($back:ident) => $its:expr) => {{
        let mut guard = $domain.lock($rt);
        let Held { keeper, recorder, .. } = &mut *guard;
        let before = keeper.journal().len();
        match keeper.$call(&$domain.words $(, $arg)*) {
            Ok(mut $ok) => {
                keeper.note(&$domain.words, recorder, $rider, before);
                Ok($ok)
            }
            Err((fault, mut $back)) => {
                keeper.note(&$domain.words, recorder, $its, before);
                Err((fault, $back))
            }
        }
    }};
}

// The same of a call that makes no step.
macro_rules! asked {
    ($domain:ident, $rt:ident, $rider:ident, $ask:ident($($arg:expr),*)) => {{
        let mut guard = $domain.lock($rt);
        let Held { keeper, recorder, .. } = &mut *guard;
        let answer = keeper.$ask($($arg),*);
        keeper.note_quiet(&$domain.words, recorder, $rider);
        answer
    }};
}

mod held;
mod keep_up;
mod pages;
mod pasts;
mod riders;
mod slots;
mod words;

use crate::domain::held::Held;
use crossbeam_utils::CachePadded;
use hl_action::{Promise, Task};
use hl_epoch::Epochs;
use hl_keeper::{Ending, Keeper};
use hl_model::{Fault, Sizes};
use hl_words::{Past, Realm, Rider, Seed, Words};
use std::alloc::Global;
use std::marker::Model;
use std::sync::{Mutex, MutexGuard, Wait};

/// An allocator for many threads, which share it by a `&`: a [`Keeper`] and the one list of steps under a lock, and the
/// words beside it. What its contracts see are its sizes, its stamp, how many steps
/// it may keep between two cuts, and how many riders it has.
pub struct Domain<E: Epochs, F: Task, P: Promise, L: Realm> {
    // Padded, so that no line of a cache has the lock, or what threads change under it, beside what calls without it read.
    held: CachePadded<Mutex<Held<E, F, P, L>>>,
    words: Words<L>,
    params: Sizes,
    stamp: u64,
}

impl<E: Epochs, F: Task, P: Promise, L: Realm> Model for Domain<E, F, P, L> {
    ghost use Rattle.std.specs.Prelude.{◌≡◌, ◌*◌};
    ghost use Rattle.hl_domain.specs.Domains.{DomainState};

    ghost Value = { DomainState };

    ghost view = { λ d. record {
      sizes = d.params;
      stamp = d.stamp;
      limit = L.limit;
      riders = d.words.riders;
    } };

    ghost invariant = { λ d. (d.params ≡ L.sizes) × (d.stamp ≡ L.stamp)
        × (d.words.cells ≡ d.params.frames * d.params.page_size) × (d.words.riders ≡ L.parts) };
}

impl<E: Epochs + Drop, F: Task, P: Promise, L: Realm> Drop for Domain<E, F, P, L> {
    fn drop(self) {
        let Domain {
            held: _,
            words: _,
            params: _,
            stamp: _,
        } = self;
    }
}

impl<E: Epochs + Drop, F: Task, P: Promise, L: Realm> Domain<E, F, P, L> {
    /// A domain where nothing was done yet, with its riders, as many as the seed has. It may keep this many
    /// steps between two cuts. Two domains of a program are to have different stamps: by its stamp a domain
    /// knows its own pages and actions. Both numbers are at most 2^62.
    ///
    /// `OutOfMemory` if memory was refused; then the seed is given up. No other call may return it.
    pub fn open(
        alloc: Global,
        seed: Seed,
        journal: u64,
        stamp: u64,
    ) -> Result<(Domain<E, F, P, L>, Vec<Rider<L>>), Fault>
        requires seed { IsSeedOf L.name L.parts L.table seed }
        requires journal { journal ≤ steps_most }
        requires stamp { stamp ≤ steps_most }
        requires named { (seed.sizes ≡ L.sizes) × (stamp ≡ L.stamp) × (journal ≡ L.limit) }
        ensures domain { IfOk result (λ opened.
            opened.0
            ≡ record { sizes = seed.sizes; stamp = stamp; limit = journal; riders = seed.riders }) }
        ensures riders { IfOk result (λ opened. opened.1.items ≡ new_riders seed.riders) }
        ensures memory { IfErr result (λ fault. fault ≡ OutOfMemory) }
    {
        let params = seed.params();
        let (keeper, words, recorder, riders) = Keeper::open_with_recorder(
            alloc, seed, journal, stamp,
        )?;
        let domain = Domain {
            held: CachePadded::new(Mutex::new(Held::new(keeper, recorder))),
            words,
            params,
            stamp,
        };
        Ok((domain, riders))
    }

    /// Ends it, if all riders are there: what is left of it. The list of its steps is the one list of all calls of
    /// these riders: it begins with what each of them met and left, and each step was entered by one of them. It
    /// needs no lock: nobody else has it.
    ///
    /// `Stranger`, with the domain's stamp, if a rider is missing; then all is handed back.
    pub fn close(
        self,
        riders: Vec<Rider<L>>,
    ) -> Result<Ending<F, P>, (Fault, Domain<E, F, P, L>, Vec<Rider<L>>)>
        ensures ending { IfOk result (IsEnding self.sizes riders.items) }
        ensures all { OnOk result (length riders.items ≡ self.riders) }
        ensures missing { IfErr result (λ back.
            (back.0 ≡ Stranger self.stamp) × (length riders.items ≢ self.riders)) }
        ensures back { IfErr result (λ back. (back.1 ≡ self) × (back.2 ≡ riders)) }
    {
        let stamp = self.stamp;
        match self.end(riders, None) {
            Ok(ending) => Ok(ending),
            Err((domain, riders, _)) => Err((Fault::Stranger { stamp }, domain, riders)),
        }
    }

    /// Ends it as `close` does, and takes back pasts of riders that were kept: of each, some rider has its name, and made
    /// the touches that it tells.
    ///
    /// `Stranger`, with the domain's stamp, if a rider is missing; then all is handed back.
    pub fn close_with_pasts(
        self,
        riders: Vec<Rider<L>>,
        pasts: Vec<Past<L>>,
    ) -> Result<
        Ending<F, P>,
        (
            Fault,
            Domain<E, F, P, L>,
            Vec<Rider<L>>,
            Option<Vec<Past<L>>>,
        ),
    >
        ensures ending { IfOk result (IsEnding self.sizes riders.items) }
        ensures known { OnOk result (AllByRecursion (IsKnown (map (λ r. r.view) riders.items)) pasts.items) }
        ensures all { OnOk result (length riders.items ≡ self.riders) }
        ensures missing { IfErr result (λ back.
            (back.0 ≡ Stranger self.stamp) × (length riders.items ≢ self.riders)) }
        ensures back { IfErr result (λ back.
            (back.1 ≡ self) × (back.2 ≡ riders) × (back.3 ≡ Some pasts)) }
    {
        let stamp = self.stamp;
        match self.end(riders, Some(pasts)) {
            Ok(ending) => Ok(ending),
            Err((domain, riders, pasts)) => Err((Fault::Stranger { stamp }, domain, riders, pasts)),
        }
    }

    // Ends it, if all riders are there.
    fn end(
        self,
        riders: Vec<Rider<L>>,
        pasts: Option<Vec<Past<L>>>,
    ) -> Result<Ending<F, P>, (Domain<E, F, P, L>, Vec<Rider<L>>, Option<Vec<Past<L>>>)>
        ensures ending { IfOk result (IsEnding self.sizes riders.items) }
        ensures known { OnOk result (IfSome pasts
            (λ all. AllByRecursion (IsKnown (map (λ r. r.view) riders.items)) all.items)) }
        ensures all { OnOk result (length riders.items ≡ self.riders) }
        ensures missing { IfErr result (λ _. length riders.items ≢ self.riders) }
        ensures back { IfErr result (λ back.
            (back.0 ≡ self) × (back.1 ≡ riders) × (back.2 ≡ pasts)) }
    {
        let Domain {
            held,
            words,
            params,
            stamp,
        } = self;
        let (keeper, recorder) = held.into_inner().into_inner().into_parts();
        match keeper.close_with_recorder(words, recorder, riders, pasts) {
            Ok(ending) => Ok(ending),
            Err((keeper, words, recorder, riders, pasts)) => {
                let domain = Domain {
                    held: CachePadded::new(Mutex::new(Held::new(keeper, recorder))),
                    words,
                    params,
                    stamp,
                };
                Err((domain, riders, pasts))
            }
        }
    }

    /// The sizes that it was opened with.
    pub fn params(&self) -> Sizes
        ensures { result ≡ self.now.sizes }
    {
        self.params
    }

    /// The stamp that it was opened with.
    pub fn stamp(&self) -> u64
        ensures { result ≡ self.now.stamp }
    {
        self.stamp
    }

    /// What its type says of it: all domains of one realm have its sizes, its stamp, its journal's room and its number of
    /// riders. For a caller that has a domain of which it knows nothing else.
    #[inline(always)]
    pub fn known(&self)
        ensures { self.now
            ≡ record { sizes = L.sizes; stamp = L.stamp; limit = L.limit; riders = L.parts } }
    {
        let _ = &self.words;
    }

    // Waits for the lock. What lies under it is a keeper that stands at the recorder's list.
    #[inline(always)]
    fn lock<'a>(&'a self, rt: &impl Wait) -> MutexGuard<'a, Held<E, F, P, L>>
        ensures { IsHeld (setup_of self.now) (mutex_guard_value result) }
    {
        let guard = self.held.lock(rt);
        // Of a value under a lock its type alone is known, and a call tells what that says.
        guard.known();
        guard
    }
}
