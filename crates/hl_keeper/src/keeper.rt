ghost use Rattle.std.specs.Prelude.{◌≡◌, ◌≢◌, ◌≤◌, [], length, map, IfOk, IfErr, OnOk};
ghost use Rattle.std.specs.Option.{IfSome};
ghost use Rattle.std.specs.List.{AllByRecursion};
ghost use Rattle.hl_model.specs.declared.fault.Fault.TheVariants.{OutOfMemory};
ghost use Rattle.hl_history.specs.Lists.{IsOneList};
ghost use Rattle.hl_words.specs.Seats.{IsKnown};
ghost use Rattle.hl_words.specs.States.{AreTied, IsSeedOf};
ghost use Rattle.hl_keeper.specs.Keepers.{IsOpened, steps_most};
ghost use Rattle.hl_keeper.specs.Endings.{IsLeftOf};

use crate::ending::Ending;
use crate::journal::Journal;
use hl_action::{Kept, Promise, Task};
use hl_core::Core;
use hl_epoch::Epochs;
use hl_model::Fault;
use hl_pass::Stamps;
use hl_words::{Master, Past, Realm, Recorder, Rider, Seed, Words};
use std::alloc::Global;
use std::marker::Model;

/// What lies under a domain's one lock: a core over the table of epochs E with jobs F, the journal of the
/// accepted steps with the base of those that were cut from it, each slot's stamp, and the right to store the
/// master's words. The answers of its jobs keep the promise P.
pub struct Keeper<E: Epochs, F: Task, P: Promise, L: Realm> {
    // It gives one at each accepted acquire.
    pub(crate) stamps: Stamps,
    // The journal's end, the total and the core's tail, which calls write, lie side by side.
    pub(crate) journal: Journal,
    pub(crate) master: Master<L>,
    pub(crate) core: Core<E, Kept<F, P>>,
}

impl<E: Epochs, F: Task, P: Promise, L: Realm> Model for Keeper<E, F, P, L> {
    ghost use Rattle.std.specs.Prelude.{vec_capacity};
    ghost use Rattle.hl_keeper.specs.Keepers.{KeeperState, IsKept};
    ghost use Rattle.hl_keeper.specs.Parts.{keeper_of};

    ghost Value = { KeeperState F };

    ghost view = { λ k. keeper_of k.core k.journal k.stamps k.master };

    ghost invariant = { λ k. IsKept L.sizes L.stamp (keeper_of k.core k.journal k.stamps k.master)
        (vec_capacity k.stamps.row) };
}

impl<E: Epochs + Drop, F: Task, P: Promise, L: Realm> Drop for Keeper<E, F, P, L> {
    fn drop(self) {
        let Keeper {
            core: _,
            journal: _,
            stamps: _,
            master: _,
        } = self;
    }
}

impl<E: Epochs + Drop, F: Task, P: Promise, L: Realm> Keeper<E, F, P, L> {
    /// A keeper at the empty list, with its words and its riders. It may keep this many steps
    /// between two cuts, and the stamp is its domain's. No other call may answer that memory was
    /// refused.
    ///
    /// `OutOfMemory` if memory was refused; then the seed is given up.
    pub fn open(
        alloc: Global,
        seed: Seed,
        journal: u64,
        stamp: u64,
    ) -> Result<(Keeper<E, F, P, L>, Words<L>, Vec<Rider<L>>), Fault>
        requires seed { IsSeedOf L.name L.parts L.table seed }
        requires journal { journal ≤ steps_most }
        requires stamp { stamp ≤ steps_most }
        requires named { (seed.sizes ≡ L.sizes) × (stamp ≡ L.stamp) }
        ensures opened { IfOk result (λ o. IsOpened seed journal stamp o.0 o.1 o.2.items) }
        ensures memory { IfErr result (λ fault. fault ≡ OutOfMemory) }
    {
        let (keeper, words, _recorder, riders) = Keeper::open_with_recorder(
            alloc, seed, journal, stamp,
        )?;
        Ok((keeper, words, riders))
    }

    /// A keeper as `open` makes it, and the recorder of its words' list, whose list is empty too. If
    /// both lie under one lock, and each call is noted by `note` or `note_quiet`, the recorder has
    /// each list at which the keeper stands.
    ///
    /// `OutOfMemory` if memory was refused; then the seed is given up.
    pub fn open_with_recorder(
        alloc: Global,
        seed: Seed,
        journal: u64,
        stamp: u64,
    ) -> Result<(Keeper<E, F, P, L>, Words<L>, Recorder<L>, Vec<Rider<L>>), Fault>
        requires seed { IsSeedOf L.name L.parts L.table seed }
        requires journal { journal ≤ steps_most }
        requires stamp { stamp ≤ steps_most }
        requires named { (seed.sizes ≡ L.sizes) × (stamp ≡ L.stamp) }
        ensures opened { IfOk result (λ o. IsOpened seed journal stamp o.0 o.1 o.3.items) }
        ensures list { IfOk result (λ o. o.2 ≡ []) }
        ensures memory { IfErr result (λ fault. fault ≡ OutOfMemory) }
    {
        let params = seed.params();
        let (words, master, recorder, riders) = Words::open_with_recorder(alloc, seed)?;
        let core = Core::open(alloc, params)?;
        let journal = Journal::open(alloc, params, journal)?;
        let stamps = Stamps::open(alloc, params.slots(), stamp)?;
        let keeper = Keeper {
            core,
            journal,
            stamps,
            master,
        };
        Ok((keeper, words, recorder, riders))
    }

    /// Ends the keeper, and returns what is left of it. It needs all its riders: if one is missing,
    /// all that was handed in comes back.
    pub fn close(
        self,
        words: Words<L>,
        riders: Vec<Rider<L>>,
    ) -> Result<Ending<F, P>, (Keeper<E, F, P, L>, Words<L>, Vec<Rider<L>>)>
        ensures ending { IfOk result (IsLeftOf self words riders.items) }
        ensures missing { IfErr result (λ _. length riders.items ≢ words.riders) }
        ensures back { IfErr result (λ back. (back.0 ≡ self) × (back.1 ≡ words) × (back.2 ≡ riders)) }
    {
        let Keeper {
            core,
            journal,
            stamps,
            master,
        } = self;
        match words.close(master, riders) {
            Ok(words) => Ok(Ending {
                snapshot: core.snapshot(),
                base: journal.base,
                cut: journal.cut,
                journal: journal.steps,
                left: core.into_drain(),
                words,
            }),
            Err((words, master, riders)) => {
                let keeper = Keeper {
                    core,
                    journal,
                    stamps,
                    master,
                };
                Err((keeper, words, riders))
            }
        }
    }

    /// Ends it as `close` does. If no rider is missing, the recorder's list is also the one list of exactly these riders'
    /// calls, which stand among their touches; and of each past that was kept some rider has its name, and made the
    /// touches that it tells.
    pub fn close_with_recorder(
        self,
        words: Words<L>,
        recorder: Recorder<L>,
        riders: Vec<Rider<L>>,
        pasts: Option<Vec<Past<L>>>,
    ) -> Result<
        Ending<F, P>,
        (
            Keeper<E, F, P, L>,
            Words<L>,
            Recorder<L>,
            Vec<Rider<L>>,
            Option<Vec<Past<L>>>,
        ),
    >
        ensures ending { IfOk result (IsLeftOf self words riders.items) }
        ensures list { OnOk result (IsOneList recorder (map (λ r. r.calls) riders.items)) }
        ensures tied { OnOk result (AllByRecursion (λ r. AreTied r.view.touches r.calls) riders.items) }
        ensures known { OnOk result (IfSome pasts
            (λ all. AllByRecursion (IsKnown (map (λ r. r.view) riders.items)) all.items)) }
        ensures missing { IfErr result (λ _. length riders.items ≢ words.riders) }
        ensures back { IfErr result (λ back. (back.0 ≡ self) × (back.1 ≡ words)
            × (back.2 ≡ recorder) × (back.3 ≡ riders) × (back.4 ≡ pasts)) }
    {
        let Keeper {
            core,
            journal,
            stamps,
            master,
        } = self;
        match words.close_with_recorder(master, recorder, riders, pasts) {
            Ok(words) => Ok(Ending {
                snapshot: core.snapshot(),
                base: journal.base,
                cut: journal.cut,
                journal: journal.steps,
                left: core.into_drain(),
                words,
            }),
            Err((words, master, recorder, riders, pasts)) => {
                let keeper = Keeper {
                    core,
                    journal,
                    stamps,
                    master,
                };
                Err((keeper, words, recorder, riders, pasts))
            }
        }
    }
}
