//! The domain: an allocator that threads share, with its quantities under one lock and its words beside it.
//!
//! After FASTER (Chandramouli, Prasaad, Kossmann, Levandoski, Hunter, Barnett, SIGMOD 2018): threads share
//! the pages of its HybridLog under its epoch protection. Here the quantities stand in one [`Keeper`] under the
//! lock of a [`Domain`], and the words in `Words`, which need none. docs/THREADS.md tells when to call what.
//!
//! # Who has what
//!
//! | Value | What it is |
//! |---|---|
//! | a [`Domain`] | a keeper under its lock, and the words: shared by a `&` |
//! | a [`Keeper`] | the core, the journal with the base of the steps cut, the right to store the master's four words |
//! | a `Rider` | the right to act; its share, how many steps it entered; its calls, in proofs. `close` needs all |
//! | a [`Pass`] | the right to act for a slot, with its touches: what it did since its last locked call |
//! | a [`Load`], a [`Broom`] | a page that was taken, to be flushed or to be cleaned; each must be ended |
//! | an [`Ending`] | what is left: base, journal, actions that were never taken, all quantities, the words |
//!
//! # Under the lock: one list for all threads
//!
//! A locked call of a domain is its keeper's, and hl_keeper tells what these are. Beside the keeper lies the one list
//! of all steps, in the proofs alone. Each call, accepted or refused, notes in its rider's record of calls the list
//! that it met and the steps that it put behind it: `LeavesUnderLock` in `specs/Domains.antt` says so, and that between the
//! keepers before and after the call the keeper's own clause holds, at that list. The rider also notes how many steps
//! each of the two has cut, and the next call meets what this one left. After a refusal the keeper is equal to the
//! one before. `close` ties all together: one accepted list begins with what each call of each rider met and left,
//! the calls of one rider follow each other there, and each of its steps was entered by exactly one call. So the
//! answers to all locked calls of all threads' riders and passes are those of one list of steps, the one that is
//! there at the end. `snapshot`, `holders` and `frame_of` take no rider and note nothing: each is answered at some
//! list. By a rider (`snapshot_by`, `holders_by`, `frame_of_by`) its newest call tells which.
//!
//! `look`, `store`, `load`, `region`, `fetch_add`, `compare_exchange`, `copy_page` and `sweep` take no lock, and
//! their clauses are exact in the pass, the broom and the rider; `keep_up` takes the lock only if anything is new, or
//! the pass has no room for a touch. `close` hands on the rule of the words too, of exactly what these riders did:
//! all of it has one order, in which the calls stand. A load, or a change, found what the newest store before it left
//! there, or 0 before any; a look found an address to which a raise or a shift of the list moved, or 0. Below a safe
//! read-only offset that was loaded no later step of the list writes ([`laws::loads_are_settled`]).
//!
//! A thread that ends with a pass in its hands leaves the slot protected for good, and its rider missing.
//!
//! No call after [`Domain::open`] may answer that memory was refused.
#![tactic(auto)]

mod domain;
pub mod laws;

pub use domain::Domain;
pub use hl_keeper::{
    Action, AnyAnswer, ArrayVec, Ask, Base, Broom, CountTable, Drain, Ending, Epochs, Fault,
    Firing, FrameState, HasSizes, Holder, Keeper, Kept, Lease, Load, Master, NoJob, PageJob,
    Params, Pass, Past, Promise, Ran, RawSizes, Ready, Realm, Region, Reply, Rider, ScanTable,
    Seed, Six, Sizes, Snapshot, Step, Task, View, Words, unlocked, worked,
};
