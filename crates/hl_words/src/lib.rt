//! Shared words: cells, which many threads load and store with no lock, and four words that one stores and
//! all load.
//!
//! A `Seed` becomes `Words`, which threads share by a `&`, one `Master` and some `Rider`s. A rider stores
//! into cells, changes one in one step, and loads any word. The master alone stores its four words, the three
//! offset words and the last epoch that ended: they never fall. It also counts the journal steps that riders
//! enter. At the end `Words::close` takes them all back, and returns the `LastWords`, to be read alone.
//!
//! Beside the words lies the one list of `hl_history`. To have it, open the seed by
//! `Words::open_with_recorder`, which also returns the one `Recorder`, and lay that under the lock where the
//! master lies: `Words::enter` then puts a call's steps behind the list, and notes the call in the rider.
//! `Words::close_with_recorder` says that the recorder's list is the one list of all riders' calls.
//!
//! Whoever can't name a realm in a type, as a C interface, takes a [`Row`]: the same table under the same rule,
//! with a [`RowMaster`] and [`RowRider`]s. Contracts see of each at which row it is, and a call asks that all are
//! of one. No call closes a row, so that its rule holds is kept by its type alone.
//!
//! What each value witnesses:
//!
//! - a **rider**: its touches, which are its stores into cells, its loads and changes of cells, its loads of
//!   the master's words, its calls, and what it was told, in the order in which it made them; its share: how
//!   many journal steps it entered; and its calls once more: the list that each met, and the steps that it
//!   put behind;
//! - the **master**: its stores of each of its words, how many journal steps all riders entered, and where
//!   the newest call that was noted left the one list: with how many steps, of which how many were cut;
//! - the **recorder**: the one list of steps;
//! - a **past**: the touches of a rider up to a moment. It takes no bytes, and may go to another thread, by a
//!   channel or under a lock; the rider there is told it by `Words::tell_past`;
//! - a **seed**: that its words, its ledger and its list are new. It is used up by `Words::open`;
//! - a **realm**: nothing by itself. It names one seed in types, so that a rider, a master and words of one
//!   realm belong together. Code that opens a seed is a function over `L: Realm`, and is called with `Brand`.
//!
//! # The rule
//!
//! It stands in `specs/Rule.antt`, and holds between any two steps. All touches of all riders have one order,
//! the same for all cells (`IsOneOrder`):
//!
//! - of each rider it has just that rider's touches, in the rider's order;
//! - each load of a cell, and each change in one step, found what the newest store before it left there, or 0
//!   before any;
//! - a cell holds what the newest store left;
//! - each call met the one list where the newest call before it left it, with as many steps, of which as many
//!   were cut;
//! - a load of one of the master's words gave no less than those before it;
//! - what a rider was told stands before.
//!
//! So a cell is 0 if no rider stored into it, else it is some rider's last store there, and a load is of the
//! rider's last store before it, or of a value that another rider stores, or of 0 if the rider had seen
//! nothing else there. A word of the master's is its last store and never falls, and each that a rider loaded
//! is one of the master's stores, or 0, and at most the last. `close` says it of exactly the touches of the
//! riders that are handed in, and of what the words hold then, which `LastWords` tells. What a change found
//! counts as a load, and what it left as a store.
//!
//! [`laws`] and [`past_laws`] have what follows: no add is lost; of exchanges from a value that nobody stores
//! again one succeeds at most; no rider's loads of a cell go back; a load finds what its rider was told of,
//! or what was stored since.
//!
//! The order is told at the end. It is tied to time by calls and by what riders were told, and by nothing
//! else.
//!
//! Only the types keep the following, and no contract says it: that the rule holds while threads still run
//! (the contract of one load says just that the rider noted it); that a rider is used by one thread at a
//! time; that values of two seeds, whose types differ, are never mixed; that words may be shared by threads,
//! and that a rider may go to another. The master's stores have an order of their own, and no place in the
//! one order.
//!
//! No call waits. Memory is taken by `Seed::make`, `Words::open`, `Words::open_with_recorder` and `Row::open`
//! alone.
#![tactic(auto)]

mod cells;
mod last;
pub mod laws;
mod master;
mod past;
pub mod past_laws;
mod rider;
mod row;
mod rule;
mod seed;
mod table_steps;
mod view;
mod which;
mod words;

pub use cells::first_cell;
pub use last::LastWords;
pub use master::Master;
pub use past::Past;
pub use rider::Rider;
pub use row::{Row, RowMaster, RowRider};
pub use seed::{HistoryOf, Realm, Recorder, Seed};
pub use view::{Extent, Known, OffsetWords, RiderView, Touch};
pub use which::Which;
pub use words::Words;
