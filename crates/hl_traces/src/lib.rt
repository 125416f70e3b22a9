//! What the threads of a log did, by address: one trace, in which each load finds the newest store.
//!
//! `hl_memory` speaks of riders, touches and calls. Here the same is said for whoever uses a log, by addresses and numbers
//! alone.
//!
//! A rider's **trace** is the same as a list of plain [`Act`]s, the newest first: what it placed, stored, loaded and
//! changed at which address, and how long the one list was after each of its locked calls. It is a function of the
//! rider's touches and calls (`trace`): of the addresses that a cell can have, a pass sees but one, since the log is
//! never longer than its frames behind what is closed. Of riders that have traces (`RiderTraces`), beside others that
//! only sweep, copy and answer (`Serves`), all acts are one trace (`TracesAreOne`): no touch, call or slot is named in
//! what it says.
//!
//! What follows from one trace alone, for who uses a log: a word that all threads only add to ends as the sum
//! (`CountersAreSums`); and of threads that append records, and store nothing else, each record is read by everybody as
//! it was appended (`RecordsAreApart`, `RecordsStay`, `RecordsAreRead`, `RecordsAreWhole`). At the end the log's tail is where
//! the newest record ends, which is the sum of all lengths and of what was skipped at ends of pages (`TailIsTheSum`).
//!
//! All laws are in [`laws`].
#![tactic(auto)]

mod act;
pub mod laws;

pub use act::Act;
