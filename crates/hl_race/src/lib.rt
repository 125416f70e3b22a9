//! A race: riders that allocate, store, load and refresh in threads of their own, beside a crew that settles, flushes,
//! closes and cleans behind them, and the audit of what they left.
//!
//! What threads do in which order is open, so nothing is known of a race beforehand but that its steps are lawful and
//! leave what the domain is at when it is closed. Without cuts a fresh core takes all steps of the journal; with cuts
//! the slow form, from the base of the steps that were cut, takes those since. The audit compares what they are at with
//! the closing snapshot, and the steps with the sum of the riders' shares. Whether each flushed page has an image is
//! told beside.
#![tactic(auto)]

mod audit;
mod course;
mod race;
mod riders;

pub use audit::{agrees_from_the_base, agrees_from_the_start};
pub use race::{Race, Raced, run_race, run_race_within};
