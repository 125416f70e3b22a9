//! One list that many threads put steps behind: who met which part of it, and who entered which. The list
//! exists in the proofs alone; a call costs three loads of one word.
//!
//! A `Seed` becomes a `History`, which threads share by a `&`, and a `Gathered`, which deals out a
//! `CallRecord` (a record, below) to each thread and then becomes the one `Recorder`, to lie under a lock.
//! `History::enter` puts steps behind the recorder's list, and notes in a record the list that it met and the
//! steps. At the end the recorder becomes a `Gathered` again, which takes the records back, and
//! `History::close` says that its list is the one list of all their calls.
//!
//! What each value witnesses:
//!
//! - the **recorder**: the list, with all steps that any call entered, in order;
//! - a **record**: its thread's calls, the newest first, each as an `Entry`: the list that it met, and the
//!   steps that it put behind;
//! - a **gathered**: the list, and the records that no thread has;
//! - a **seed**: that its list is new. It is used up by `History::open`;
//! - **named**: nothing by itself. It names one history in types, so that a recorder and a record of two don't
//!   fit.
//!
//! The rule, `IsOneList` in `specs/Lists.antt`, holds between any two steps: the list begins with what each
//! call of each record left, each call of one record met a list that begins with what the earlier ones left,
//! and the step at each place of the list was entered by exactly one call. `enter` says the first two of its
//! own record, and `close` says it of exactly the records that were taken back.
//!
//! Neither the list nor an entry exists when a program runs: a history is one word, which `enter` loads three
//! times. No call waits. Memory is taken by `Seed::make` alone.
#![tactic(auto)]

mod gathered;
mod history;
mod recorder;
mod rule;
mod seed;
mod view;

pub use gathered::Gathered;
pub use history::History;
pub use recorder::{CallRecord, Recorder};
pub use seed::{Named, Seed};
pub use view::Entry;
