//! A log for threads under a lock of its caller's, with no brand: a [`Log`], and a [`Pass`] for each thread.
//!
//! The log has the core, and one call at a time uses it: its caller keeps it under a lock. What threads share
//! with no lock, the words of the frames and four words that the log's calls store, lies in one block that
//! the log, its passes and its pages own together, so that a pass or a page may outlive its log.
//!
//! # What is promised
//!
//! At whatever list of accepted steps the log stood, [`Log::step`] replies as the definitions do after that
//! list, and the log then stands at the list with the step, if it was accepted. That it stands there says of
//! its core that each quantity is the list's, and of each of the four words which stores it had (`StandsAt`, in
//! `specs/Logs.antt`). A call of a pass,
//! [`Log::refresh`] and [`Log::call`], returns that the pass is a stranger, with the slot's stamp, or what
//! the definitions reply behind the list and what the pass saw without the lock; the pass then has what its
//! slot has, and after a release what it saw (`Calls`, in `specs/Calls.antt`). Who a pass is, and what its view
//! allows, is `hl_pass`'s, on which the branded keeper stands too.
//!
//! [`Log::seal`] makes the steps that seal all up to the tail, those that are due, up to the first that is refused, which
//! is the settle if any is (`Seals`, in `specs/Seals.antt`).
//!
//! A pass that was no stranger is none at its next call, if its slot is still protected. What it saw without
//! the lock is accepted, as a look.
//!
//! A store is judged by what the pass sees, and is one store of one word; so are the load and the two changes
//! in place. Each pass has a rider of the words (`hl_words::RowRider`), which records all this in proofs alone:
//! which cell was stored, loaded or changed, and with what. So does each page, whose words are copied or swept.
//! A new log has 2^62 riders left. A pass or a page that is made takes one; if none is made, none is taken.
//! A look brings the offsets that it loaded, and the next call of the pass enters it into the list. The region
//! of an address is told by what the pass sees and the safe read-only offset that it loads, which it tells too
//! ([`Pass::region`]).
//!
//! The words are a `hl_words::Row`, whose type keeps the rule: all that riders did has one order, in which each
//! load and each change found what the newest store before it left, or 0 before any, and each load of one of the
//! four words found 0 or what a call of the log stored.
//!
//! # What isn't
//!
//! No call closes the words and says the rule of exactly these riders, as a log with a brand does: passes and
//! pages may be dropped, and a log can't tell at run time whether what comes back is of its words. So no clause
//! of one call tells which store a load found. A pass that was released, and a page whose work ended, may still
//! touch words in Rattle; the handles of C are empty then.
#![tactic(auto)]

mod acquire;
mod call;
mod log;
mod open;
mod page_words;
mod pages;
mod pass;
mod region;
mod seal;
mod sealed;
mod shared;
mod step;
mod taken;
mod unlocked;

pub use hl_pass::{News, Region};
pub use log::Log;
pub use pass::Pass;
pub use sealed::Sealed;
pub use shared::Shared;
pub use taken::Taken;
