//! Stored jobs that run once: an action of the drain list becomes its maker's code, run later by another
//! (FASTER's actions, stored by a bump of the epoch).
//!
//! A job is code that is called on a `Firing`: the ticket of its action, and the safe epoch when that action
//! was taken. Stored under a tag it is a `Kept`, whose type says that it can be called on every firing, and
//! that whatever it returns keeps a `Promise` for its tag. So whoever runs it need know nothing else of it.
//!
//! An action that was taken is a `Ready`: `run` consumes it, calls its job, if it has one, and returns a
//! `Ran` with what the job returned, which waits for the action to be done. Jobs that no action has yet stand
//! on a `Shelf`.
//!
//! What the types alone forbid: that a job runs twice, since `run` takes it and nothing copies it; that it
//! runs under a firing whose ticket is above that firing's safe epoch, since no such `Firing` can be made;
//! and that a taken action is dropped by oversight, since a `Ready` and a `Ran` must be spent.
#![tactic(auto)]

mod firing;
mod kept;
mod no_job;
mod promise;
mod ran;
mod ready;
mod shelf;
mod task;

pub use firing::Firing;
pub use kept::Kept;
pub use no_job::{AnyAnswer, NoJob};
pub use promise::Promise;
pub use ran::{Outcome, Ran};
pub use ready::Ready;
pub use shelf::Shelf;
pub use task::{Call, Task};
