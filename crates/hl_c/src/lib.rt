//! The door for C and C++: the core behind an opaque handle, a call for each step and each query.
//!
//! `include/hl.h` declares the calls, with what each returns. A handle is two words that C keeps and never
//! reads. All bytes zero means that no core is open; [`open::hl_open`] opens one of narrow sizes,
//! [`open::hl_open_wide`] one of wide sizes, [`open::hl_free`] gives it back.
//!
//! # What is promised
//!
//! At whatever list of accepted steps the core stood, a step returns the definitions' reply after that list,
//! as numbers (`told_of`, of the library of answers), and the core then stands at the list with the step, if
//! it was accepted (`Answers`, in `specs/Doors.antt`). The queries tell what the list has. A call on a handle
//! at which no core is open returns 255 and changes nothing.
//!
//! C never changes a handle's words: that live is 1 exactly if a core lies in the slot is in the handle's
//! type.
//!
//! # Threads
//!
//! A core may go to another thread (`Send` is proved), and one call at a time may use it: the caller keeps it
//! under a lock of its own. No call waits. Only the two that open may be refused memory: the core's rows stay
//! as they made them, by the core's type.
//!
//! # How a call goes
//!
//! A C signature may name no box, so the slot keeps its core's block as a pointer to bytes, and its proofs by
//! hand say which core lies there. A call takes the core's box out of its handle, makes the step on the box
//! or asks it, and puts it back. `Handle::step` is the one way for each step but the take, whose job no reply
//! tells: an export hands it the core's own call of its step.
#![tactic(auto)]

mod bumps;
mod door;
mod handle;
mod log;
mod open;
mod pages;
mod queries;
mod slot;
mod slots;
mod step;
mod threads;

pub use bumps::{hl_bare, hl_bump, hl_close, hl_done, hl_settle, hl_take};
pub use door::Door;
pub use handle::Handle;
pub use hl_answers::{Brief, LagOutcome, LagStep, Outcome, SixOutcome, SnapshotOutcome};
pub use log::{hl_allocate, hl_look, hl_raise, hl_read, hl_shift, hl_write};
pub use open::{hl_free, hl_open, hl_open_wide};
pub use pages::{hl_clean_done, hl_clean_take, hl_flush_done, hl_flush_take};
pub use queries::{hl_frame, hl_lag, hl_pending, hl_six, hl_snapshot, hl_view};
pub use slot::Slot;
pub use slots::{hl_acquire, hl_refresh, hl_release};
pub use threads::sent;
