//! The door for threads, for C and C++: a log behind one handle, and a pass behind a handle for each thread.
//!
//! `include/hl_log.h` declares the calls, with what each returns. A handle is two words that C keeps and
//! never reads. All bytes zero means that nothing is there.
//!
//! # What is promised
//!
//! Under the caller's lock: at whatever list of accepted steps the log stood, a step returns the definitions'
//! reply after that list, as numbers, and the log then stands at the list with the step, if it was accepted
//! (`Answers`, in `specs/Logs.antt`). A pass's step returns 26 with the slot's stamp, if the slot isn't the
//! pass's, and changes nothing; else what the definitions reply behind the list and the pass's look, and the
//! pass has what its slot has then (`CallsBy`, in `specs/Passes.antt`). A seal makes the steps that are due, each behind
//! those before it, up to the first that is refused (`SealsBy`, in `specs/Seals.antt`). An acquire and a take of a page
//! return the definitions' fault if there is one, and 29 only if there is none: memory was refused, and at most a rider
//! is gone (`Refuses`, in `specs/Logs.antt`).
//!
//! Without it: a store, a load and a change are judged by what the pass sees, and are one access of the word
//! of the address, which the pass's rider records (`Does`, in `specs/Words.antt`); a row of words is loaded one
//! after another (`LoadsRow`). The region of an address is told by what the pass sees and by the safe read-only
//! offset that it loaded, which it tells too (`TellsRegion`). The words' type keeps the rule of `hl_words`: each
//! load finds what the newest store before it left, or 0 before any, in one order of all that passes and pages did.
//!
//! # Threads
//!
//! Each handle may go to another thread (`Send` is proved of what lies behind it), and one call at a time may
//! use it. Calls on the log's handle are made under a lock of the caller's; a pass's handle is its thread's,
//! as a page's is. The calls on these alone run at the same time as all others. No call waits.
//!
//! # How a call goes
//!
//! As in the door of a core: it takes the boxes out of their handles, makes the call, and puts them back.
//! `LogHandle::step` makes the steps that are no slot's, no page's and not the take; `by_pass` those of a pass
//! but for its refresh, which returns what the slot itself has.
#![tactic(auto)]

mod acquire;
mod by_pass;
mod holders;
mod log_handle;
mod log_slot;
mod open;
mod page_handle;
mod page_slot;
mod page_words;
mod pages;
mod pass_handle;
mod pass_slot;
mod queries;
mod refresh;
mod seal;
mod step;
mod steps;
mod threads;
mod words;

pub use acquire::{hl_log_acquire, hl_pass_abandon};
pub use by_pass::{hl_log_allocate, hl_log_release};
pub use hl_answers::{Brief, LagOutcome, LagStep, Outcome, SixOutcome, SnapshotOutcome};
pub use log_handle::LogHandle;
pub use log_slot::LogSlot;
pub use open::{hl_log_free, hl_log_open, hl_log_open_wide};
pub use page_handle::PageHandle;
pub use page_slot::PageSlot;
pub use page_words::{hl_log_copy_page, hl_log_sweep, hl_page_abandon};
pub use pages::{hl_log_clean_done, hl_log_clean_take, hl_log_flush_done, hl_log_flush_take};
pub use pass_handle::PassHandle;
pub use pass_slot::PassSlot;
pub use queries::{hl_log_holders, hl_log_lag, hl_log_six, hl_log_snapshot};
pub use refresh::hl_log_refresh;
pub use seal::hl_log_seal;
pub use steps::{
    hl_log_bare, hl_log_bump, hl_log_close, hl_log_done, hl_log_raise, hl_log_settle, hl_log_shift,
    hl_log_take,
};
pub use threads::{sent_log, sent_page, sent_pass};
pub use words::{
    hl_pass_compare_exchange, hl_pass_fetch_add, hl_pass_keeps_up, hl_pass_load, hl_pass_load_into,
    hl_pass_look, hl_pass_region, hl_pass_store,
};
