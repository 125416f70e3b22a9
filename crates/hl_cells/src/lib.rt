//! An engine: a core with the words of its frames and the jobs of its actions.
//!
//! After FASTER (Chandramouli, Prasaad, Kossmann, Levandoski, Hunter, Barnett, SIGMOD 2018): the in-memory
//! page frames of its HybridLog. A core knows addresses only; an engine keeps the words, F frames of P words,
//! and runs the jobs that bumps stored.
//!
//! # One step
//!
//! Each kind of step has a call of its own, which returns a type of its own, as a core's does:
//! [`Engine::allocate`] returns an address, [`Engine::read`] a word, [`Engine::done`] what the job returned.
//! If steps are plain values, [`Engine::step`] makes any but a bump, and returns a reply.
//!
//! # Words
//!
//! Words are known by addresses, and kept by frames: page p lies in frame p mod F, so frames go round. A
//! frame shows its last entered page, and zeros if it is free. A write sets the one cell of its address; a
//! clean done zeroes one frame; no other step changes a cell. So a page that is entered has only zeros,
//! whatever was in its frame.
//!
//! # Jobs
//!
//! A job goes in by [`Engine::bump`], and lies under the ticket that the bump returns: `job_under` in
//! `specs/Jobs.antt`. A take holds it with its firing, its ticket and the safe epoch of then; the done of its
//! ticket runs it, and returns what it returned, which keeps the promise P for its tag. Until then it stays
//! under its ticket, whatever steps are made: of two jobs with one tag each runs under its own.
//!
//! # Standing at a list
//!
//! An engine stands at a list of accepted steps if its core does, each cell holds the word of its address in
//! the page that its frame shows, and the held actions are those taken and not done, with their firings:
//! `EngineStands` in `specs/Engines.antt`. Each engine stands at some list: that is in its type. Each call
//! says: at whatever list the engine stood, the reply is the definitions' after that list, and the engine
//! then stands at the list with the step, if it was accepted.
//!
//! No call after [`Engine::open`] is refused memory. The words, and the rows of the core, have exactly the
//! room that opening made, and the row of taken actions has room for all that there can be: that is in the
//! types. What a job does when its done runs it, with memory or without, is the job's own.
#![tactic(auto)]

mod actions;
mod cells;
mod engine;
mod log;
mod pages;
mod queries;
mod slots;
mod step;
mod taken;
mod undone;
mod words;

pub use engine::Engine;
pub use hl_action::{AnyAnswer, Call, Firing, Kept, NoJob, Promise, Task};
pub use hl_drain::{Action, Drain};
pub use hl_epoch::{Epochs, ScanTable};
pub use hl_model::{
    Fault, FrameState, HasSizes, Kind, Params, RawSizes, Reply, Six, Sizes, Slot, Snapshot, Step,
    Tagged, View, Waiting,
};
