//! The whole library in one crate: it re-exports all that a program on many threads needs.
//!
//! A log is FASTER's HybridLog in memory (Chandramouli, Prasaad, Kossmann, Levandoski, Hunter, Barnett, SIGMOD 2018):
//! records of words of 64 bits on pages that many threads share under epoch protection. docs/GUIDE.md begins with a
//! first log.
//!
//! | You want | Take |
//! |---|---|
//! | to open a log, use it and close it | [`with_log`], with an [`Opening`] and a [`Part`] of your own |
//! | the same with threads and a crew, in few words | [`run_threads`], with a [`Config`] and a [`Work`] of your own |
//! | that with an opening and a duty of your own, and with an ending whatever the threads met | [`with_threads`] |
//! | the same with a device in memory that comes back | [`with_memory`], with a [`MemoryDevice`] |
//! | to read a word of it, or all, once it is closed, wherever that lies | [`word_left`], [`words_left`] |
//! | to place, store and load words in a thread | a [`Session`], which a [`Rider`] enters |
//! | to know whether a record may be changed in place, copied, or read from the device | [`Session::region`], which returns a [`Region`] |
//! | to try again what was refused for now, to wait for the others | [`attempt`], [`Session::help`], [`Session::wait`] |
//! | to leave the slot while a thread does something else | [`Session::suspend`], which returns a [`Resting`] |
//! | to place small records without the lock | a [`Lease`], which [`Session::lease`] returns |
//! | pages written and frames freed behind the threads | a [`Crew`], by a [`Duty`], with two page writers, until its [`Stop`] is given |
//! | to know why a call was refused, and what it was handed | [`Fault`], [`Refused`] |
//! | jobs that run once all threads have moved on | a [`Task`], the `Job` of your [`Work`] or [`Part`], which [`Session::bump`] stores |
//! | to see what a log is at, and who holds it up | [`Session::report`], or without a session [`report`](fn@report) |
//! | the log's own calls (raises, shifts, pages by hand) | the methods of [`Log`], which is a [`Domain`] |
//! | the forms for one thread, or under a lock of your own | `hl_cells`, `hl_core`: they aren't re-exported here |
//!
//! A value with the brand `L` (a log, a rider, a pass, a session) doesn't compile with another log.
//! A value without it (a [`Load`], a [`Broom`], a [`Ready`]) is recognised by the log's stamp.
#![tactic(auto)]

mod at_end;
mod config;
mod finished;
pub mod laws;
mod left;
mod log;
mod memory;
mod open;
mod opening;
mod outcome;
mod part;
mod refused;
mod reports;
mod rows;
mod session;
mod shared;
mod signals;
mod sink;
mod threads;
mod told;
mod work;

pub use config::{Config, Number, Refusal};
pub use finished::run_threads;
pub use hl_action::{AnyAnswer, NoJob};
/// The ticket of an action, and the safe epoch under which it is run.
pub use hl_action::Firing;
/// A job that a bump stores, with its tag: `Kept::new(tag, job)`.
pub use hl_action::Kept;
/// What a job's answer is to be: [`AnyAnswer`] asks for nothing.
pub use hl_action::Promise;
/// An action that was run: [`Session::done`] answers it. It must be spent, by that or by `forsake`.
pub use hl_action::Ran;
/// An action that was taken. It must be spent, by `run` or by `forsake`.
pub use hl_action::Ready;
/// What a job is: it is called once, under a [`Firing`].
pub use hl_action::Task;
pub use hl_counts::CountTable;
/// Four riders and two page writers, which serve a log until its [`Stop`] is given.
pub use hl_crew::{
    Crew, CrewBuffers, CrewEnd, CrewReport, CrewRiders, Cuts, Duty, Gate, Limits, OpenGate, Taken,
    run_crew,
};
/// What ends a crew, and wakes it.
pub use hl_crew::Stop;
pub use hl_domain::{ArrayVec, Broom, Domain, Ending, FrameState, Keeper, Load, PageJob, Pass};
/// A slot that holds an action up, with its epoch.
pub use hl_domain::Holder;
/// What is left of a piece of words: `take(n)` returns a record's address, without the lock.
pub use hl_domain::Lease;
/// Where an address lies: [`Session::region`] tells.
pub use hl_domain::Region;
pub use hl_drain::{Action, Drain};
/// What a bump stores: `Ask::Settle`, `Ask::Close`, or `Ask::User(Kept::new(tag, job))`.
pub use hl_drain::Ask;
pub use hl_epoch::{Epochs, ScanTable};
pub use hl_image::{HexWriter, MemoryWriter, PageWriter};
pub use hl_laws::Base;
/// The cell in which the word of an address lies; the page that it is on.
pub use hl_model::{HasSizes, Params, RawSizes, Sizes, Step, cell_of, page_of};
/// Why a call was refused, by its number.
pub use hl_model::Fault;
/// What a done answers: a job's tag, or the offset that was moved.
pub use hl_model::Reply;
/// The six offsets.
pub use hl_model::Six;
/// All quantities of a log at once.
pub use hl_model::Snapshot;
/// The read-only offset, the head and the tail that a session saw.
pub use hl_model::View;
pub use hl_words::{OffsetWords, Realm, RiderView, Seed, Touch, Words};
/// What the words of a closed log hold, by their cells ([`cell_of`]).
pub use hl_words::LastWords;
/// What a session did up to a moment, to be told to another.
pub use hl_words::Past;
/// A thread's right to act.
pub use hl_words::Rider;
pub use left::{word_left, words_left};
pub use log::Log;
pub use memory::{MemoryDevice, Written, with_memory};
pub use open::{Closed, with_log};
pub use opening::Opening;
pub use outcome::Finished;
pub use part::Part;
pub use refused::Refused;
pub use reports::report;
pub use session::{Away, Curable, Cure, Helped, Helping, Napped, Resting, Session, attempt};
pub use shared::{Outs, Returned};
pub use threads::with_threads;
pub use work::Work;
