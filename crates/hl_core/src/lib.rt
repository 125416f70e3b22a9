//! The core of the allocator: a state machine over steps, which keeps quantities and never the steps.
//!
//! After FASTER (Chandramouli, Prasaad, Kossmann, Levandoski, Hunter, Barnett, SIGMOD 2018): its epoch
//! protection framework and the page allocator of its HybridLog. Threads are known by slots, words by
//! addresses; a core has neither threads nor words. It is `Send` if its table and its jobs are, so it may lie
//! under a lock of the caller's: `one_lock` of example_uses has one under a `Mutex`, with two threads.
//!
//! # What it is made of
//!
//! | Part | What it knows |
//! |---|---|
//! | a table of epochs | the current epoch, and each slot's, if it is protected |
//! | a row of views | what each protected slot saw of the offsets |
//! | a drain list | the actions that wait, and those taken and not done |
//! | offsets | five of the six, under their order |
//! | frames | which pages are entered, in flight, flushed, being cleaned, freed; so the sixth offset |
//!
//! # One step
//!
//! Each kind of step has a call of its own, which returns a type of its own: [`Core::acquire`] returns what
//! the slot has, [`Core::allocate`] an address, [`Core::flush_take`] a page. The faults are tried in their
//! order, and a refused step leaves all as it was. A job goes in by [`Core::bump`] and comes out by
//! [`Core::take`]. A write and a read change nothing of a core: [`Core::may_write`] and [`Core::may_read`]
//! tell whether they are lawful.
//!
//! [`Core::holders`] tells which slots hold the oldest action up, [`Core::least_free`] the least slot that an
//! acquire would get, [`Core::frame`] what a frame is at.
//!
//! If steps are plain values, [`Core::act`] makes each but a bump with an action and a take, and returns a
//! reply. Over bare tags [`Core::step`] makes every step, and [`Core::run`] a row of them. [`Core::check`]
//! tells the fault that a step would meet.
//!
//! # A core's base
//!
//! [`Core::base_into`] writes the quantities into a [`Base`](hl_laws::Base): what is left of a list of steps
//! when it is cut, without jobs. What a slot saw, a ticket that waits or is taken, a page's marks: each has
//! its row there, and the base is the one that hl_model defines for the list at which the core stands. So
//! later steps may be judged from the base, and the steps up to it need not be kept. The base keeps rows of
//! its own: slots and waiting actions are asked for one by one, and the rows of taken actions and of frames
//! are lent to it and copied.
//!
//! # Standing at a list
//!
//! A core stands at a list of accepted steps if its quantities are those that hl_model defines for the list:
//! `Stands` in `specs/Standing.antt`. Each core stands at some list: that is in its type. Each call says: at
//! whatever list the core stood, the reply is the definitions' reply after that list, and the core then
//! stands at the list with the step, if it was accepted. It holds over every table that meets `Epochs`.
//!
//! No call after [`Core::open`] is refused memory. That the row of views has a place for each slot, and no
//! more, is in the type too, as the rows of its parts are in theirs; that no call makes a row for its own
//! time is seen in the code.
#![tactic(auto)]

mod act;
mod actions;
mod base;
mod check;
mod holders;
mod log;
mod pages;
mod queries;
mod rise;
mod run;
mod slots;
mod state;
mod views;

pub use hl_action::Firing;
pub use hl_drain::{Action, Ask, Drain};
pub use hl_epoch::{Epochs, ScanTable};
pub use hl_laws::Base;
pub use hl_model::{
    Fault, FrameState, HasSizes, Kind, Params, RawSizes, Reply, Six, Sizes, Slot, Snapshot, Step,
    Tag, Tagged, View, Waiting,
};
pub use holders::Holder;
pub use state::Core;
