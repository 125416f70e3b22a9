//! The slow form of the epoch framework and the page allocator: an allocator that keeps a base and the list
//! of steps accepted since, and computes each answer from these as hl_model's definitions say.
//!
//! It is what every fast form is compared with: whatever answers the same steps otherwise than [`Plain`] is
//! wrong. A reader who wants to know what some step is answered, and why, can follow it here with a finger.
//!
//! # What it keeps
//!
//! A base of its own, and the steps accepted since, oldest first. [`Plain::open`] takes the base of no steps,
//! and then these are all steps; [`Plain::from_base`] takes whatever base it is given, and the steps that led
//! there need not be kept.
//!
//! Beside them is a second base, the near one (`near`): that after all of these steps but the last. Fewer
//! than 384 lie behind it, and fewer than 16 once as many were accepted as there are slots, frames and places
//! for actions together. With it are marks of pages: which the steps behind it took to flush or clean, and
//! which they brought back. They say what these steps say, so that a page that is out needn't be found anew.
//!
//! A base holds no words, so an allocator that goes on from one answers a read with `Readable`. One that was
//! opened answers it with the word.
//!
//! It takes narrow sizes only, those that a script may ask for: `Params`, or a base of such sizes. So its
//! rows of actions lie on the stack.
//!
//! # How it answers
//!
//! The base after some steps, and then after more, is the base after all of them. So each answer is computed
//! from the near base and the steps behind it, and is that from the first base and all steps: this is proved
//! by the law of hl_laws that a list may be cut anywhere.
//!
//! Each quantity is looked up in the steps by a function of its own, in a file for its subject: a count
//! (`epochs`), the last step of a kind (`epochs`, `views`, `words`), the greatest address (`offsets`,
//! `settled`), the first so many of what was stored (`actions`), the longest run (`flushed`). If a step
//! before the base would be looked for, the base tells it. No quantity is renewed from step to step: when too
//! many steps lie behind the near base, the quantities after them are computed once (`gathered`), as the next
//! one.
//!
//! `present` has them all by name, as the base after the steps. `faults` and `replies` say by it alone what a
//! step meets and what it is answered.
//!
//! # What it costs
//!
//! To find a quantity, a step looks at the steps behind the near base: at most 384, and at most 16 if as many
//! were accepted before it as there are slots, frames and places for actions together. It may do so for each
//! slot, if the safe epoch is wanted, and for each page below the tail, if the next page to take is looked
//! for. The run of flushed pages is looked for from the near base's flushed offset on: the pages below are
//! flushed there. Only the word of a read is looked for in all steps.
//!
//! The next near base is computed by looking at these steps for each slot and each frame. Spread over these
//! steps, that is a pass over the slots, frames and actions for each: in order of time a look through all
//! steps, once there are as many of them. With fewer it is cheaper to look through all, so the first near
//! base stays until then. The step that leaves it takes more than all before it together, if these were
//! cheap. From then on each sixteenth step computes the next one.
//!
//! # Memory
//!
//! [`Plain::open`] and [`Plain::from_base`] take room for three bases (the third is where the next near one
//! is put), for the marks of 384 steps, and for as many steps as there are frames, F; a step behind the first
//! F may take memory for itself, and is refused as `OutOfMemory` if there is none. No query takes memory.
#![tactic(auto)]

mod actions;
mod epochs;
mod faults;
mod flushed;
mod frames;
mod gathered;
mod lists;
mod near;
mod offsets;
mod pages;
mod plain;
mod present;
mod replies;
mod safe;
mod settled;
mod snapshots;
mod turns;
mod views;
mod words;

pub use plain::Plain;
