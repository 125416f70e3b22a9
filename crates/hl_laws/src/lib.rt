//! What holds of every accepted list of steps, and what stands on it.
//!
//! `hl_model` has the definitions. Here is what follows from them, whatever code meets them:
//!
//! - [`laws`]: each law the contract of a function that does nothing, the headline among them;
//! - [`worked`]: worked examples as theorems, which the definitions alone compute;
//! - [`Base`]: the quantities of an accepted list in rows of numbers, so that its steps need not be kept.
//!   That it is one of an accepted list is in its type, which is why it stands here;
//! - `proofs/`: lemmas on the definitions, which the crates above cite.
//!
//! The parts of an allocator (table, drain list, offsets, frames, words, lines) cite no law, and are not
//! checked again if one changes.
#![tactic(auto)]

mod base;
pub mod laws;
pub mod worked;

pub use base::{Base, Quantities};
