//! What calls return to C, and how a box crosses to it: shared by the libraries whose calls C makes.
//!
//! [`outcome::Outcome`] is a step's reply as numbers, [`outcome::Brief`] the first of them; the offsets, all
//! quantities and a lag have structs of their own. Each is laid out as C lays out the struct of the same
//! fields in `include/hl.h`. The clauses say of each which numbers it has (`specs/Outcomes.antt`,
//! `specs/Lags.antt`).
//!
//! [`loose::Loose`] is a box as its pointer: a C signature may name no box.
#![tactic(auto)]

pub mod lag;
pub mod loose;
pub mod outcome;
pub mod quantities;

pub use lag::{LagOutcome, LagStep};
pub use loose::Loose;
pub use outcome::{Brief, NO_CORE, OUT_OF_RANGE, Outcome};
pub use quantities::{SixOutcome, SnapshotOutcome};
