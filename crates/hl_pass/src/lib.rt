//! What a pass is, without words, journal or brand: the base of a log's passes, in Rattle and in C.
//!
//! A pass is the right to act for a slot. [`PassView`] is what it keeps of the slot: which slot it is, the
//! stamp that its acquire gave it, its epoch, the view that the slot had at the last locked call, and what
//! the pass has seen since. [`Stamps`] lies beside the core of a log: who a pass is, and which stamp the next
//! acquire gives.
//!
//! # What is promised
//!
//! At whatever list of accepted steps the core stands, [`Stamps::known`] refuses a pass that isn't the one to
//! which its slot belongs, and tells the slot's stamp: the slot has another stamp, or another view than the
//! pass held. A pass that was known when a call began, and then rested in the view of its slot, is known at
//! the next, if its slot is still protected.
//!
//! [`catch_up`] brings a core what a pass saw without the lock, as one look of its slot. That is never
//! refused to a pass that is known, since it saw nothing below what its slot did.
//!
//! Without the lock a pass is judged by its own view: [`may_store`], [`may_load`], and whether anything that
//! it loaded is new to it, [`is_current`]. A [`Region`] is what an address is to a pass.
//!
//! What a log stores for its passes, its offsets and the last epoch that ended, its list tells: `stores_of` in
//! `specs/Stores.antt`.
#![tactic(auto)]

mod judge;
mod laws;
mod look;
mod news;
mod pass_view;
mod region;
mod stamps;

pub use judge::{is_current, may_load, may_store, raised, rises};
pub use laws::{catches_up, stays_known};
pub use look::catch_up;
pub use news::News;
pub use pass_view::PassView;
pub use region::Region;
pub use stamps::Stamps;
