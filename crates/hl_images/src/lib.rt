//! What the copy of a flushed page holds: an image of the page, which misses no store that was entered before
//! the page was taken, and has nothing of what was stored once it was flushed.
//!
//! A page's words are loaded without a lock, one after another, while other threads store. That they are the
//! page's all the same follows at the domain's end, where all that riders did has one order: each word was
//! found where the newest store before its load left it, and the load stands between the call that took the
//! page and the one that answered it as flushed. `IsImaged` in `specs/Images.antt` says so.
//!
//! Two ways to flush a page:
//!
//! - **one rider** takes it, copies it and answers it ([`copy_next`], [`answer_copy`]; [`flush_next`] does
//!   both): then its own calls stand round its copy. What is known of it is `HasFlushed`, of this rider
//!   alone, and stays whatever the rider does more, so that a type can keep it;
//! - **two riders**: one takes the page ([`take_for_copier`]) and answers it ([`answer_for_copier`]), the
//!   other copies it between ([`copy_for_flusher`]), and each is told the other's past. What is known is
//!   `HaveFlushed`, of the two.
//!
//! What the words are: each store of a rider is a write that its calls entered, one that still waits in its
//! pass, or a 0 of its sweep of a page (`StoresEnter`), which each call of a domain keeps
//! (`riders_stay_entered`, `passes_stay_entered`). By that a log is one memory by address, of which
//! `hl_memory` tells, and what each word of an image is. All are in [`laws`].
#![tactic(auto)]

mod copying;
pub mod laws;
mod pair;

pub use copying::{answer_copy, copy_next, flush_next};
pub use pair::{answer_for_copier, copy_for_flusher, take_for_copier};
