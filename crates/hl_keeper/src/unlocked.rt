//! The calls on a keeper's `Words` that take no lock: what a `Domain` does without its lock, for a
//! `Keeper` under a lock of your own.
//!
//! A pass looks at the offsets, stores a word, loads one, changes one in place, and asks for a
//! region; a rider copies a page that is to be flushed, and sweeps one that is to be cleaned. All
//! but `keeps_up`, `look` and `region` need the sizes that the words were opened with, which
//! `Keeper::params` returns; the two that name a page also need the keeper's stamp.
//!
//! | Call | What it does | Its faults |
//! |---|---|---|
//! | [`keeps_up`] | loads the master's words: whether any is new to the pass | none |
//! | [`look`] | brings the pass the offsets that rose | `TouchesFull` |
//! | [`store`] | stores a word in the pass's view | `Below`, `Beyond`, `TouchesFull` |
//! | [`fetch_add`] | adds to a word in one step | `Below`, `Beyond`, `TouchesFull` |
//! | [`compare_exchange`] | stores a word where another stands, in one step | `Below`, `Beyond`, `TouchesFull` |
//! | [`load`] | loads a word in the pass's view | `Evicted`, `Beyond` |
//! | [`region`] | tells in which region of the log an address is | `Beyond` |
//! | [`copy_page`] | loads all cells of a page | `Stranger` |
//! | [`sweep`] | stores 0 into all cells of a page | `Stranger` |

pub use crate::exchange::{compare_exchange, fetch_add};
pub use crate::look::{load, look, region, store};
pub use crate::news::keeps_up;
pub use crate::sweep::{copy_page, sweep};
