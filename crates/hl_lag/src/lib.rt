//! The lag: how far a log's read-only offset and head are kept behind its tail.
//!
//! After the HybridLog of FASTER (Chandramouli, Prasaad, Kossmann, Levandoski, Hunter, Barnett, SIGMOD 2018):
//! the tail of the log may be written in place, what lies behind it is only read, and what lies behind that
//! is on the device alone. [`lag_steps`] tells a flusher's next steps, for whoever wants about `mutable`
//! pages at the tail to be written and about `resident` to be read. The offsets are computed by whole pages,
//! the last one counted whole:
//!
//! ```text
//! 0         head                 read-only            tail
//! |----------|----------------------|------------------|
//!  on the     only read              may be written
//!  device     <------- resident pages ---------------->
//!  alone                            <- mutable pages ->
//! ```
//!
//! The head goes no further than pages were flushed, and no offset falls. A raise and a shift take effect for
//! whoever sees them; once the settle and the close behind them are taken and done, each protected slot has.
//!
//! It is one call over numbers: it makes no step, keeps nothing and takes no memory, since it returns a short
//! row on the stack. The flusher of a crew makes the steps; so may whoever has an engine, a core, or the C
//! door.
#![tactic(auto)]

mod lag;

pub use hl_model::{Params, Six, Sizes, Step};
pub use lag::lag_steps;
