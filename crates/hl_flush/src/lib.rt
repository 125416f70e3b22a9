//! The flusher's part of the log: which pages leave memory, and the way of one page to the device.
//!
//! After the HybridLog of FASTER (Chandramouli, Prasaad, Kossmann, Levandoski, Hunter, Barnett, SIGMOD 2018):
//! the tail of the log may be written in place, what lies behind it is only read, and what lies behind that
//! is on the device alone. Two calls, and no thread: whoever makes the steps decides when. [`lag_steps`], of
//! `hl_lag`, tells a flusher's next steps from the six offsets; [`flush_one`] flushes one page.
//!
//! # One page
//!
//! [`flush_one`] takes the least sealed page that is neither flushed nor in flight, makes its image from the
//! engine's words, hands it to a writer and ends the flush. If the write fails, the page is given back: the
//! next flush takes it again. Nothing is tried again by the call itself.
//!
//! Its contract speaks of the steps that the engine stands at, and of the writer's own relations: with which
//! words the page was written is a matter of the definitions (`Flushes` in `specs/Flush.antt`). What a device
//! keeps is the writer's to say.
//!
//! Which pages wait to be flushed is a matter of the definitions too (`unflushed` in `specs/Unflushed.antt`). No
//! more of them wait than there are frames, and a flush takes the first and leaves the others.
//!
//! It is handed no allocator, and is refused no memory: the image is made in the caller's buffer. What a
//! writer takes is its own.
#![tactic(auto)]

mod flush;

pub use flush::flush_one;
pub use hl_action::{Promise, Task};
pub use hl_cells::Engine;
pub use hl_epoch::Epochs;
pub use hl_image::PageWriter;
pub use hl_lag::lag_steps;
pub use hl_model::{Fault, Params, Six, Sizes, Step};
