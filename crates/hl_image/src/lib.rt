//! Page images, and what writes them: the way of a page from the frames to a device.
//!
//! # The image of a page
//!
//! An image names its page and holds its words: the page's number as 8 bytes, then each word as 8 bytes, most
//! significant byte first. A page of P words has an image of 8 + 8P bytes. [`image_of`] makes it, in a buffer
//! that the caller keeps, so that a flush takes no memory.
//!
//! # Page writers
//!
//! In FASTER (Chandramouli, Prasaad, Kossmann, Levandoski, Hunter, Barnett, SIGMOD 2018) a page that is
//! read-only for every thread is written to the log's device, and its frame is kept until the write has
//! ended. A [`PageWriter`] stands for that device. It is handed a page's number and its bytes, and returns
//! that it wrote them, or the fault `Device`.
//!
//! Each writer says what a write did to it by a relation of its own, `wrote`, and what a failed one did by
//! another, `failed`. All writers count the writes that failed. A writer returns `Device` only if it counted
//! one failure in that call, so a caller that reads `failures` before and after can tell; the count stays at
//! its last value, 2^62. Nothing is tried again: whether a page is to be written anew is the caller's to say.
//!
//! # Two writers
//!
//! [`MemoryWriter`] keeps a row of bytes for each page, made at opening. It can be told to fail at one of its
//! writes, for whoever tests what a failing device leads to. A contract sees it as a list of images by page,
//! each there or not, and four numbers (`Pages`); each call is an equation on these.
//!
//! [`HexWriter`] writes each page as a line of text to any `std::io::Write`. A contract sees the writer below
//! and the failures (`Counted`). If that writer tells its bytes, an accepted write appends the whole line,
//! and a failed one a beginning of it that isn't the whole.
//!
//! Why the writer below refused is nothing that a contract of `std::io::Write` tells. So it is only tested
//! that a `HexWriter` fails no write which that writer would take, also after a failure, and that nothing is
//! tried again.
#![tactic(auto)]

mod hex;
mod image;
mod memory;
mod writer;

pub use hex::HexWriter;
pub use image::image_of;
pub use memory::MemoryWriter;
pub use writer::{PageWriter, with_one_more};
