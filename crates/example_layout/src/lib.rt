//! How records of bytes lie in the words of a log, and how they are read back out of these, or out of a file of its pages.
//!
//! A record is a header, the number of its bytes doubled, and one more if it is dead; then its bytes, eight to a word, the most
//! significant first; then a byte 1, and zeros up to the end of the word. So neither its first word nor its last is 0.
//!
//! | Module | What it has |
//! |---|---|
//! | `row` | the words of one record |
//! | `records` | the records of a log's words, one after another |
//! | `device` | the records of a file of pages |
//! | `laws` | what follows for whoever reads words in another way |
//! | `bad` | why words or pages aren't as they should be |
#![tactic(auto)]

mod bad;
mod device;
mod entry;
pub mod laws;
mod records;
mod row;

pub use bad::{Bad, BadPage, Trouble, Unreadable};
pub use device::read_pages;
pub use entry::Entry;
pub use records::{Records, bytes_in};
pub use row::words_of;
