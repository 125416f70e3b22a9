//! The report: what an allocator is at, as a table for people and for programs that read columns.
//!
//! It has eighteen lines, each of 36 bytes and an LF, 666 bytes in all: a label left in 16 places, then a number
//! in decimal right in 20.
//!
//! | Labels | Numbers |
//! |---|---|
//! | `epoch`, `safe` | the current and the safe epoch |
//! | `protected` | slots that are protected |
//! | `pending`, `taken` | actions that wait, and those taken and not done |
//! | `closed_at`, `head`, `flushed_to`, `safe_read_only`, `read_only`, `tail` | the six offsets, addresses |
//! | `open`, `sealed`, `flushed`, `closed`, `free` | frames by what they are at |
//! | `steps`, `cut` | steps since the last cut, and steps cut, as the caller counts them |
//!
//! [`report`] writes it, and [`put_lines`] more lines of the kind. The report's text is `report_text` of
//! `specs/Reports.antt`, a function of the numbers alone; `worked` has two reports computed by it.
//!
//! | Module | What it does |
//! |---|---|
//! | `lines` | the labels with their numbers, and each as a line |
//! | `worked` | worked examples, as theorems |
#![tactic(auto)]

mod lines;
pub mod worked;

pub use lines::{put_lines, report};
