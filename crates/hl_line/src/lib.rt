//! The lines of a script and of its answers: how each is read, and how it is printed.
//!
//! A script is cut into lines at each LF. [`read_line`] tells which line some bytes spell, without their LF,
//! and [`print_line`] spells a line. Each line has one spelling, of at most 80 bytes:
//!
//! | Line | Meaning |
//! |---|---|
//! | `config P F S D` | opens with these narrow sizes: words a page, frames, thread slots, places of the drain list |
//! | `acquire t` | the thread of slot t becomes protected |
//! | `refresh t` | it moves on to the current epoch |
//! | `release t` | it is protected no longer |
//! | `bump tag` | ends the current epoch, and stores the job of this tag |
//! | `settle` | ends the current epoch, and stores the action that raises the safe read-only offset |
//! | `close` | ends the current epoch, and stores the action that raises the closed offset |
//! | `bare` | ends the current epoch, and stores nothing |
//! | `take` | takes the oldest pending action |
//! | `done c` | the taken action of ticket c was carried out |
//! | `raise x` | the read-only offset moves up to address x |
//! | `shift x` | the head moves up to address x |
//! | `alloc t n` | the thread of slot t allocates a record of n words |
//! | `look t r h` | the thread of slot t sees the read-only offset r and the head h |
//! | `write t a v` | the thread of slot t writes v to the word at address a |
//! | `read t a` | the thread of slot t reads the word at address a |
//! | `flush take` | takes the next page to flush |
//! | `flush done p ok` | the flush of page p ended well |
//! | `flush done p failed` | the flush of page p ended, but not well |
//! | `clean take` | takes the next page to clean |
//! | `clean done p` | the frame of page p was cleaned |
//! | `status` | asks for the quantities |
//! | `pending` | asks for the pending actions |
//! | `frames` | asks for the state of each frame |
//!
//! One space stands between two words, and none at either end. A number is decimal ASCII: `0`, or a digit 1
//! to 9 and digits, at most 18446744073709551615. Anything else is no line.
//!
//! [`read_front`] reads the lines that scripts have most of faster, from the front of what follows.
//!
//! [`print_reply`] and [`print_fault`] return the line that answers an accepted step and a refused one, and
//! an [`AnswerLine`] is made anew for each, with its LF. [`put`] writes all of some bytes to a
//! `std::io::Write`.
#![tactic(auto)]

mod answer;
mod fault;
pub mod laws;
mod line;
mod print;
mod read;
mod steps;
mod stream;
mod text;
mod usual;
mod word;

pub use answer::{AnswerLine, print_fault, print_reply};
pub use line::Line;
pub use print::print_line;
pub use read::read_line;
pub use stream::put;
pub use usual::read_front;
