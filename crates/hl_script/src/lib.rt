//! A script of steps in, its text out.
//!
//! A script is a list of bytes, cut into lines at each LF. Its first line is a config, which gives the sizes,
//! and these are narrow: a line of an answer has room for no more actions or frames. Each later line is a
//! step or a query. Each line is answered by one line. At the first line that is none of these the text ends
//! with a line that tells its number. So the text is a function of the script's bytes and of the tags that
//! have a job: `text` of `specs/Text.antt`, by the definitions of hl_model. It is read in this order: how a
//! script is cut (`Cut`), which lines are good (`Lines`), what each is answered (`Answers`), the text
//! (`Text`).
//!
//! [`run_text`] writes the text over an engine. It is handed the jobs on a shelf, one for a tag. An accepted
//! bump takes the job of its tag from the shelf, so a second bump of that tag is refused with `NoJob`, and a
//! refused bump leaves its job there. The engine runs it at the done of its ticket, once, and the line shows
//! what it answered. Whatever code a job is, its type promises [`Sum`]: it answers its tag + its ticket. That
//! is why the text is a function of the tags, and not of the jobs.
//!
//! [`slow_text`] writes the same text in the slow form, which keeps the list of accepted steps: it computes
//! each answer from a base after all but the last of them and from those behind it. It has no jobs: the tags
//! below a number count as having one.
//!
//! [`run_text_within`] and [`slow_text_within`] do so in at most so many reads as their caller allows, the
//! others in 2^32.
//!
//! # The parts
//!
//! | Module | What it does |
//! |---|---|
//! | `script` | reads the config, opens, and has each later line answered; stops at a bad line, at the end, at a fault |
//! | `input` | finds one line after another, and counts the reads, which end a run that would go on |
//! | `stepping` | the traits of what makes steps and answers queries, and of what opens it |
//! | `fast` | one that does so: an engine and a shelf; it takes memory at the config alone |
//! | `slow` | the other: the list of accepted steps; it may be refused memory at each step |
//! | `lines` | the answer to a line: that to a step, and those to queries |
//! | `sum` | the promise of the jobs |
//! | `answers` | the texts of answers |
//! | `answering` | an engine and a shelf that answer lines, for who reads them otherwise |
//! | `laws` | what a caller can tell after `Stream` |
//!
//! A line is judged when its LF was read, when the input ended, or at its 81st byte; until then it isn't
//! answered. Nothing is tried again after a fault of a stream, an interruption among them.
#![tactic(auto)]

mod answering;
mod answers;
mod fast;
mod input;
pub mod laws;
mod lines;
mod run;
mod script;
mod slow;
mod stepping;
mod sum;

pub use answering::Answering;
pub use answers::print_bad_line;
pub use hl_action::{Call, Firing, Kept, Promise, Shelf, Task};
pub use hl_cells::Engine;
pub use hl_epoch::{Epochs, ScanTable};
pub use hl_line::{Line, print_fault, print_line, print_reply, read_line};
pub use hl_model::{Fault, Params, Reply, Step};
pub use run::{Finished, run_text, run_text_within, slow_text, slow_text_within};
pub use sum::Sum;
