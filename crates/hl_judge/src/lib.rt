//! A judge of traces: whether the replies that some engine gave to a script's lines are those of the
//! definitions.
//!
//! A trace is a list of bytes, cut into lines at each LF. Each of its lines is a script's line, ` -> ` and a
//! reply. What a judge says of it is a function of its bytes and of the tags that have a job: `judged` of
//! `specs/Traces.antt`, by the replies of hl_script's definitions.
//!
//! [`judge`] says so by an engine of its own, line by line, and keeps no more of a trace than one line.
//!
//! | Module | What it does |
//! |---|---|
//! | `run` | has a machine answer each line, and compares its answer with the reply |
//! | `parts` | a line of a trace, parted into a script's line and a reply |
//! | `line` | reads the script's line |
//! | `reading` | reads a line, up to its LF or to one byte more than a line may have |
//! | `verdict` | what a trace shows |
//! | `laws` | what it means that all lines agree |
#![tactic(auto)]

pub mod laws;
mod line;
mod parts;
mod reading;
mod run;
mod verdict;

pub use hl_script::{Epochs, Fault, Kept, ScanTable, Shelf, Sum, Task};
pub use run::judge;
pub use verdict::{Deviation, Verdict};
