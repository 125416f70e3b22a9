//! The commands on scripts, as programs run them: from a reader, a writer and a writer of errors to an exit
//! status.
//!
//! | Command | What it does |
//! |---|---|
//! | [`run`] | answers a script, and flushes its sealed pages where that is wanted |
//! | [`scan`] | does so over a table of epochs that scans, for tests |
//! | [`slow`] | answers it in the slow form |
//! | [`report`] | runs it without its answers, and reports what it left |
//! | [`judge`] | judges a trace: a script's lines, each with the reply that some engine gave |
//!
//! The jobs of each have the tags 0 to 999, and each answers its tag + its ticket. The statuses are 0 where
//! the command was [`DONE`], 1 where it [`FAILED`], with the fault's line on the errors ([`failed`] writes
//! it), and 2 where a line of the script is no step, which is the last line of the output ([`REFUSED`]). A
//! trace of which a line deviates has status 1, and one with a line that is none of a trace 2: the output
//! tells which.
//!
//! | Module | What it does |
//! |---|---|
//! | `commands` | the commands |
//! | `images` | the images of the pages that a script left |
//! | `reports` | a script and its report |
//! | `judges` | a trace and what it shows |
//! | `jobs` | the jobs of a script |
//! | `status` | the statuses, and the line of a fault |
#![tactic(auto)]

mod commands;
mod images;
mod jobs;
mod judges;
mod reports;
mod status;

pub use commands::{report, run, scan, slow};
pub use judges::judge;
pub use status::{DONE, FAILED, REFUSED, failed};
