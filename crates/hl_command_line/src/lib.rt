//! The program `hl_tool` as one function: [`command`] reads words, a script and its streams, and returns an exit
//! status. The program hands it the process's own; a test hands it words and streams in memory.
#![tactic(auto)]

mod race;
mod wanted;
mod words;

pub use wanted::Wanted;
pub use words::command;
