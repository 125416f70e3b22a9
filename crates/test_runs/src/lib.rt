//! The tests of what stands on the parts, of what no clause says: streams and writers that fail, refused
//! memory, drops, threads, and one happy path of what the built program doesn't call. Each module tries the
//! crate that it is named after, `cores` the core; `jobs` has what several of them store.
//!
//! This crate has no code beside its tests: a crate with tests is proved twice. `test_parts` has those of the
//! parts.
#![tactic(auto)]

#[cfg(test)]
mod cells;
#[cfg(test)]
mod cores;
#[cfg(test)]
mod cuts;
#[cfg(test)]
mod draws;
#[cfg(test)]
mod flush;
#[cfg(test)]
mod forms;
#[cfg(test)]
mod jobs;
#[cfg(test)]
mod lines;
#[cfg(test)]
mod script;
#[cfg(test)]
mod wide;
#[cfg(test)]
mod words;
