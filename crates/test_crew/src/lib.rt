//! The tests of the crew and of what runs above it, of what no clause says: that its threads run beside one another,
//! what they count, and what comes back; when a crew that serves cuts, and that it ends; that jobs are called by a crew alone; how a race
//! ends at a full journal, and what its audit sees; and the program's commands over streams in memory.
//!
//! This crate has no code beside its tests: a crate with tests is proved twice.
#![tactic(auto)]

#[cfg(test)]
mod busy;
#[cfg(test)]
mod cleans;
#[cfg(test)]
mod commands;
#[cfg(test)]
mod crew;
#[cfg(test)]
mod gates;
#[cfg(test)]
mod jobs;
#[cfg(test)]
mod pouch;
#[cfg(test)]
mod races;
#[cfg(test)]
mod serves;
#[cfg(test)]
mod short;
#[cfg(test)]
mod waits;
#[cfg(test)]
mod wide;
