//! The tests of the parts that the core and scripts are made of, of what no clause says: refused memory,
//! devices that fail, no fault at the greatest numbers, drops, printed text, exact turns, and one happy path of
//! what the built program doesn't call. Each module tries the crate that it is named after, `tables` both tables
//! of epochs, `report` that of `hl_monitor`, `refused` the type of `hl` for refusals, `log` how its crew is woken, `crew` its
//! crew, `images` what that writes, `asked` what that asks of a device, `daily` what a session does between two tries,
//! `config` its calls in few words, `greatest` its greatest sizes, `tickets` and `counters` the calls of `example_tickets`
//! and `example_counters` once. In `gathering` threads wait for one another. What else a clause says is tested nowhere;
//! that the clauses mean what was meant is shown by the examples that the built program is run on.
//!
//! This crate has no code beside its tests: a crate with tests is proved twice, so only this one,
//! `test_runs`, `test_domain` and `test_crew` have any. It stands on every part that the program needs,
//! on `hl`, on `example_tickets`, and on `example_counters`.
#![tactic(auto)]

#[cfg(test)]
mod action;
#[cfg(test)]
mod asked;
#[cfg(test)]
mod config;
#[cfg(test)]
mod counters;
#[cfg(test)]
mod crew;
#[cfg(test)]
mod daily;
#[cfg(test)]
mod drain;
#[cfg(test)]
mod frames;
#[cfg(test)]
mod gathering;
#[cfg(test)]
mod greatest;
#[cfg(test)]
mod image;
#[cfg(test)]
mod images;
#[cfg(test)]
mod line;
#[cfg(test)]
mod log;
#[cfg(test)]
mod offsets;
#[cfg(test)]
mod plain;
#[cfg(test)]
mod records;
#[cfg(test)]
mod refused;
#[cfg(test)]
mod report;
#[cfg(test)]
mod tables;
#[cfg(test)]
mod tickets;
