//! The tests of the domain and of its keeper by their public calls, of what no clause says: that calls which may be
//! refused aren't, which tickets, places, views and snapshots they answer, and that threads get on beside one another.
//!
//! | Module | What is tested there, or what it is for |
//! |---|---|
//! | `examples` | worked examples as journals in text, for a keeper that stands alone and for a domain |
//! | `crowd` | many threads on one domain, and on two |
//! | `images` | pages that threads copy while others store, and the words of the journal |
//! | `strangers` | what is of another domain |
//! | `refusals` | riders that are missing, and a bump without room |
//! | `journals` | how many steps a journal holds |
//! | `protected` | a thread that settles and cuts with a pass in its hands, and asks who holds it up |
//! | `keeps_up` | when a pass that is kept up refreshes, and when it doesn't |
//! | `regions` | an address that goes through the four regions of the log |
//! | `turns` | two threads that bump a new domain |
//! | `passing` | two threads that pass a value |
//! | `sums` | two threads that add to a counter of a new domain |
//! | `limits` | the greatest sizes, stamps and journals, and a chain of jobs |
//! | `wide` | sizes that an engine wants |
//! | `follow`, `play` | plays an example; what is asked, with the values that the calls use |
//! | `call`, `ending` | reads a call, and prints what is left at the end |
//! | `asked`, `alone`, `shared` | what is asked; a keeper, and a domain |
//! | `work` | for `crowd`: what one of its threads does |
//! | `opened` | a domain that a test opens, uses and closes, over both tables |
//! | `jobs` | for all: what they store, and small helpers |
//!
//! This crate has no code beside its tests: a crate with tests is proved twice.
#![tactic(auto)]

#[cfg(test)]
mod alone;
#[cfg(test)]
mod asked;
#[cfg(test)]
mod call;
#[cfg(test)]
mod crowd;
#[cfg(test)]
mod ending;
#[cfg(test)]
mod examples;
#[cfg(test)]
mod follow;
#[cfg(test)]
mod images;
#[cfg(test)]
mod jobs;
#[cfg(test)]
mod journals;
#[cfg(test)]
mod keeps_up;
#[cfg(test)]
mod limits;
#[cfg(test)]
mod opened;
#[cfg(test)]
mod passing;
#[cfg(test)]
mod play;
#[cfg(test)]
mod protected;
#[cfg(test)]
mod refusals;
#[cfg(test)]
mod regions;
#[cfg(test)]
mod shared;
#[cfg(test)]
mod strangers;
#[cfg(test)]
mod sums;
#[cfg(test)]
mod turns;
#[cfg(test)]
mod wide;
#[cfg(test)]
mod work;
