//! The drain list of epoch protection: actions that bumps stored, waiting until no thread can still be in the
//! epoch that their bump ended.
//!
//! After FASTER (Chandramouli, Prasaad, Kossmann, Levandoski, Hunter, Barnett, SIGMOD 2018), where a bump of
//! the current epoch from c to c + 1 adds the pair of c and an action to the drain list, and the action is
//! triggered once c is safe.
//!
//! # Tickets
//!
//! The ticket of an action is the epoch that its bump ended. Each bump ends another epoch, so tickets rise in
//! the order in which actions are stored, and no two actions share one.
//!
//! # Pending and taken
//!
//! An action is *pending* from its `put` until its `take`. A take hands out the oldest pending action, once
//! its ticket is at most the safe epoch. From then on the action is *taken*: whoever took it carries it out,
//! and the list knows it by its ticket and its kind alone. With its `done` it leaves the list.
//!
//! Taking an action and its being done are two steps, so that an action may be carried out outside the lock
//! under which the list stands. Takes come in the order of the tickets; dones may come in any order.
//!
//! A list has a limit, 1 to 4,096, on the actions that are pending and taken together. A full list refuses a
//! put, and so its bump; only a done makes room.
//!
//! # What a call costs
//!
//! The pending actions lie in a ring of as many places as the limit: behind the last place comes the first
//! again, so the ring goes round as actions come and go. A put and a take visit one place of it each, and
//! move no other action; [`Drain::turns`] counts it for a take, and contracts see that it is one. A take
//! appends to the row of taken actions, which has places for twice as many, and moves none: a done finds its
//! action there by halves, since tickets rise, and closes the row up from the side where fewer stand. So a
//! done of the oldest or the newest moves none, but for one in as many dones as the limit, which may move all
//! to the row's front. [`Drain::has_room`] compares two lengths; [`Drain::pending`] and [`Drain::taken`] copy
//! their rows if the limit is at most 64; [`Drain::pending_at`] and [`Drain::taken_row`] copy none.
//!
//! No call after [`Drain::open`] takes memory: neither row ever has more or fewer places than it was opened
//! with.
#![tactic(auto)]

mod action;
mod drain;
mod pending;
mod taken;
mod visits;

pub use action::{Action, Ask};
pub use drain::Drain;
