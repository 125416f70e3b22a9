//! Two threads bump at the same time: that one list is behind all answers says which answers they get.
//!
//! Each of two threads ends the current epoch of one new domain, in no order that anyone sets, and is answered the
//! number of the epoch that it ended. One of them is answered 1 and the other 2, and after both the current epoch is 3.
//!
//! A thread's own call can only say that it met some list of steps, and is answered by that list. From two such
//! sentences nothing follows about both: each may have met a list with no step, and both would be answered 1. Closing
//! the domain says what joins them: there is ONE list, it begins with what each call of each rider met and then made,
//! and each of its steps was made by exactly one of these calls. So the two calls stand in that list one behind the
//! other, and nothing else stands there. All that the proof knows of a domain is the contracts of `Domain::open`,
//! `Domain::bare` and `Domain::close`.
//!
//! [`bump_after`] is the twin with an order: one thread is told of the other's bump, through a plain lock, before its own.
//! Then its own number is greater, whatever carried the message.
#![tactic(auto)]

mod after;
mod anew;

ghost use Rattle.std.specs.Prelude.{◌≡◌, [], IfSome};
ghost use Rattle.example_turns.specs.Turns.{Bumped, IsInTurn};

pub use after::{Numbers, bump_after, bump_after_anew};
pub use anew::bump_anew;
use hl_domain::{Domain, Ending, Epochs, Promise, Realm, Rider, Task};
use std::alloc::Global;
use std::sync::Wait;
use std::thread::{Threads, join};

/// What two riders were answered who bumped at the same time, the current epoch after both, and what is left of their
/// domain.
#[derive(Drop)]
pub struct Turns<F: Task, P: Promise> {
    /// The number of the epoch that the first rider ended.
    pub one: u64,
    /// The number of the epoch that the second rider ended.
    pub two: u64,
    /// The current epoch of the domain once it was closed.
    pub epoch: u64,
    /// What is left of the domain.
    pub ending: Ending<F, P>,
}

/// Each of two riders, neither of which has made a call, ends the current epoch of a domain in a thread of its own;
/// then the domain is closed. One rider was answered 1 and the other 2, and the current epoch is 3.
///
/// `None` if a call was refused, as where the journal has no room for it, if memory was refused, or if the domain has
/// a rider that is none of these two; then the domain is given up.
pub fn bump_in_turn<R, E, F, P, L>(
    rt: &R,
    alloc: Global,
    domain: Domain<E, F, P, L>,
    one: Rider<L>,
    two: Rider<L>,
) -> Option<Turns<F, P>>
where
    R: Threads + Wait + Sync,
    E: Epochs + Drop + Send,
    F: Task + Send,
    P: Promise + Send,
    L: Realm + Send + Sync,
    requires new { (one.calls ≡ []) × (two.calls ≡ []) }
    ensures { IfSome result (IsInTurn domain.sizes) }
{
    let shared = &domain;
    let ((first, one), (second, two)) = join(
        rt,
        move || -> (Option<u64>, Rider<L>)
            requires { one.calls ≡ [] }
            ensures { IfSome result.0 (λ number. Bumped number result.1.calls) }
        { bump(rt, shared, one) },
        move || -> (Option<u64>, Rider<L>)
            requires { two.calls ≡ [] }
            ensures { IfSome result.0 (λ number. Bumped number result.1.calls) }
        { bump(rt, shared, two) },
    );
    let mut riders = Vec::new(alloc);
    riders.push(one).ok()?;
    riders.push(two).ok()?;
    let ending = domain.close(riders).ok()?;
    let (first, second) = (first?, second?);
    Some(Turns {
        one: first,
        two: second,
        epoch: ending.snapshot.epoch,
        ending,
    })
}

// Ends the current epoch, and hands the rider back beside the answer. There is none if the call was refused.
fn bump<E: Epochs + Drop, F: Task, P: Promise, L: Realm>(
    rt: &impl Wait,
    domain: &Domain<E, F, P, L>,
    mut rider: Rider<L>,
) -> (Option<u64>, Rider<L>)
    requires { rider.calls ≡ [] }
    ensures { IfSome result.0 (λ number. Bumped number result.1.calls) }
{
    let answer = domain.bare(rt, &mut rider);
    (answer.ok(), rider)
}
