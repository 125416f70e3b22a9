//! Two threads add to one counter at the same time, and no add is lost.
//!
//! Each of two threads adds its numbers to a counter of one domain, in no order that anyone sets, and tells what it
//! added in all. Once the domain is closed, the counter's word is the sum of what both tell, modulo 2^64.
//!
//! A thread's own calls say what it found in the counter's cell and what it left there, and nothing of what the other
//! thread did in between. From such sentences nothing follows about the word at the end: both may have found a 0 there,
//! and then one of the two adds would be lost. Closing the domain says what joins them: all that the riders did to
//! cells has ONE order, in which each add found what the newest store before it left. What follows from that is the law
//! [`no_add_is_lost`](hl_words::laws::no_add_is_lost), which a caller has by calling it. All that the proof knows of a
//! domain is the contracts of its calls, and of words that law and one more.
#![tactic(auto)]

mod adder;
mod anew;

ghost use Rattle.std.specs.Prelude.{◌≡◌, IfSome};
ghost use Rattle.hl_words.specs.Laws.{AddsUp};
ghost use Rattle.hl_keeper.specs.Passes.{cell_at};
ghost use Rattle.example_sums.specs.Adding.{AddsMore, AddedUp};

use adder::add_all;
pub use anew::add_anew;
use hl_domain::{Domain, Ending, Epochs, Promise, Realm, Rider, Task};
use hl_model::cell_of;
use hl_words::laws;
use std::alloc::Global;
use std::sync::Wait;
use std::thread::{Threads, join};

/// What two threads say that they added to a counter, the counter's word, and what is left of its domain.
#[derive(Drop)]
pub struct Sums<F: Task, P: Promise> {
    /// What the first thread says that it added in all, modulo 2^64.
    pub first: u64,
    /// What the second thread says that it added in all, modulo 2^64.
    pub second: u64,
    /// What the counter's word is once the domain was closed.
    pub word: u64,
    /// What is left of the domain.
    pub ending: Ending<F, P>,
}

/// A counter, and the numbers that two threads are to add to it.
#[derive(Clone, Copy)]
pub struct Adds<'a> {
    /// The address of the counter's word.
    pub counter: u64,
    /// The first thread's numbers.
    pub first: &'a [u64],
    /// The second thread's numbers.
    pub second: &'a [u64],
}

/// Each of a domain's two riders adds its numbers to a counter, in a thread of its own; then the domain is closed. What
/// each thread says that it added is what its rider's adds make in all, and the counter's word is the sum of both. Before,
/// the riders did nothing to the counter's cell, or added 0 in all.
///
/// A number whose add was refused, as where the pass has no room for a touch, is in no sum. That an add is accepted is
/// not proved.
///
/// `None` if memory was refused; then the domain is given up. Its close isn't refused, since both riders are there.
pub fn add_by_two<R, E, F, P, L>(
    rt: &R,
    alloc: Global,
    domain: Domain<E, F, P, L>,
    one: Rider<L>,
    two: Rider<L>,
    adds: Adds<'_>,
) -> Option<Sums<F, P>>
where
    R: Threads + Wait + Sync,
    E: Epochs + Drop + Send,
    F: Task + Send,
    P: Promise + Send,
    L: Realm + Send + Sync,
    requires both { domain.riders ≡ 2 }
    requires new { let cell = cell_at domain.sizes adds.counter
        in AddsUp cell 0 one.view.touches × AddsUp cell 0 two.view.touches }
    ensures { IfSome result (AddedUp domain.sizes (cell_at domain.sizes adds.entry.counter)) }
{
    let Adds {
        counter,
        first,
        second,
    } = adds;
    let cell = cell_of(domain.params(), counter);
    let shared = &domain;
    let ((first, one), (second, two)) = join(
        rt,
        move || -> (u64, Rider<L>)
            ensures { let cell = cell_at shared.entry.now.sizes counter
                in AddsMore cell result.0 one.view.touches result.1.view.touches }
        { add_all(rt, shared, one, counter, first) },
        move || -> (u64, Rider<L>)
            ensures { let cell = cell_at shared.entry.now.sizes counter
                in AddsMore cell result.0 two.view.touches result.1.view.touches }
        { add_all(rt, shared, two, counter, second) },
    );
    let mut riders = Vec::new(alloc);
    riders.push(one).ok()?;
    riders.push(two).ok()?;
    let Ok(ending) = domain.close(riders) else {
        unreachable!()
    };
    laws::no_add_is_lost();
    Some(Sums {
        first,
        second,
        word: ending.words.cell(cell),
        ending,
    })
}
