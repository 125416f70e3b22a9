//! What one thread does: it enters, adds its numbers to the counter, and leaves.
ghost use Rattle.hl_keeper.specs.Passes.{cell_at};
ghost use Rattle.example_sums.specs.Adding.{AddsMore, AddsNothing};

use hl_domain::{Domain, Epochs, Pass, Promise, Realm, Rider, Task};
use hl_words::laws;
use std::sync::Wait;

/// Adds each number to the counter, and hands the rider back beside the sum, modulo 2^64, of those whose add was not
/// refused. Whatever the rider's touches of the counter's cell added up to before, they add up to that and the sum
/// more.
pub(crate) fn add_all<E: Epochs + Drop, F: Task, P: Promise, L: Realm>(
    rt: &impl Wait,
    domain: &Domain<E, F, P, L>,
    rider: Rider<L>,
    counter: u64,
    numbers: &[u64],
) -> (u64, Rider<L>)
    ensures { let cell = cell_at domain.now.sizes counter
        in AddsMore cell result.0 rider.view.touches result.1.view.touches }
{
    match domain.enter(rt, rider) {
        Ok(mut pass) => {
            let sum = add_each(domain, &mut pass, counter, numbers);
            (sum, leave(rt, domain, pass))
        }
        Err((_, rider)) => (0, rider),
    }
}

// Adds each number by this pass, and returns the sum of those whose add was not refused.
fn add_each<E: Epochs + Drop, F: Task, P: Promise, L: Realm>(
    domain: &Domain<E, F, P, L>,
    pass: &mut Pass<L>,
    counter: u64,
    numbers: &[u64],
) -> u64
    ensures { let cell = cell_at domain.now.sizes counter
        in AddsMore cell result pass.old.rider.view.touches pass.new.rider.view.touches }
{
    let mut sum = 0u64;
    for number in numbers {
        sum = sum.wrapping_add(add(domain, pass, counter, *number));
    }
    sum
}

// Adds one number, and returns what was added: nothing where the add was refused.
fn add<E: Epochs + Drop, F: Task, P: Promise, L: Realm>(
    domain: &Domain<E, F, P, L>,
    pass: &mut Pass<L>,
    counter: u64,
    number: u64,
) -> u64
    ensures { let cell = cell_at domain.now.sizes counter
        in AddsMore cell result pass.old.rider.view.touches pass.new.rider.view.touches }
{
    laws::adds_add_up();
    match domain.fetch_add(pass, counter, number) {
        Ok(_) => number,
        Err(_) => 0,
    }
}

/// Ends a pass. Where the release is refused, its slot stays protected for good.
pub(crate) fn leave<E: Epochs + Drop, F: Task, P: Promise, L: Realm>(
    rt: &impl Wait,
    domain: &Domain<E, F, P, L>,
    pass: Pass<L>,
) -> Rider<L>
    ensures { AddsNothing pass.rider.view.touches result.view.touches }
{
    match domain.release(rt, pass) {
        Ok(rider) => rider,
        Err((_, pass)) => pass.abandon(),
    }
}
