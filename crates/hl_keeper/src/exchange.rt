//! What a pass does to a word of the log in one step and without the lock: an add, and a compare and exchange.
ghost use Rattle.std.specs.Prelude.{◌≡◌, ◌≢◌, ◌+◌, ◌*◌, ◌%◌, ◌^◌, Some, None, IfOk, MatchResult};
ghost use Rattle.hl_keeper.specs.Passes.{store_fault, with_change, with_load};

use crate::pass::Pass;
use hl_model::{Fault, Sizes, Step, cell_of};
use hl_words::{Realm, Words};

/// Adds a number to the word at an address of the log, modulo 2^64, in one step: no store of
/// another rider comes between its load and its store. Returns what it found. It is a touch, the
/// write of the sum. The sizes are those of the words, as for a store.
///
/// Faults, those of a store: `Below`, `Beyond`, `TouchesFull`; then nothing is loaded.
pub fn fetch_add<L: Realm>(
    words: &Words<L>,
    params: Sizes,
    pass: &mut Pass<L>,
    a: u64,
    more: u64,
) -> Result<u64, Fault>
    requires { words.now.cells ≡ params.frames * params.page_size }
    ensures answer { let met = store_fault pass.old a
        in MatchResult result (λ _. met ≡ None) (λ fault. met ≡ Some fault) }
    ensures pass { let old = pass.old
        in MatchResult result
        (λ found. pass.new ≡ with_change params a found ((found + more) % 2 ^ 64) old)
        (λ _. pass.new ≡ old) }
{
    pass.may_store(a)?;
    let cell = cell_of(params, a);
    let found = words.fetch_add_cell(&mut pass.rider, cell, more);
    let v = found.wrapping_add(more);
    let t = pass.own.slot;
    pass.touches.push(Step::Write { t, a, v });
    Ok(found)
}

/// Stores a new value at an address of the log if the old one stands there, in one step: `Ok` with
/// the old value if it did, which is a touch, the write of the new one; else `Err` with what it
/// found, which is a load. The sizes are those of the words, as for a store.
///
/// Faults, those of a store: `Below`, `Beyond`, `TouchesFull`; then nothing is loaded.
pub fn compare_exchange<L: Realm>(
    words: &Words<L>,
    params: Sizes,
    pass: &mut Pass<L>,
    a: u64,
    old: u64,
    new: u64,
) -> Result<Result<u64, u64>, Fault>
    requires { words.now.cells ≡ params.frames * params.page_size }
    ensures answer { let met = store_fault pass.old a
        in MatchResult result (λ _. met ≡ None) (λ fault. met ≡ Some fault) }
    ensures found { IfOk result (λ swap. MatchResult swap (λ found. found ≡ old) (λ found. found ≢ old)) }
    ensures pass { let was = pass.old
        in MatchResult result
        (λ swap. MatchResult swap
        (λ found. pass.new ≡ with_change params a found new was)
        (λ found. pass.new ≡ with_load params a found was))
        (λ _. pass.new ≡ was) }
{
    pass.may_store(a)?;
    let cell = cell_of(params, a);
    let found = words.compare_exchange_cell(&mut pass.rider, cell, old, new);
    if found != old {
        return Ok(Err(found));
    }
    let t = pass.own.slot;
    pass.touches.push(Step::Write { t, a, v: new });
    Ok(Ok(found))
}
