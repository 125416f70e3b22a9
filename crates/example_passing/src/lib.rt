//! A value that one thread stores is found by another thread, which was told the first one's past through a plain lock.
//!
//! A load's own contract says only that its rider noted it. That the load finds the value follows at the end: closing the
//! words says that there is one order of all that both riders did, that what a rider was told stands in it before whatever
//! it did then, and that a load found the newest store before it. All that the proof knows of the words is the contracts of
//! `Words::open`, `store_cell`, `load_cell`, `past`, `tell_past` and `close`, and the law `loads_of_told`.
#![tactic(auto)]

mod anew;

ghost use Rattle.std.specs.Prelude.{◌≡◌, ◌<◌, IfSome, length};
ghost use Rattle.hl_words.specs.declared.view.Touch.TheVariants.{Met as MET};
ghost use Rattle.hl_words.specs.Views.{fresh, stored, touched, loaded};
ghost use Rattle.example_passing.specs.Passes.{IsPassed};

pub use anew::pass_anew;
use hl_words::past_laws::loads_of_told;
use hl_words::{LastWords, Master, Past, Realm, Rider, Words};
use std::alloc::Global;
use std::sync::{Mutex, Wait};
use std::thread::{Threads, join};

/// Words with two riders, of the names 0 and 1, neither of which did anything.
#[derive(Drop)]
pub struct Opened<L: Realm> {
    /// The words.
    pub words: Words<L>,
    /// Their master.
    pub master: Master<L>,
    /// The rider that stores.
    pub one: Rider<L>,
    /// The rider that loads.
    pub two: Rider<L>,
}

/// A value, and the cell into which it is stored.
#[derive(Clone, Copy)]
pub struct Letter {
    /// The number of the cell.
    pub cell: u64,
    /// The value.
    pub value: u64,
}

/// A value that was passed.
#[derive(Drop)]
pub struct Passed {
    /// The value that the second thread found.
    pub found: u64,
    /// The words at their end.
    pub last: LastWords,
}

// The past of the rider of the name 0, which has one touch.
#[derive(Drop)]
struct Sent<L: Realm> {
    past: Past<L>,
    ghost first: { (past.name ≡ 0) × (length past.touches ≡ 1) },
}

// Stores the value, and leaves its past under the lock.
fn store_and_tell<L: Realm>(
    rt: &impl Wait,
    words: &Words<L>,
    mut rider: Rider<L>,
    letter: Letter,
    post: &Mutex<Option<Sent<L>>>,
) -> Rider<L>
    requires cell { letter.cell < words.now.cells }
    requires new { rider.view ≡ fresh 0 }
    ensures { result.view ≡ stored letter.cell letter.value (fresh 0) }
{
    words.store_cell(&mut rider, letter.cell, letter.value);
    let past = words.past(&mut rider);
    *post.lock(rt) = Some(Sent { past });
    rider
}

// Loads the cell, if a past lies under the lock.
fn load_told<L: Realm>(
    rt: &impl Wait,
    words: &Words<L>,
    mut rider: Rider<L>,
    cell: u64,
    post: &Mutex<Option<Sent<L>>>,
) -> (Rider<L>, Option<u64>)
    requires cell { cell < words.now.cells }
    requires new { rider.view ≡ fresh 1 }
    ensures { IfSome result.1
        (λ found. result.0.view ≡ loaded cell found (touched (MET 0 1) (fresh 1))) }
{
    let Some(sent) = post.lock(rt).take() else {
        return (rider, None);
    };
    let Sent { past } = sent;
    words.tell_past(&mut rider, past);
    let found = words.load_cell(&mut rider, cell);
    (rider, Some(found))
}

/// One thread stores a value and leaves its past under a plain lock; the other loads the cell if it finds that past, and
/// then finds the value. Neither does anything else, and the words are ended with both.
///
/// `None` if no past was there yet, if memory was refused, or if the words have a rider that is none of these two.
pub fn pass_value<R, L>(rt: &R, alloc: Global, opened: Opened<L>, letter: Letter) -> Option<Passed>
where
    R: Threads + Wait + Sync,
    L: Realm + Send + Sync,
    requires cell { letter.cell < opened.words.cells }
    requires new { (opened.one.view ≡ fresh 0) × (opened.two.view ≡ fresh 1) }
    ensures { IfSome result (IsPassed opened.words.cells letter.cell letter.value) }
{
    loads_of_told();
    let Opened {
        words,
        master,
        one,
        two,
    } = opened;
    let lock: Mutex<Option<Sent<L>>> = Mutex::new(None);
    let (shared, post) = (&words, &lock);
    let (one, (two, found)) = join(
        rt,
        move || -> Rider<L>
            requires cell { letter.cell < shared.now.cells }
            requires new { one.view ≡ fresh 0 }
            ensures { result.view ≡ stored letter.cell letter.value (fresh 0) }
        { store_and_tell(rt, shared, one, letter, post) },
        move || -> (Rider<L>, Option<u64>)
            requires cell { letter.cell < shared.now.cells }
            requires new { two.view ≡ fresh 1 }
            ensures { IfSome result.1
                (λ found. result.0.view ≡ loaded letter.cell found (touched (MET 0 1) (fresh 1))) }
        { load_told(rt, shared, two, letter.cell, post) },
    );
    let mut riders = Vec::new(alloc);
    riders.push(one).ok()?;
    riders.push(two).ok()?;
    let found = found?;
    let last = words.close(master, riders).ok()?;
    Some(Passed { found, last })
}
