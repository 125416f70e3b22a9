//! What a pass does without the lock: looks at the offset words, stores and loads of cells, and the question in which
//! region an address is.
ghost use Rattle.std.specs.Prelude.{◌≡◌, ◌*◌, ◌<◌, ◌≤◌, Some, None, max, length, IfOk, OnOk, IfErr, MatchResult};
ghost use Rattle.hl_model.specs.declared.fault.Fault.TheVariants.{Beyond as BEYOND};
ghost use Rattle.hl_model.specs.Replies.{unless_fault, unless_refused};
ghost use Rattle.hl_keeper.specs.Passes.{PassRecord, seen, touches_most, touch_fault, store_fault, load_fault, with_look, with_store, with_load, last_read_only, last_head, LooksOn};
ghost use Rattle.hl_keeper.specs.Regions.{IsRegion};

use crate::pass::Pass;
use crate::touches::TOUCHES_MOST;
use hl_model::{Fault, Sizes, Step, View, cell_of};
use hl_pass::{Region, may_load, may_store, raised, rises};
use hl_words::{Realm, Which, Words};

/// Loads both offset words: each of the pass's two offsets becomes the greater of the loaded one
/// and its own. Returns what the pass then sees. A look that raises neither is no touch. Neither
/// load is below any that the rider made of that word before.
///
/// `TouchesFull` if the pass has 32 touches; then nothing is loaded.
#[inline(always)]
pub fn look<L: Realm>(words: &Words<L>, pass: &mut Pass<L>) -> Result<View, Fault>
    ensures answer { result ≡ unless_fault (touch_fault pass.old) (seen pass.new) }
    ensures pass { let new = pass.new
        in let old = pass.old
        in new ≡ unless_refused (touch_fault old) old (with_look (last_read_only new) (last_head new) old) }
    ensures rises { OnOk result (LooksOn pass.old pass.new) }
    ensures raised { let old = seen pass.old
        in let new = pass.new
        in IfOk result (λ view. view ≡ record {
          read_only = max old.read_only (last_read_only new);
          head = max old.head (last_head new);
          tail = old.tail;
        }) }
{
    pass.may_touch()?;
    let read_only = words.load_offset(&mut pass.rider, Which::ReadOnly);
    let head = words.load_offset(&mut pass.rider, Which::Head);
    // After the loads, which nothing is moved past: the compiler then reads of the view only what is used.
    let seen = pass.own.view;
    if !rises(seen, read_only, head) {
        return Ok(seen);
    }
    let view = raised(seen, read_only, head);
    pass.touches.push(Step::Look {
        t: pass.own.slot,
        read_only: view.read_only,
        head: view.head,
    });
    pass.own.view = view;
    Ok(view)
}

/// Stores a word of 64 bits at an address of the log; addresses count words. It is a touch. The
/// sizes are those of the words, and give each address its cell.
///
/// Faults: `Below` if the address is below the read-only offset that the pass saw, `Beyond` if it
/// isn't below the tail that it saw, `TouchesFull` if it has 32 touches.
#[inline(always)]
pub fn store<L: Realm>(
    words: &Words<L>,
    params: Sizes,
    pass: &mut Pass<L>,
    a: u64,
    v: u64,
) -> Result<(), Fault>
    requires { words.now.cells ≡ params.frames * params.page_size }
    ensures answer { result ≡ unless_fault (store_fault pass.old a) tt }
    ensures pass { let old = pass.old
        in pass.new ≡ unless_refused (store_fault old a) old (with_store params a v old) }
{
    pass.may_store(a)?;
    let cell = cell_of(params, a);
    words.store_cell(&mut pass.rider, cell, v);
    let t = pass.own.slot;
    pass.touches.push(Step::Write { t, a, v });
    Ok(())
}

/// Loads the word at an address of the log. It is no touch: no step of the journal tells of it. The
/// sizes are those of the words, as for a store.
///
/// Faults: `Evicted` if the address is below the head that the pass saw, `Beyond` if it isn't below
/// the tail that it saw.
#[inline(always)]
pub fn load<L: Realm>(
    words: &Words<L>,
    params: Sizes,
    pass: &mut Pass<L>,
    a: u64,
) -> Result<u64, Fault>
    requires { words.now.cells ≡ params.frames * params.page_size }
    ensures answer { let met = load_fault pass.old a
        in MatchResult result (λ _. met ≡ None) (λ fault. met ≡ Some fault) }
    ensures pass { let old = pass.old
        in MatchResult result (λ v. pass.new ≡ with_load params a v old) (λ _. pass.new ≡ old) }
{
    pass.may_load(a)?;
    let cell = cell_of(params, a);
    Ok(words.load_cell(&mut pass.rider, cell))
}

/// Tells in which region an address is. Below the read-only offset that the pass saw it loads the word of the safe
/// read-only offset, for its rider alone: that is no touch, and not below what the rider loaded of it before.
///
/// `Beyond` if the address isn't below the tail that the pass saw, nor evicted.
#[inline(always)]
pub fn region<L: Realm>(words: &Words<L>, pass: &mut Pass<L>, a: u64) -> Result<Region, Fault>
    ensures region { IfOk result (λ region. IsRegion pass.old pass.new a region) }
    ensures beyond { let saw = seen pass.old
        in IfErr result (λ fault. (fault ≡ BEYOND saw.tail) × (saw.head ≤ a) × (saw.tail ≤ a)
        × (pass.new ≡ pass.old)) }
{
    let seen = pass.own.view;
    if a < seen.head {
        return Ok(Region::Evicted);
    }
    if a >= seen.tail {
        return Err(Fault::Beyond { tail: seen.tail });
    }
    if a >= seen.read_only {
        return Ok(Region::Mutable);
    }
    let safe_read_only = words.load_offset(&mut pass.rider, Which::SafeReadOnly);
    if a < safe_read_only {
        Ok(Region::ReadOnly)
    } else {
        Ok(Region::Fuzzy)
    }
}

impl<L: Realm> Pass<L> {
    /// Whether it has room for a touch.
    #[inline(always)]
    fn may_touch(&self) -> Result<(), Fault>
        ensures answer { result ≡ unless_fault (touch_fault self.now) tt }
        ensures room { OnOk result (length self.now.touches < touches_most) }
    {
        if self.touches.len() == TOUCHES_MOST {
            return Err(Fault::TouchesFull);
        }
        Ok(())
    }

    /// Whether it may store at this address.
    #[inline(always)]
    pub(crate) fn may_store(&self, a: u64) -> Result<(), Fault>
        ensures answer { result ≡ unless_fault (store_fault self.now a) tt }
        ensures room { OnOk result (length self.now.touches < touches_most) }
    {
        may_store(self.own.view, a)?;
        self.may_touch()
    }

    /// Whether it may load at this address.
    #[inline(always)]
    fn may_load(&self, a: u64) -> Result<(), Fault>
        ensures { result ≡ unless_fault (load_fault self.now a) tt }
    {
        may_load(self.own.view, a)
    }
}
