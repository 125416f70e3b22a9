ghost use Rattle.std.specs.Prelude.{◌≡◌, ◌+◌, ◌/◌, ◌^◌, ◌≤◌, ℕ, List, IfOk, OnErr};
ghost use Rattle.hl_model.specs.declared.step.Reply.TheVariants.{Raised as RAISED, Shifted as SHIFTED, At as AT, Looked as LOOKED, Written as WRITTEN, Readable as READABLE};
ghost use Rattle.hl_model.specs.declared.step.Step.{Step};
ghost use Rattle.hl_model.specs.declared.step.Step.TheVariants.{Raise as RAISE, Shift as SHIFT, Allocate as ALLOCATE, Look as LOOK, Write as WRITE, Read as READ};
ghost use Rattle.hl_model.specs.Offsets.{tail, place_of, is_entered};
ghost use Rattle.hl_model.specs.Views.{view_of};
ghost use Rattle.hl_model.specs.Replies.{fault_of, unless_fault};
ghost use Rattle.hl_core.specs.Standing.{Stands};
ghost use Rattle.hl_core.specs.Steps.{Made, as_reply};

use crate::state::Core;
use hl_epoch::Epochs;
use hl_model::{Fault, Tagged, View};

impl<E: Epochs, J: Tagged> Core<E, J> {
    /// Moves the read-only offset up to address x; returns x, the read-only offset after it.
    ///
    /// Faults, in their order: `NotAbove` if x isn't above the read-only offset, `AboveTail` if it is above
    /// the tail.
    #[inline(always)]
    pub fn raise(&mut self, x: u64) -> Result<u64, Fault>
        ensures made { Made J.tag self.old (RAISE x) self.new (as_reply RAISED result) }
        ensures refused { OnErr result (self.new ≡ self.old) }
        ensures jobs { self.new.drain.pending ≡ self.old.drain.pending }
        ensures sizes { self.new.sizes ≡ self.old.sizes }
    {
        self.offsets.raise(x)?;
        Ok(x)
    }

    /// Moves the head up to address x, where a page begins, at most to the flushed offset; returns x, the
    /// head after it.
    ///
    /// Faults, in their order: `NotAbove` if x isn't above the head, `NotPage` if no page begins at x,
    /// `AboveFlushed` if it is above the flushed offset.
    #[inline(always)]
    pub fn shift(&mut self, x: u64) -> Result<u64, Fault>
        ensures made { Made J.tag self.old (SHIFT x) self.new (as_reply SHIFTED result) }
        ensures refused { OnErr result (self.new ≡ self.old) }
        ensures jobs { self.new.drain.pending ≡ self.old.drain.pending }
        ensures sizes { self.new.sizes ≡ self.old.sizes }
    {
        let flushed = self.frames.flushed_until();
        self.offsets.shift(x, flushed)?;
        Ok(x)
    }

    /// Places a record of n words, 1 to P, for slot t: at the tail if it ends on the tail's page, else at the
    /// start of the next page. Returns the address of its first word. The first record of a page enters the
    /// page, and the slot's view has the new tail.
    ///
    /// Faults, in their order: `NoSlot`, `NotProtected`, `Size` if n is 0 or above P, `SpaceSpent` if the
    /// record would end above 2^48, `Busy` if its page is new and its frame isn't free.
    #[inline(always)]
    pub fn allocate(&mut self, t: u64, n: u64) -> Result<u64, Fault>
        ensures made { Made J.tag self.old (ALLOCATE t n) self.new (as_reply AT result) }
        ensures within { IfOk result (λ address. address + n ≤ 2 ^ 48) }
        ensures refused { OnErr result (self.new ≡ self.old) }
        ensures jobs { self.new.drain.pending ≡ self.old.drain.pending }
        ensures sizes { self.new.sizes ≡ self.old.sizes }
    {
        let seen = self.seen(t)?;
        let address = self.offsets.place(n)?;
        let page = address / self.params.page_size();
        if !self.is_entered_at(address) {
            self.frames.enter(page)?;
        }
        self.offsets.allocate_at(address, n);
        let tail = self.offsets.tail();
        self.views.set(t, Some(View { tail, ..seen }));
        Ok(address)
    }

    /// Slot t sees this read-only offset and this head; returns its view from now on.
    ///
    /// Faults, in their order: `NoSlot`, `NotProtected`, `Stale` if one of the two is below what the slot
    /// saw.
    #[inline(always)]
    pub fn look(&mut self, t: u64, read_only: u64, head: u64) -> Result<View, Fault>
        ensures made { Made J.tag self.old (LOOK t read_only head) self.new (as_reply LOOKED result) }
        ensures refused { OnErr result (self.new ≡ self.old) }
        ensures jobs { self.new.drain.pending ≡ self.old.drain.pending }
        ensures sizes { self.new.sizes ≡ self.old.sizes }
    {
        let seen = self.may_look(t, read_only, head)?;
        let view = View {
            read_only,
            head,
            tail: seen.tail,
        };
        self.views.set(t, Some(view));
        Ok(view)
    }

    /// The view of slot t, if it may see these offsets.
    #[inline(always)]
    pub(crate) fn may_look(&self, t: u64, read_only: u64, head: u64) -> Result<View, Fault>
        ensures { (A : List Step) → Stands J.tag self.now A
            → result ≡ unless_fault (fault_of self.now.sizes A (LOOK t read_only head))
            (view_of self.now.sizes t A) }
    {
        let seen = self.seen(t)?;
        if read_only < seen.read_only || head < seen.head {
            return Err(Fault::Stale);
        }
        Ok(seen)
    }

    /// Tells whether slot t may write the word at address a, by its view alone: whatever is written there, a
    /// write changes nothing of a core.
    ///
    /// Faults, in their order: `NoSlot`, `NotProtected`, `Below` if the address is below the read-only offset
    /// that the slot saw, `Beyond` if it is at or above the tail that the slot saw.
    #[inline(always)]
    pub fn may_write(&self, t: u64, a: u64) -> Result<(), Fault>
        ensures fault { (A : List Step) (v : ℕ) → Stands J.tag self.now A
            → result ≡ unless_fault (fault_of self.now.sizes A (WRITE t a v)) tt }
        ensures made { (v : ℕ) → Made J.tag self.now (WRITE t a v) self.now (as_reply (λ _. WRITTEN) result) }
    {
        let seen = self.seen(t)?;
        if a < seen.read_only {
            return Err(Fault::Below {
                read_only: seen.read_only,
            });
        }
        if a >= seen.tail {
            return Err(Fault::Beyond { tail: seen.tail });
        }
        Ok(())
    }

    /// Tells whether slot t may read the word at address a, by its view alone: a read changes nothing of a
    /// core.
    ///
    /// Faults, in their order: `NoSlot`, `NotProtected`, `Evicted` if the address is below the head that the
    /// slot saw, `Beyond` if it is at or above the tail that the slot saw.
    #[inline(always)]
    pub fn may_read(&self, t: u64, a: u64) -> Result<(), Fault>
        ensures fault { (A : List Step) → Stands J.tag self.now A
            → result ≡ unless_fault (fault_of self.now.sizes A (READ t a)) tt }
        ensures made { Made J.tag self.now (READ t a) self.now (as_reply (λ _. READABLE) result) }
    {
        let seen = self.seen(t)?;
        if a < seen.head {
            return Err(Fault::Evicted { head: seen.head });
        }
        if a >= seen.tail {
            return Err(Fault::Beyond { tail: seen.tail });
        }
        Ok(())
    }

    /// Returns where a record of n words for slot t would be placed, if it may be.
    #[inline(always)]
    pub(crate) fn may_allocate(&self, t: u64, n: u64) -> Result<u64, Fault>
        ensures { (A : List Step) → Stands J.tag self.now A
            → result ≡ unless_fault (fault_of self.now.sizes A (ALLOCATE t n))
            (place_of self.now.sizes.page_size (tail self.now.sizes A) n) }
    {
        self.seen(t)?;
        let address = self.offsets.place(n)?;
        let page = address / self.params.page_size();
        if self.is_entered_at(address) || self.frames.may_enter(page) {
            Ok(address)
        } else {
            Err(Fault::Busy { page })
        }
    }

    /// Whether a record was placed in the page of this address.
    #[inline(always)]
    fn is_entered_at(&self, a: u64) -> bool
        ensures { (A : List Step) → Stands J.tag self.now A
            → result ≡ is_entered self.now.sizes (a / self.now.sizes.page_size) A }
    {
        self.frames.is_entered_at(a)
    }
}
