ghost use Rattle.std.specs.Prelude.{◌≡◌, ℕ, ◌+◌, ◌%◌, ◌≤◌, max, Ok, IfOk};
ghost use Rattle.hl_model.specs.Offsets.{place_of};
ghost use Rattle.hl_model.specs.Replies.{raise_fault, shift_fault, size_fault, unless_fault, unless_refused};
ghost use Rattle.hl_model.specs.Snapshots.{AreInOrder};
ghost use Rattle.hl_offsets.specs.Log.{Log, IsLog, NoneFalls, started, resumed, raised, shifted, settled, closed_up_to, allocated, six_of};
ghost use Rattle.hl_offsets.specs.Place.{IsOnOnePage};

use hl_model::{Fault, HasSizes, Six, TAIL_MOST};
use std::marker::Model;

/// The offsets of one log, each an address, in words.
#[derive(Clone, Copy, Debug, PartialEq, Eq)]
pub struct Offsets {
    // First, since each allocation writes it: it can lie beside what else each call writes.
    tail: u64,
    read_only: u64,
    safe_read_only: u64,
    head: u64,
    closed: u64,
    page_size: u64,
}

impl Model for Offsets {
    ghost Value = { Log };

    ghost view = { λ a. record {
      page_size = a.page_size;
      closed = a.closed;
      head = a.head;
      safe_read_only = a.safe_read_only;
      read_only = a.read_only;
      tail = a.tail;
    } };

    ghost invariant = { λ a. IsLog
        (record {
          page_size = a.page_size;
          closed = a.closed;
          head = a.head;
          safe_read_only = a.safe_read_only;
          read_only = a.read_only;
          tail = a.tail;
        }) };

    ghost inverse = { λ log. record {
      page_size = log.page_size;
      closed = log.closed;
      head = log.head;
      safe_read_only = log.safe_read_only;
      read_only = log.read_only;
      tail = log.tail;
    } };
}

impl Offsets {
    /// The offsets of an empty log, with pages of the size that `params` gives: each is 0.
    pub fn new<S: HasSizes>(params: S) -> Offsets
        ensures value { result ≡ started (S.sizes_of params).page_size }
        ensures valid { IsLog result }
    {
        Offsets {
            page_size: params.sizes().page_size(),
            closed: 0,
            head: 0,
            safe_read_only: 0,
            read_only: 0,
            tail: 0,
        }
    }

    /// The offsets of a log that goes on from these six. They are in order, the closed, the head and the
    /// flushed offset are multiples of P, and the tail is at most 2^48. The flushed offset is not kept.
    pub fn resume<S: HasSizes>(params: S, six: Six) -> Offsets
        requires { AreInOrder (S.sizes_of params).page_size six }
        ensures value { result ≡ resumed (S.sizes_of params).page_size six }
        ensures valid { IsLog result }
    {
        Offsets {
            page_size: params.sizes().page_size(),
            closed: six.closed,
            head: six.head,
            safe_read_only: six.safe_read_only,
            read_only: six.read_only,
            tail: six.tail,
        }
    }

    /// Moves the read-only offset up to x, at most to the tail. From then on whoever has seen it does not
    /// write below x.
    ///
    /// Faults: `NotAbove` if x is at most the read-only offset, `AboveTail` if x is above the tail.
    pub fn raise(&mut self, x: u64) -> Result<(), Fault>
        ensures answer { let old = self.old
            in result ≡ unless_fault (raise_fault old.read_only old.tail x) tt }
        ensures effect { let old = self.old
            in self.new ≡ unless_refused (raise_fault old.read_only old.tail x) old (raised x old) }
        ensures rising { NoneFalls self.old self.new }
        ensures valid { IsLog self.new }
    {
        if x <= self.read_only {
            return Err(Fault::NotAbove);
        }
        if x > self.tail {
            return Err(Fault::AboveTail);
        }
        self.read_only = x;
        Ok(())
    }

    /// Moves the head up to x, where a page begins, at most to the flushed offset: what leaves memory has
    /// been written. `flushed` is at most the safe read-only offset.
    ///
    /// Faults: `NotAbove` if x is at most the head, `NotPage` if x is no multiple of P, `AboveFlushed` if x
    /// is above `flushed`.
    pub fn shift(&mut self, x: u64, flushed: u64) -> Result<(), Fault>
        requires { flushed ≤ self.old.safe_read_only }
        ensures answer { let old = self.old
            in result ≡ unless_fault (shift_fault old.page_size old.head flushed x) tt }
        ensures effect { let old = self.old
            in self.new ≡ unless_refused (shift_fault old.page_size old.head flushed x) old (shifted x old) }
        ensures below_flushed { self.old.head ≤ flushed → self.new.head ≤ flushed }
        ensures rising { NoneFalls self.old self.new }
        ensures valid { IsLog self.new }
    {
        if x <= self.head {
            return Err(Fault::NotAbove);
        }
        if x % self.page_size != 0 {
            return Err(Fault::NotPage);
        }
        if x > flushed {
            return Err(Fault::AboveFlushed);
        }
        self.head = x;
        Ok(())
    }

    /// Tells that nobody writes below x any more, x having been the read-only offset at some time. The safe
    /// read-only offset becomes the greater of itself and x; returns it.
    pub fn settle(&mut self, x: u64) -> u64
        requires { x ≤ self.old.read_only }
        ensures answer { result ≡ max self.old.safe_read_only x }
        ensures effect { self.new ≡ settled x self.old }
        ensures rising { NoneFalls self.old self.new }
        ensures valid { IsLog self.new }
    {
        self.safe_read_only = self.safe_read_only.max(x);
        self.safe_read_only
    }

    /// Tells that nobody reads below x any more, x having been the head at some time. The closed offset
    /// becomes the greater of itself and x; returns it.
    pub fn close(&mut self, x: u64) -> u64
        requires whole { x % self.old.page_size ≡ 0 }
        requires most { x ≤ self.old.head }
        ensures answer { result ≡ max self.old.closed x }
        ensures effect { self.new ≡ closed_up_to x self.old }
        ensures rising { NoneFalls self.old self.new }
        ensures valid { IsLog self.new }
    {
        self.closed = self.closed.max(x);
        self.closed
    }

    /// Places a record of n words, 1 to P, at the tail, or at the start of the next page if the tail's page
    /// has fewer than n words left. Returns the address of its first word; the tail comes after its last one.
    ///
    /// Faults: `Size` if n is 0 or above P, `SpaceSpent` if the record would end above 2^48.
    pub fn allocate(&mut self, n: u64) -> Result<u64, Fault>
        ensures answer { let old = self.old
            in result ≡ unless_fault (size_fault old.page_size old.tail n)
            (place_of old.page_size old.tail n) }
        ensures effect { let old = self.old
            in self.new ≡ unless_refused (size_fault old.page_size old.tail n) old (allocated n old) }
        ensures above_tail { IfOk result (λ address. self.old.tail ≤ address) }
        ensures one_page { IfOk result (IsOnOnePage self.old.page_size n) }

        // A lower address at or above the tail has the record on two pages.
        ensures lowest { let old = self.old
            in IfOk result (λ address. (a : ℕ) → old.tail ≤ a → IsOnOnePage old.page_size n a → address ≤ a) }
        ensures rising { NoneFalls self.old self.new }
        ensures valid { IsLog self.new }
    {
        let address = self.place(n)?;
        self.allocate_at(address, n);
        Ok(address)
    }

    /// Places a record of n words at `address`, where `place` told that it would lie.
    pub fn allocate_at(&mut self, address: u64, n: u64)
        requires { let old = self.old
            in Ok address ≡ unless_fault (size_fault old.page_size old.tail n)
            (place_of old.page_size old.tail n) }
        ensures effect { self.new ≡ allocated n self.old }
        ensures rising { NoneFalls self.old self.new }
        ensures valid { IsLog self.new }
    {
        self.tail = address + n;
    }

    /// Returns where `allocate` would place a record of n words, or the fault that it would meet. Changes
    /// nothing.
    #[inline(always)]
    pub fn place(&self, n: u64) -> Result<u64, Fault>
        ensures answer { let now = self.now
            in result ≡ unless_fault (size_fault now.page_size now.tail n)
            (place_of now.page_size now.tail n) }
        ensures above_tail { IfOk result (λ address. self.now.tail ≤ address) }
        ensures one_page { IfOk result (IsOnOnePage self.now.page_size n) }
        ensures lowest { let now = self.now
            in IfOk result (λ address. (a : ℕ) → now.tail ≤ a → IsOnOnePage now.page_size n a → address ≤ a) }
        ensures valid { IsLog self.now }
    {
        if n == 0 || n > self.page_size {
            return Err(Fault::Size);
        }
        let address = self.place_for(n);
        if address + n > TAIL_MOST {
            return Err(Fault::SpaceSpent);
        }
        Ok(address)
    }

    // Where n words, at most P, lie on one page at or above the tail. P is a power of two, so the low bits of
    // the tail count the words before it on its page.
    #[inline(always)]
    fn place_for(&self, n: u64) -> u64
        requires { n ≤ self.now.page_size }
        ensures place { result ≡ place_of self.now.page_size self.now.tail n }
        ensures least { self.now.tail ≤ result }
        ensures most { result ≤ self.now.tail + self.now.page_size }
        ensures valid { IsLog self.now }
    {
        let before = self.tail & (self.page_size - 1);
        if before + n <= self.page_size {
            self.tail
        } else {
            self.tail - before + self.page_size
        }
    }

    /// The closed offset: nobody reads below it.
    pub fn closed(&self) -> u64
        ensures value { result ≡ self.now.closed }
        ensures valid { IsLog self.now }
    {
        self.closed
    }

    /// The head: pages below it are leaving memory, or have left it.
    pub fn head(&self) -> u64
        ensures value { result ≡ self.now.head }
        ensures valid { IsLog self.now }
    {
        self.head
    }

    /// The safe read-only offset: nobody writes below it.
    pub fn safe_read_only(&self) -> u64
        ensures value { result ≡ self.now.safe_read_only }
        ensures valid { IsLog self.now }
    {
        self.safe_read_only
    }

    /// The read-only offset: whoever has seen it does not write below it.
    pub fn read_only(&self) -> u64
        ensures value { result ≡ self.now.read_only }
        ensures valid { IsLog self.now }
    {
        self.read_only
    }

    /// The tail: the next record is placed here, or at the start of the next page.
    pub fn tail(&self) -> u64
        ensures value { result ≡ self.now.tail }
        ensures valid { IsLog self.now }
    {
        self.tail
    }

    /// Returns the offsets, with the caller's flushed offset among them. They are in order if it is a
    /// multiple of P between the head and the safe read-only offset.
    pub fn six(&self, flushed: u64) -> Six
        ensures value { result ≡ six_of self.now flushed }
        ensures in_order { let now = self.now
            in now.head ≤ flushed → flushed ≤ now.safe_read_only → flushed % now.page_size ≡ 0
            → AreInOrder now.page_size result }
        ensures valid { IsLog self.now }
    {
        Six {
            closed: self.closed,
            head: self.head,
            flushed,
            safe_read_only: self.safe_read_only,
            read_only: self.read_only,
            tail: self.tail,
        }
    }
}
