ghost use Rattle.std.specs.Prelude.{◌≡◌, ◌+◌, ◌-◌, ◌/◌, ◌<◌, ◌≤◌, ◌^◌, ◌⊎◌, None, IfSome};
ghost use Rattle.hl_keeper.specs.Leases.{StaysOnPage};

use std::marker::Model;

/// A piece of the log, from which records are taken one behind the other without the lock: the usual way to place small
/// records. A domain's `lease` places one. It is two numbers of words, and gives no right: each store still asks the
/// pass. What is left of it may be dropped; nobody else gets the words of a piece that was placed.
#[derive(Drop)]
pub struct Lease {
    next: u64,
    end: u64,
}

impl Model for Lease {
    ghost use Rattle.std.specs.Prelude.{◌≤◌, ◌^◌};
    ghost use Rattle.hl_keeper.specs.Leases.{LeaseRecord};

    ghost Value = { LeaseRecord };

    ghost view = { λ l. record { next = l.next; end = l.end } };

    ghost invariant = { λ l. (l.next ≤ l.end) × (l.end ≤ 2 ^ 48) };
}

impl Lease {
    /// The piece of n words at this address, whoever placed it: that an allocation did is for the caller to see to.
    pub fn of(address: u64, n: u64) -> Lease
        requires { address + n ≤ 2 ^ 48 }
        ensures { result ≡ record { next = address; end = address + n } }
    {
        Lease {
            next: address,
            end: address + n,
        }
    }

    /// Takes a record of n words from the front of what is left; returns the address of its first
    /// word. It lies in the piece, behind all records taken before, and on one page if the piece
    /// does. `None` if n is 0 or more than is left: then nothing was taken.
    #[inline(always)]
    pub fn take(&mut self, n: u64) -> Option<u64>
        ensures taken { let old = self.old
            in IfSome result (λ a. (a ≡ old.next) × (0 < n) × (a + n ≤ old.end)
            × (self.new ≡ record { next = a + n; end = old.end })) }
        ensures none { let old = self.old
            in result ≡ None → (self.new ≡ old) × ((n ≡ 0) ⊎ (old.end < old.next + n)) }
        ensures on_page { IfSome result (λ a. StaysOnPage self.old a n) }
    {
        if n == 0 || self.end - self.next < n {
            return None;
        }
        let address = self.next;
        self.next += n;
        Some(address)
    }

    /// How many words are left.
    pub fn left(&self) -> u64
        ensures { result ≡ self.now.end - self.now.next }
    {
        self.end - self.next
    }
}
