ghost use Rattle.std.specs.Prelude.{◌≡◌};
ghost use Rattle.hl_crew.specs.Counting.{nothing, counted, one_stranger, counted_with};

/// How many flushes were answered as ended well, and how many not; and how many acknowledgements named a page that
/// wasn't in the pouch.
#[derive(Clone, Copy)]
pub(crate) struct Counts {
    pub(crate) written: u64,
    pub(crate) failed: u64,
    pub(crate) strangers: u64,
}

impl Counts {
    /// Returns counts of nothing.
    pub(crate) fn none() -> Counts
        ensures { result ≡ nothing }
    {
        Counts {
            written: 0,
            failed: 0,
            strangers: 0,
        }
    }

    /// Counts a flush that was answered.
    pub(crate) fn count(&mut self, ok: bool)
        ensures { self.new ≡ counted ok self.old }
    {
        if ok {
            self.written = self.written.saturating_add(1);
        } else {
            self.failed = self.failed.saturating_add(1);
        }
    }

    /// Counts an acknowledgement of a page that isn't in the pouch.
    pub(crate) fn count_stranger(&mut self)
        ensures { self.new ≡ one_stranger self.old }
    {
        self.strangers = self.strangers.saturating_add(1);
    }

    /// Returns what both counted.
    pub(crate) fn with(self, other: Counts) -> Counts
        ensures { result ≡ counted_with self other }
    {
        Counts {
            written: self.written.saturating_add(other.written),
            failed: self.failed.saturating_add(other.failed),
            strangers: self.strangers.saturating_add(other.strangers),
        }
    }
}
