/// What a protected thread knows of the log: it may write from its read-only offset up to its tail, and read
/// from its head up to its tail. All three are addresses, in words.
#[derive(Clone, Copy, Debug, Default, PartialEq, Eq)]
pub struct View {
    /// Writes below it are refused (FASTER's read-only offset, as this thread saw it).
    pub read_only: u64,
    /// Reads below it are refused.
    pub head: u64,
    /// Nothing is allocated from here on, as far as this thread knows.
    pub tail: u64,
}

/// The six offsets of a log, each an address in words. Those of a core are each at most the next.
#[derive(Clone, Copy, Debug, Default, PartialEq, Eq)]
pub struct Six {
    /// No slot's view lets it read or write below it: pages below may be cleaned.
    pub closed: u64,
    /// Pages below it are leaving memory.
    pub head: u64,
    /// All pages below it are flushed.
    pub flushed: u64,
    /// No slot's view lets it write below it: pages below may be flushed.
    pub safe_read_only: u64,
    /// Writes below it are refused to whoever has seen it.
    pub read_only: u64,
    /// The next record is placed here, or at the start of the next page.
    pub tail: u64,
}
