/// Where an address below the tail lies, to a pass: FASTER's four regions of the log.
#[derive(Clone, Copy, Debug, PartialEq, Eq)]
pub enum Region {
    /// Not below the read-only offset that the pass saw: it may store there.
    Mutable,
    /// Below that, but not yet below the safe read-only offset: a pass of an older view may still store there.
    Fuzzy,
    /// Below the safe read-only offset: no pass stores there any more.
    ReadOnly,
    /// Below the head that the pass saw: its page is on the device, and it may not load there.
    Evicted,
}
