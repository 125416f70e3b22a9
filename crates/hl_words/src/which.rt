/// One of the four words, which only the master stores.
#[derive(Clone, Copy, Debug, PartialEq, Eq)]
pub enum Which {
    /// The read-only offset.
    ReadOnly,
    /// The head offset.
    Head,
    /// The last epoch that ended.
    Ended,
    /// The safe read-only offset.
    SafeReadOnly,
}

/// Where the cells begin. Calls under the lock and pasts load the row's first word, and any thread may store
/// into a cell. So eight words (a line of a cache) lie unused before the first cell: else such a load would
/// contend with stores.
pub(crate) const FIRST: usize = 8;

/// Where each of the four words lies, the number of cells not counted. All threads load them, and any thread
/// may store into the last cell, so eight words lie between. The four are stored seldom, and loaded together.
pub(crate) const READ_ONLY_AT: usize = FIRST + 8;

pub(crate) const HEAD_AT: usize = FIRST + 9;

pub(crate) const ENDED_AT: usize = FIRST + 10;

pub(crate) const SAFE_READ_ONLY_AT: usize = FIRST + 11;

/// How many words the row has beside the cells: seven more behind the four, which fill the last one's line.
pub(crate) const MORE: usize = FIRST + 19;
