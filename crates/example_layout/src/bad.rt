//! Why words or pages aren't as they should be.
use thiserror::Error;

/// Why nothing lies at a place in a log's words.
#[derive(Clone, Copy, Debug, PartialEq, Eq, Error)]
pub enum Bad {
    /// A header says that the record has no byte.
    #[error("a header of no byte")]
    Empty,
    /// A header says that the record has more words than there are.
    #[error("a record that is longer than what is left")]
    Long,
    /// Behind a record's bytes there is no byte 1, or not zeros alone behind that.
    #[error("a record without its end")]
    End,
}

/// Why the records of a log's words can't be told further.
#[derive(Clone, Copy, Debug, PartialEq, Eq, Error)]
pub enum Trouble {
    #[error("out of memory")]
    OutOfMemory,
    /// No piece of a log begins there.
    #[error("{0}")]
    Broken(Bad),
}

/// Why a page of a file is bad.
#[derive(Clone, Copy, Debug, PartialEq, Eq, Error)]
pub enum BadPage {
    /// It has fewer bytes than the image of a page.
    #[error("too few bytes")]
    Length,
    /// It begins with this number instead of its own.
    #[error("the number {0}")]
    Number(u64),
    /// At this address, none of the pieces of a log begins.
    #[error("at address {0}: {1}")]
    Record(u64, Bad),
}

/// Why a file can't be read.
#[derive(Clone, Copy, Debug, PartialEq, Eq, Error)]
pub enum Unreadable {
    #[error("out of memory")]
    OutOfMemory,
    /// The page of this number is bad.
    #[error("page {0}: {1}")]
    Page(u64, BadPage),
}
