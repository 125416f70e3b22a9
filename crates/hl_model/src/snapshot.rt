use crate::view::Six;

/// The quantities of an allocator at one moment.
#[derive(Clone, Copy, Debug, PartialEq, Eq)]
pub struct Snapshot {
    /// The current epoch.
    pub epoch: u64,
    /// The safe epoch.
    pub safe: u64,
    /// How many slots are protected.
    pub protected: u64,
    /// How many actions are pending.
    pub pending: u64,
    /// How many actions are taken and not done.
    pub taken: u64,
    /// The six offsets, addresses.
    pub six: Six,
    /// How many frames are open, sealed, flushed, closed and free, in this order.
    pub frames: [u64; 5],
}
