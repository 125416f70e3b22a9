use crate::view::View;

/// What a protected slot has: its epoch, and what its thread knows of the log.
#[derive(Clone, Copy, Debug, Default, PartialEq, Eq)]
pub struct Slot {
    /// The current epoch at its last acquire or refresh.
    pub epoch: u64,
    /// What it saw of the offsets, then or later.
    pub view: View,
}
