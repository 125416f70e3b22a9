//! What the seats of the table know. It is told in proofs alone: a program makes no value of these types but
//! a `Room`.
use crate::which::Which;
use std::collections::LinkedList;

/// What a rider did without the lock, and its calls.
pub enum Touch {
    /// It stored the value into the cell.
    Stored { cell: u64, value: u64 },
    /// It loaded the value from the cell.
    Loaded { cell: u64, value: u64 },
    /// It found the one value in the cell and stored the other there, in one step: no store of another rider
    /// came between.
    Changed { cell: u64, found: u64, value: u64 },
    /// It made a call under the lock where the master lies: the one list was so far when the call met it, and
    /// so far after it. It changed no cell.
    Called { met: Extent, left: Extent },
    /// It loaded the value from this word of the master's.
    Looked { which: Which, value: u64 },
    /// It was told what the rider of this name had done, up to so many of its touches. It changed no cell.
    Met { name: u64, count: u64 },
}

/// How far the one list was at a moment: how many steps it had, and how many of them were cut.
pub struct Extent {
    pub steps: u64,
    pub cut: u64,
}

/// What a past tells: the rider of this name had made these touches, the newest first.
pub struct Known {
    pub name: u64,
    pub touches: LinkedList<Touch>,
}

/// Values of each of the master's words, the newest first: those that a rider loaded, or those that the
/// master stored. Offsets are in words of the log.
pub struct OffsetWords {
    pub read_only: LinkedList<u64>,
    pub head: LinkedList<u64>,
    pub ended: LinkedList<u64>,
    pub safe_read_only: LinkedList<u64>,
}

/// What a rider did.
pub struct RiderView {
    /// Its number among the riders of its seed, from 0: no two have the same.
    pub name: u64,
    /// All that it did, the newest first.
    pub touches: LinkedList<Touch>,
}

/// What one seat of the table knows: the master's knows its stores of its four words, and each seat the views
/// of the riders that it stands for. A rider's seat stands for that rider alone. The master's stands for
/// those that aren't dealt out yet, and at the end for all.
pub struct SeatView {
    pub offsets: OffsetWords,
    pub riders: LinkedList<RiderView>,
    /// The master's: how far the newest call left the one list.
    pub called: Extent,
    /// A past's: what it tells.
    pub known: LinkedList<Known>,
}

/// What a table is told when it is made: how many cells and how many riders it has.
#[derive(Clone, Copy)]
pub struct Room {
    pub cells: usize,
    pub riders: usize,
}
