//! The words of the epoch framework and the page allocator: sizes, steps, replies and faults. Beside them, in
//! `specs/`, what each reply and each quantity is for any list of steps. What holds of every accepted list is
//! `hl_laws`'.
//!
//! After FASTER (Chandramouli, Prasaad, Kossmann, Levandoski, Hunter, Barnett, SIGMOD 2018): the current and
//! the safe epoch, actions stored by a bump, and the offsets of the HybridLog.
//!
//! # Limits
//!
//! | | Narrow: [`Params`] | Wide: [`Sizes`] |
//! |---|---|---|
//! | words of a page, a power of two | 4 to 4,096 | 4 to 2^20 |
//! | frames | 2 to 256 | 2 to 2^16 |
//! | thread slots | 1 to 64 | 1 to 1,024 |
//! | actions that wait or are taken | 1 to 64 | 1 to 4,096 |
//! | words in all frames | 2^20: 8 MiB | 2^36: 512 GiB |
//!
//! Scripts and their slow form take narrow sizes, since a line of an answer has room for no more; all else
//! takes both, as what [`HasSizes`]. Two numbers end: epochs at [`EPOCH_LAST`], addresses at [`TAIL_MOST`].
//! At most [`EPOCH_WINDOW`] epochs have ended and are not safe. A step that would pass one of these is
//! refused.
#![tactic(auto)]

mod action;
mod address;
mod fault;
mod frame;
mod has_sizes;
mod limits;
mod params;
mod rows;
mod sizes;
mod slot;
mod snapshot;
mod step;
mod view;

pub use action::{Kind, Tag, Tagged, Waiting};
pub use address::{cell_of, page_of};
pub use fault::Fault;
pub use frame::{FrameState, Held};
pub use has_sizes::HasSizes;
pub use limits::{
    DRAIN_MOST, DRAIN_WIDE_MOST, EPOCH_LAST, EPOCH_WINDOW, FRAMES_LEAST, FRAMES_MOST,
    FRAMES_WIDE_MOST, PAGE_SIZE_LEAST, PAGE_SIZE_MOST, PAGE_SIZE_WIDE_MOST, SLOTS_MOST,
    SLOTS_WIDE_MOST, TAIL_MOST,
};
pub use params::Params;
pub use rows::{filled, with_room};
pub use sizes::{RawSizes, Sizes};
pub use slot::Slot;
pub use snapshot::Snapshot;
pub use step::{Reply, Step};
pub use view::{Six, View};
