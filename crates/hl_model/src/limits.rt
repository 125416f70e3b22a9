/// The least number of words of a page, P.
pub const PAGE_SIZE_LEAST: u64 = 4;

/// The greatest number of words of a page, narrow: 32 KiB.
pub const PAGE_SIZE_MOST: u64 = 4096;

/// The greatest number of words of a page, wide: 8 MiB.
pub const PAGE_SIZE_WIDE_MOST: u64 = 1 << 20;

/// The least number of frames, F.
pub const FRAMES_LEAST: u64 = 2;

/// The greatest number of frames, narrow.
pub const FRAMES_MOST: u64 = 256;

/// The greatest number of frames, wide.
pub const FRAMES_WIDE_MOST: u64 = 1 << 16;

/// The greatest number of thread slots, S, narrow. The least is 1.
pub const SLOTS_MOST: u64 = 64;

/// The greatest number of thread slots, wide.
pub const SLOTS_WIDE_MOST: u64 = 1024;

/// The greatest number of places in the drain list, D, narrow. The least is 1.
pub const DRAIN_MOST: u64 = 64;

/// The greatest number of places in the drain list, wide: the window.
pub const DRAIN_WIDE_MOST: u64 = EPOCH_WINDOW;

/// The greatest tail, an address in words: no record ends above it, and each word's address is below it.
pub const TAIL_MOST: u64 = 1 << 48;

/// The last epoch: none comes after it.
pub const EPOCH_LAST: u64 = 1 << 62;

/// How many epochs at most have ended and are not safe.
pub const EPOCH_WINDOW: u64 = 4096;
