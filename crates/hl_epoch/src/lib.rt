//! The table of epochs: which threads are protected, since which epoch, and up to which epoch all is safe.
//!
//! # Slots
//!
//! A thread is known by its slot, a number below S. It acquires the slot before it uses what is shared,
//! refreshes it from time to time, and releases it when it has done. In between the slot is protected, and
//! has an epoch. Which thread has which slot is for the caller to settle: the table answers that a slot
//! does not exist, is protected already, or is not protected, and knows nothing of threads.
//!
//! # Epochs
//!
//! One number is common to all, the current epoch E. It begins at 1, and each bump raises it by one, up to
//! 2^62. An acquire and a refresh make E the slot's own epoch, E_t. It witnesses that the slot's thread has
//! entered since the bump that made E_t current. What the thread read before it entered it may not use
//! again: that is the caller's part.
//!
//! # The safe epoch
//!
//! An epoch c is safe if every protected slot's epoch is above c: each of these threads has entered since the
//! bump that ended c, and a thread without a protected slot uses nothing. The safe epoch is the greatest of
//! the safe ones: the least E_t less 1, or E - 1 if nobody is protected. It witnesses that what was put out
//! of reach before the bump that ended it is used by nobody any more. It is exact after every call, it never
//! falls, and always `safe < E_t <= E`, as in FASTER (Chandramouli, Prasaad, Kossmann, Levandoski, Hunter,
//! Barnett, SIGMOD 2018, the section on its epoch protection framework).
//!
//! # Bumps and the window
//!
//! A bump ends an epoch c, and returns that number. Its caller may store an action under it, the action's
//! ticket, to be taken once c is safe. A bare bump stores none: it only raises the epoch. The actions and the
//! list that keeps them are the caller's.
//!
//! The window W, 1 to 4,096, bounds the epochs that have ended and are not safe: `current - 1 - safe` is at
//! most W. A bump makes one more, so it wants `current - 1 - safe < W`; whoever bumps sees to it, by asking
//! the table. So the slots' epochs are among the W + 1 numbers up to the current one, and a table may count
//! slots by epoch in a ring of W + 1 places in place of a scan of its slots.
//!
//! # What a contract sees
//!
//! [`Epochs`] is the table as callers use it. Its clauses see a plain record: the current epoch, each slot's
//! epoch, and W. Each answer and each change is an equation on that record, and beside it each call tells
//! what is true of every table (`IsTable`), and each change that the safe epoch did not fall. [`ScanTable`]
//! is a row of slots, scanned for the least epoch. Its row has the memory that opening took, no more and no
//! less, from then on.
//!
//! docs/MAP.md tells where this differs from FASTER's LightEpoch.
#![tactic(auto)]

mod epochs;
mod scan;

pub use epochs::Epochs;
pub use hl_model::EPOCH_LAST;
pub use scan::ScanTable;
