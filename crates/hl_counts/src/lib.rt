//! A table of epochs that counts its slots by epoch, so that no call scans them.
//!
//! # The ring
//!
//! [`CountTable`] meets the trait `Epochs` of hl_epoch: S slots, the current epoch E, and W, the window.
//! Beside the row of the slots' epochs it keeps the epoch that comes next after the safe one, and a ring of W
//! + 1 counts. The place of an epoch e is e modulo W + 1, and it holds how many slots stand at e. The epochs
//! of protected slots are above the safe epoch and at most E. By the window these are at most W + 1 numbers
//! in a row, so no two of them share a place, and a place of none of them holds 0.
//!
//! Only the opening of a table divides. The places of E and of the epoch after the safe one are kept beside
//! them, and move up by one with them, from the ring's last place to its first. A slot's place is as far back
//! from E's as its epoch is from E.
//!
//! # Exact without a scan
//!
//! The safe epoch is the greatest one below E and below each protected slot's epoch. When a slot leaves an
//! epoch, its count there falls by one, and the safe epoch climbs. As long as the next epoch is below E and
//! its place holds 0, nobody stands there, and the climb passes it. A place that counts somebody stops it:
//! all epochs before that one were passed, so it is the least. What was passed need not be looked at again,
//! since a slot enters none but the current epoch. If nobody is protected the climb ends at E - 1, also after
//! a bump.
//!
//! # What a call costs
//!
//! A turn is one visit of a ring place, to look at its count or to change it, and is counted where the visit
//! is made. [`CountTable::turns`] tells the turns of the last accepted change. However many slots there are,
//! these are
//!
//! | Call | Turns |
//! |---|---|
//! | `acquire` | 1 |
//! | `refresh` | none if the slot stands at E; else 2 and its climb's: at most W + 2 |
//! | `release` | 1 and its climb's: at most W + 1 |
//! | `bump` | 1 |
//! | `current`, `safe`, `epoch_of` | none |
//!
//! A climb visits the places that it passes, and at most one more, at which it stops. The safe epoch passes
//! an epoch once, and only after the bump that ended it. So amortized it is one place a bump: with each
//! passed place charged to the bump that ended its epoch, a refresh has at most 3 turns left, and a release
//! 2.
//!
//! # What a contract sees
//!
//! The table as the trait's contracts see it, and the turns (`Counted`). No call after opening takes memory:
//! the row and the ring keep what opening took, no more and no less.
#![tactic(auto)]

mod count_table;
mod placed;
mod ring;

pub use count_table::CountTable;
