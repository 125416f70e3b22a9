//! The rule of the table on which the words stand, and its steps.
use crate::view::{Room, SeatView};
use atomic_table::{Join, Play, Split, TableRule};
use std::marker::{Brand, PhantomData};

/// The rule that holds between any two steps.
pub struct WordRule;

impl TableRule<(), SeatView, Room> for WordRule {
    ghost use Rattle.hl_words.specs.Seats.{Holds, first_seat};

    ghost holds = { Holds };

    ghost first = { first_seat };
}

/// A rider's store into a cell.
pub struct StoreCell;

impl Play<(), SeatView> for StoreCell {
    ghost use Rattle.hl_words.specs.Seats.{Stores};

    ghost then = { Stores };
}

/// A rider's load of a cell.
pub struct LoadCell;

impl Play<(), SeatView> for LoadCell {
    ghost use Rattle.hl_words.specs.Seats.{Loads};

    ghost then = { Loads };
}

/// A rider's add of a number to a cell, in one step.
pub struct AddCell;

impl Play<(), SeatView> for AddCell {
    ghost use Rattle.hl_words.specs.Seats.{Adds};

    ghost then = { Adds };
}

/// A rider's store into a cell if another value stands there, in one step.
pub struct ExchangeCell;

impl Play<(), SeatView> for ExchangeCell {
    ghost use Rattle.hl_words.specs.Seats.{Exchanges};

    ghost then = { Exchanges };
}

/// A rider's load of the read-only word.
pub struct LoadReadOnly;

impl Play<(), SeatView> for LoadReadOnly {
    ghost use Rattle.hl_words.specs.Seats.{Looks};
    ghost use Rattle.hl_words.specs.declared.which.Which.TheVariants.{ReadOnly};

    ghost then = { Looks ReadOnly };
}

/// A rider's load of the head word.
pub struct LoadHead;

impl Play<(), SeatView> for LoadHead {
    ghost use Rattle.hl_words.specs.Seats.{Looks};
    ghost use Rattle.hl_words.specs.declared.which.Which.TheVariants.{Head};

    ghost then = { Looks Head };
}

/// A rider's load of the word of the last epoch that ended.
pub struct LoadEnded;

impl Play<(), SeatView> for LoadEnded {
    ghost use Rattle.hl_words.specs.Seats.{Looks};
    ghost use Rattle.hl_words.specs.declared.which.Which.TheVariants.{Ended};

    ghost then = { Looks Ended };
}

/// A rider's load of the word of the safe read-only offset.
pub struct LoadSafeReadOnly;

impl Play<(), SeatView> for LoadSafeReadOnly {
    ghost use Rattle.hl_words.specs.Seats.{Looks};
    ghost use Rattle.hl_words.specs.declared.which.Which.TheVariants.{SafeReadOnly};

    ghost then = { Looks SafeReadOnly };
}

/// The master's store of the word of the safe read-only offset.
pub struct StoreSafeReadOnly;

impl Play<(), SeatView> for StoreSafeReadOnly {
    ghost use Rattle.hl_words.specs.Seats.{Sets};
    ghost use Rattle.hl_words.specs.declared.which.Which.TheVariants.{SafeReadOnly};

    ghost then = { Sets SafeReadOnly };
}

/// The master's store of the word of the last epoch that ended.
pub struct StoreEnded;

impl Play<(), SeatView> for StoreEnded {
    ghost use Rattle.hl_words.specs.Seats.{Sets};
    ghost use Rattle.hl_words.specs.declared.which.Which.TheVariants.{Ended};

    ghost then = { Sets Ended };
}

/// The master's store of the read-only word.
pub struct StoreReadOnly;

impl Play<(), SeatView> for StoreReadOnly {
    ghost use Rattle.hl_words.specs.Seats.{Sets};
    ghost use Rattle.hl_words.specs.declared.which.Which.TheVariants.{ReadOnly};

    ghost then = { Sets ReadOnly };
}

/// The master's store of the head word.
pub struct StoreHead;

impl Play<(), SeatView> for StoreHead {
    ghost use Rattle.hl_words.specs.Seats.{Sets};
    ghost use Rattle.hl_words.specs.declared.which.Which.TheVariants.{Head};

    ghost then = { Sets Head };
}

/// A load that makes a seat which stands for nobody.
pub struct LoadBlank;

impl Play<(), SeatView> for LoadBlank {
    ghost use Rattle.hl_words.specs.Seats.{Blanks};

    ghost then = { Blanks };
}

/// How a rider's seat gives its past, and is told another's.
pub struct Tell;

impl Split<SeatView> for Tell {
    ghost use Rattle.hl_words.specs.Seats.{same_seat, shown_seat};

    ghost left = { same_seat };

    ghost right = { shown_seat };
}

impl Join<SeatView> for Tell {
    ghost use Rattle.hl_words.specs.Seats.{told_seat, spent_seat};

    ghost both = { told_seat };

    ghost spent = { spent_seat };
}

/// How the master's seat takes a past back.
pub struct Attest;

impl Join<SeatView> for Attest {
    ghost use Rattle.hl_words.specs.Seats.{attested_seat, spent_seat};

    ghost both = { attested_seat };

    ghost spent = { spent_seat };
}

/// How a past's seat gives another.
pub struct Again;

impl Split<SeatView> for Again {
    ghost use Rattle.hl_words.specs.Seats.{same_seat, copied_seat};

    ghost left = { same_seat };

    ghost right = { copied_seat };
}

/// How far a call left the one list, which a program picks.
pub trait Place {
    ghost use Rattle.hl_words.specs.declared.view.Extent.{Extent};

    ghost left: { Extent };
}

impl Place for Brand {
    ghost use Rattle.hl_words.specs.Views.{no_extent};

    ghost left = { no_extent };
}

/// How the master's seat deals a rider out that made a call which left the list so far.
pub struct CallAt<S: Place>(PhantomData<S>);

impl<S: Place> Split<SeatView> for CallAt<S> {
    ghost use Rattle.hl_words.specs.Seats.{left_called, right_called};

    ghost left = { left_called S.left };

    ghost right = { right_called S.left };
}

/// How the master's seat deals a rider out, and takes one back in.
pub struct Deal;

impl Split<SeatView> for Deal {
    ghost use Rattle.hl_words.specs.Seats.{left_seat, right_seat};

    ghost left = { left_seat };

    ghost right = { right_seat };
}

impl Join<SeatView> for Deal {
    ghost use Rattle.hl_words.specs.Seats.{joined_seat, spent_seat};

    ghost both = { joined_seat };

    ghost spent = { spent_seat };
}
