//! The rule of the table on which a history stands, and its steps.
use crate::view::{Room, SeatView};
use atomic_table::{Join, Play, Split, TableRule};
use std::marker::{Brand, PhantomData};

/// The rule that holds between any two steps.
pub struct ListRule;

impl TableRule<(), SeatView, Room> for ListRule {
    ghost use Rattle.hl_history.specs.Seats.{Holds, first_seat};

    ghost holds = { Holds };

    ghost first = { first_seat };
}

/// A look of the recorder's seat at what it knows.
pub struct Look;

impl Play<(), SeatView> for Look {
    ghost use Rattle.hl_history.specs.Seats.{Looks};

    ghost then = { Looks };
}

/// How the recorder's seat deals a record out, and takes one back in.
pub struct Deal;

impl Split<SeatView> for Deal {
    ghost use Rattle.hl_history.specs.Seats.{left_seat, right_seat};

    ghost left = { left_seat };

    ghost right = { right_seat };
}

impl Join<SeatView> for Deal {
    ghost use Rattle.hl_history.specs.Seats.{joined_seat, spent_seat};

    ghost both = { joined_seat };

    ghost spent = { spent_seat };
}

/// Steps that a call of a program picks.
pub trait Steps {
    ghost use Rattle.std.specs.Prelude.{List};
    ghost use Rattle.hl_model.specs.declared.step.Step.{Step};

    ghost steps: { List Step };
}

impl Steps for Brand {
    ghost use Rattle.std.specs.Prelude.{[]};

    ghost steps = { [] };
}

/// How the recorder's seat deals a record out, with a call of these steps as its newest.
pub struct Enter<S: Steps>(PhantomData<S>);

impl<S: Steps> Split<SeatView> for Enter<S> {
    ghost use Rattle.hl_history.specs.Seats.{left_with, right_with};

    ghost left = { left_with S.steps };

    ghost right = { right_with S.steps };
}
