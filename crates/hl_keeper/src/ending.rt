use hl_action::{Kept, Promise, Task};
use hl_drain::Drain;
use hl_laws::Base;
use hl_model::{Snapshot, Step};
use hl_words::LastWords;
use std::marker::Model;

/// What is left of a domain at its end.
pub struct Ending<F: Task, P: Promise> {
    /// The base of the steps that were cut.
    pub base: Base,
    /// How many steps were cut in all.
    pub cut: u64,
    /// The steps since the last cut, in the order in which they entered.
    pub journal: Vec<Step>,
    /// The actions that were never taken, which its `give_up` returns, and the tickets of those
    /// taken and not done.
    pub left: Drain<Kept<F, P>>,
    /// All quantities.
    pub snapshot: Snapshot,
    /// What the words hold: the cells, and the master's four.
    pub words: LastWords,
}

impl<F: Task, P: Promise> Model for Ending<F, P> {
    ghost use Rattle.hl_keeper.specs.Endings.{EndingState};

    ghost Value = { EndingState F };

    ghost view = { λ e. record {
      base = e.base;
      cut = e.cut;
      journal = e.journal.items;
      left = e.left;
      snapshot = e.snapshot;
      words = e.words;
    } };
}

impl<F: Task, P: Promise> Drop for Ending<F, P> {
    fn drop(self) {
        let Ending {
            base: _,
            cut: _,
            journal: _,
            left: _,
            snapshot: _,
            words: _,
        } = self;
    }
}
