//! The slots' views.
ghost use Rattle.std.specs.Prelude.{◌≡◌, ◌<◌, ◌≤◌, count_by, is_none, is_some, length, replicate, slice_index_or, slice_set, IfOk, IfErr, MatchOption};
ghost use Rattle.std.specs.List.{position};
ghost use Rattle.std.specs.declared.option.Option.TheVariants.{None as NONE};

use hl_model::{Fault, View, filled};
use std::alloc::Global;
use std::marker::Model;

/// A slot's view, if the slot is protected, on lines of a cache without another's: threads whose slots are neighbours
/// write side by side.
#[derive(Clone, Copy)]
struct Row {
    view: Option<View>,
    apart: [u64; 12],
}

/// What each slot saw of the offsets, if it is protected. There is a place for each slot, and no room beside.
#[derive(Drop)]
pub(crate) struct Views {
    rows: Vec<Row>,
}

impl Model for Views {
    ghost use Rattle.std.specs.Prelude.{◌≡◌, Option, List, map, vec_len, vec_capacity};
    ghost use Rattle.hl_model.specs.declared.view.View.{View as VIEW};

    ghost Value = { List (Option VIEW) };

    ghost view = { λ v. map (λ r. r.view) v.rows.items };

    ghost invariant = { λ v. vec_capacity v.rows ≡ vec_len v.rows };
}

impl Views {
    /// Those of so many slots, none of which is protected.
    ///
    /// `OutOfMemory` if memory was refused.
    pub(crate) fn open(alloc: Global, slots: u64) -> Result<Views, Fault>
        ensures ok { IfOk result (λ views. views ≡ replicate slots NONE) }
        ensures err { IfErr result (λ fault. fault ≡ Fault.OutOfMemory) }
    {
        let row = Row {
            view: None,
            apart: [0; 12],
        };
        Ok(Views {
            rows: filled(alloc, slots, row)?,
        })
    }

    /// What slot t has; `None` if there is no such slot.
    #[inline(always)]
    pub(crate) fn get(&self, t: u64) -> Option<Option<View>>
        ensures { MatchOption result (length self.now ≤ t)
            (λ view. (t < length self.now) × (slice_index_or self.now t NONE ≡ view)) }
    {
        match self.rows.get(t as usize) {
            Some(row) => Some(row.view),
            None => None,
        }
    }

    /// Replaces what slot t has.
    #[inline(always)]
    pub(crate) fn set(&mut self, t: u64, view: Option<View>)
        requires { t < length self.old }
        ensures { self.new ≡ slice_set self.old t view }
    {
        self.rows[t as usize].view = view;
    }

    /// The first slot that isn't protected, if there is one.
    pub(crate) fn first_free(&self) -> Option<usize>
        ensures { result ≡ position is_none self.now }
    {
        self.rows.iter().position(|row| row.view.is_none())
    }

    /// How many slots are protected.
    pub(crate) fn protected(&self) -> u64
        ensures { result ≡ count_by is_some self.now }
    {
        self.rows.iter().filter(|row| row.view.is_some()).count() as u64
    }
}
