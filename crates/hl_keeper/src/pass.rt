ghost use Rattle.std.specs.Prelude.{◌≡◌, []};
ghost use Rattle.hl_keeper.specs.Passes.{seen, new_pass};

use crate::touches::Touches;
use hl_model::{Slot, View};
use hl_pass::PassView;
use hl_words::{Realm, Rider};
use std::marker::Model;

/// The right of a rider to act for the slot that it acquired: to look at the offsets, and to store and load
/// words, with no lock. What it did since its last locked call, its touches, enters the journal at the next.
#[derive(Drop)]
pub struct Pass<L: Realm> {
    pub(crate) own: PassView,
    pub(crate) touches: Touches,
    pub(crate) rider: Rider<L>,
}

impl<L: Realm> Model for Pass<L> {
    ghost use Rattle.std.specs.Prelude.{◌≡◌};
    ghost use Rattle.hl_keeper.specs.Touches.{view_after, AreTouches};
    ghost use Rattle.hl_keeper.specs.Passes.{PassRecord};
    ghost use Rattle.hl_keeper.specs.Parts.{pass_of};

    ghost Value = { PassRecord };

    ghost view = { λ p. pass_of p.own p.touches p.rider };

    ghost invariant = { λ p. (p.own.view ≡ view_after p.own.held p.touches)
        × AreTouches p.own.slot p.own.held p.touches };
}

impl<L: Realm> Pass<L> {
    ghost use Rattle.std.specs.Borrow.{sem};
    ghost use Rattle.hl_keeper.specs.Lending.{LendsRider};

    /// A pass that did nothing yet.
    pub(crate) fn new(t: u64, stamp: u64, slot: Slot, rider: Rider<L>) -> Pass<L>
        ensures { result ≡ new_pass t stamp slot rider }
    {
        let own = PassView {
            slot: t,
            stamp,
            epoch: slot.epoch,
            held: slot.view,
            view: slot.view,
        };
        Pass {
            own,
            touches: Touches::new(),
            rider,
        }
    }

    /// Replaces its epoch and its view by these, and drops its touches, which have entered the journal.
    #[inline(always)]
    pub(crate) fn rest(&mut self, epoch: u64, view: View)
        ensures { let old = self.old
            in self.new ≡ record {
              slot = old.slot;
              stamp = old.stamp;
              epoch = epoch;
              held = view;
              touches = [];
              rider = old.rider;
            } }
    {
        self.own.rest(epoch, view);
        self.touches.clear();
    }

    /// The slot for which it acts.
    pub fn slot(&self) -> u64
        ensures { result ≡ self.now.slot }
    {
        self.own.slot
    }

    /// Its stamp, which the acquire gave it: the k-th acquire of a domain gives the domain's stamp
    /// plus k.
    pub fn stamp(&self) -> u64
        ensures { result ≡ self.now.stamp }
    {
        self.own.stamp
    }

    /// The epoch of its slot: the one that was current at its last acquire or refresh.
    pub fn epoch(&self) -> u64
        ensures { result ≡ self.now.epoch }
    {
        self.own.epoch
    }

    /// What its slot has seen: the view of its last locked call, after its looks since.
    pub fn view(&self) -> View
        ensures { result ≡ seen self.now }
    {
        self.own.view
    }

    /// Its rider.
    pub fn rider(&self) -> &Rider<L>
        ensures { result.now ≡ self.now.rider }
    {
        &self.rider
    }

    /// Lends its rider, for the calls that need one: so a protected thread may bump, cut, take and
    /// raise. Slot, stamp, view and touches stay as they are: the touches enter at the pass's next
    /// locked call, behind the steps that the rider makes meanwhile. No action that these store is
    /// safe before, since the slot's epoch stays too.
    pub fn rider_mut(&mut self) -> &mut Rider<L>
        ensures value { result.now ≡ self.old.rider }
        ensures* writes_back { sem 𝓛 (LendsRider L.row
            (record { table = L.table; sizes = L.sizes; stamp = L.stamp; limit = L.limit })
            L.Ledger self.entry result) }
    {
        &mut self.rider
    }

    /// Ends the pass, and returns its rider. If its slot wasn't released, it stays protected for
    /// good, and the touches never enter the journal.
    pub fn abandon(self) -> Rider<L>
        ensures { result ≡ self.rider }
    {
        let Pass {
            own: _,
            touches: _,
            rider,
        } = self;
        rider
    }
}
