ghost use Rattle.std.specs.Prelude.{◌≡◌, List, IfOk, IfErr, is_some, length, if◌then◌else◌, replicate, slice_index_or, vec_capacity};
ghost use Rattle.hl_model.specs.declared.fault.Fault.TheVariants.{OutOfMemory};
ghost use Rattle.hl_model.specs.declared.step.Step.{Step};
ghost use Rattle.hl_model.specs.Replies.{unless_fault};
ghost use Rattle.hl_core.specs.Standing.{Stands};
ghost use Rattle.hl_pass.specs.Calls.{origin_fault, stranger_fault};
ghost use Rattle.hl_pass.specs.Stamps.{next_stamp, stamp_at, IsGiven};
ghost use Rattle.hl_pass.specs.Views.{has_view};

use crate::pass_view::PassView;
use hl_core::Core;
use hl_epoch::Epochs;
use hl_model::{Fault, Tagged, View, filled};
use std::alloc::Global;

/// The stamp of each slot, beside the core of a log. The k-th acquire gives its slot the log's own stamp and
/// k more, so no two passes have the same. The row never grows.
#[derive(Drop)]
pub struct Stamps {
    pub(crate) row: Vec<u64>,
    // The log's own.
    pub(crate) own: u64,
    // How many were given.
    pub(crate) given: u64,
}

impl Stamps {
    /// Those of a log with this stamp and so many slots: none was given.
    ///
    /// `OutOfMemory` if memory was refused.
    pub fn open(alloc: Global, slots: u64, own: u64) -> Result<Stamps, Fault>
        ensures row { IfOk result (λ stamps. stamps.row.items ≡ replicate slots 0) }
        ensures len { IfOk result (λ stamps. length stamps.row.items ≡ slots) }
        ensures room { IfOk result (λ stamps. vec_capacity stamps.row ≡ slots) }
        ensures counts { IfOk result (λ stamps. (stamps.own ≡ own) × (stamps.given ≡ 0)) }
        ensures memory { IfErr result (λ fault. fault ≡ OutOfMemory) }
    {
        let row = filled(alloc, slots, 0)?;
        Ok(Stamps { row, own, given: 0 })
    }

    /// The log's own stamp.
    #[inline(always)]
    pub fn own(&self) -> u64
        ensures { result ≡ self.now.own }
    {
        self.own
    }

    /// Gives slot t the next stamp, and returns it.
    #[inline(always)]
    pub fn give(&mut self, t: u64) -> u64
        ensures stamp { result ≡ next_stamp self.old }
        ensures given { IsGiven self.old t self.new }
    {
        self.given = self.given.wrapping_add(1);
        let stamp = self.own.wrapping_add(self.given);
        if let Some(place) = self.row.get_mut(t as usize) {
            *place = stamp;
        }
        stamp
    }

    /// The stamp of slot t, or 0 if it is empty.
    #[inline(always)]
    pub fn at<E: Epochs, J: Tagged>(&self, core: &Core<E, J>, t: u64) -> u64
        ensures { (A : List Step) → Stands J.tag core.now A
            → result ≡ stamp_at core.now.sizes self.now.row.items A t }
    {
        stamp_of(&self.row, t, core.view(t))
    }

    /// Whether the pass is the one to which its slot belongs.
    ///
    /// `Stranger`, with the slot's stamp, if it isn't.
    #[inline(always)]
    pub fn known<E: Epochs, J: Tagged>(
        &self,
        core: &Core<E, J>,
        pass: &PassView,
    ) -> Result<(), Fault>
        ensures { (A : List Step) → Stands J.tag core.now A
            → result ≡ unless_fault (stranger_fault core.now.sizes self.now.row.items A pass.now) tt }
    {
        let view = core.view(pass.slot);
        let stamp = stamp_of(&self.row, pass.slot, view);
        if has_view(view, pass.held) && stamp == pass.stamp {
            Ok(())
        } else {
            Err(Fault::Stranger { stamp })
        }
    }

    /// Whether something of this origin is of this log.
    ///
    /// `Stranger`, with the log's stamp, if it isn't.
    pub fn is_of(&self, origin: u64) -> Result<(), Fault>
        ensures { result ≡ unless_fault (origin_fault self.now.own origin) tt }
    {
        if origin == self.own {
            Ok(())
        } else {
            Err(Fault::Stranger { stamp: self.own })
        }
    }
}

/// What the row of stamps has for a slot with this view, or 0 if it is empty.
#[inline(always)]
fn stamp_of(row: &[u64], t: u64, view: Option<View>) -> u64
    ensures { result ≡ (if is_some view then slice_index_or row.now t 0 else 0) }
{
    match (view, row.get(t as usize)) {
        (Some(_), Some(stamp)) => *stamp,
        _ => 0,
    }
}

/// Whether a slot has this view.
#[inline(always)]
fn has_view(view: Option<View>, held: View) -> bool
    ensures { result ≡ has_view view held }
{
    match view {
        Some(view) => {
            view.read_only == held.read_only && (view.head == held.head && view.tail == held.tail)
        }
        None => false,
    }
}
