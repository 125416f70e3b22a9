ghost use Rattle.std.specs.Prelude.{◌≡◌, List};
ghost use Rattle.hl_model.specs.declared.step.Step.{Step as STEP};
ghost use Rattle.hl_core.specs.Standing.{Stands};
ghost use Rattle.hl_c_log.specs.Holders.{holder_told, holder_of};

use arrayvec::ArrayVec;
use hl_answers::Outcome;
use hl_core::{Core, Holder};
use hl_counts::CountTable;
use hl_model::Tag;

/// The slot at a place among those that hold the oldest pending action up. A core has at most 1,024 slots.
pub(crate) fn holder_at(core: &Core<CountTable, Tag>, place: u64) -> Outcome
    ensures { (A : List STEP) → Stands (λ t. t.0) core.now A
        → result ≡ holder_told core.now.sizes.slots A place }
{
    let mut row: ArrayVec<Holder, 1024> = ArrayVec::new();
    let ticket = core.holders(&mut row);
    told(row.as_slice(), ticket, place)
}

/// The one at a place of a row, if there is one.
fn told(row: &[Holder], ticket: Option<u64>, place: u64) -> Outcome
    ensures { result ≡ holder_of row.now ticket place }
{
    let count = row.len() as u64;
    match (ticket, row.get(place as usize)) {
        (Some(ticket), Some(holder)) => {
            Outcome::accepted(holder.slot, holder.epoch, ticket, count)
        }
        _ => Outcome::out_of_range(),
    }
}
