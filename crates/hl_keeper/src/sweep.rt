//! What riders do to the cells of a page that was taken: copies and sweeps.
ghost use Rattle.std.specs.Prelude.{◌≡◌, ◌+◌, ◌*◌, ◌^◌, ◌==◌, ◌≤◌, length, OnOk, OnErr};
ghost use Rattle.hl_model.specs.Replies.{unless_fault, unless_refused};
ghost use Rattle.hl_words.specs.States.{with_view};
ghost use Rattle.hl_keeper.specs.Calls.{unless_stranger};
ghost use Rattle.hl_keeper.specs.Pages.{first_cell, zeroed, loaded_all};

use crate::load::{Broom, PageJob};
use hl_model::{Fault, Sizes};
use hl_words::{Realm, Rider, Words, first_cell};

/// Loads the cells of a page into P places, as many as a page has words. It is meant for a page in
/// flight, by whoever has the job of its load. How the loads are ordered among other riders' stores
/// isn't known. Sizes and stamp are those of the keeper whose words these are.
///
/// `Stranger` if the page is of another domain than that of this stamp.
pub fn copy_page<L: Realm>(
    words: &Words<L>,
    params: Sizes,
    stamp: u64,
    job: PageJob,
    rider: &mut Rider<L>,
    out: &mut [u64],
) -> Result<(), Fault>
    requires cells { words.now.cells ≡ params.frames * params.page_size }
    requires places { length out.old ≡ params.page_size }
    ensures answer { result ≡ unless_fault (unless_stranger (job.stamp == stamp) stamp) tt }
    ensures loads { let first = first_cell params job.page
        in OnOk result (rider.new ≡ with_view (loaded_all first out.new rider.old.view) rider.old) }
    ensures refused { OnErr result ((rider.new ≡ rider.old) × (out.new ≡ out.old)) }
{
    if job.stamp != stamp {
        return Err(Fault::Stranger { stamp });
    }
    words.load_cells(rider, first_cell(params, job.page), out);
    Ok(())
}

/// Stores 0 into all cells of a broom's page; the broom is then swept. Sizes and stamp are those of
/// the keeper whose words these are.
///
/// `Stranger` if the page is of another domain than that of this stamp.
pub fn sweep<L: Realm>(
    words: &Words<L>,
    params: Sizes,
    stamp: u64,
    broom: &mut Broom,
    rider: &mut Rider<L>,
) -> Result<(), Fault>
    requires { words.now.cells ≡ params.frames * params.page_size }
    ensures answer { result ≡ unless_fault (unless_stranger (broom.old.stamp == stamp) stamp) tt }
    ensures broom { let old = broom.old
        in OnOk result (broom.new ≡ record { stamp = old.stamp; page = old.page; swept = params.page_size }) }
    ensures stores { let first = first_cell params broom.old.page
        in OnOk result (rider.new ≡ with_view (zeroed first params.page_size rider.old.view) rider.old) }
    ensures refused { OnErr result ((broom.new ≡ broom.old) × (rider.new ≡ rider.old)) }
{
    if broom.stamp() != stamp {
        return Err(Fault::Stranger { stamp });
    }
    let (first, places) = (first_cell(params, broom.page()), params.page_size());
    words.zero_cells(rider, first, places);
    broom.count(places);
    Ok(())
}
