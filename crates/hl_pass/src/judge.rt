//! What a view allows, and what is new to it.
ghost use Rattle.std.specs.Prelude.{◌≡◌};
ghost use Rattle.hl_model.specs.Replies.{unless_fault};
ghost use Rattle.hl_pass.specs.Views.{beyond_fault, store_fault, load_fault, rises, raised, is_current};

use crate::news::News;
use hl_model::{Fault, View};

/// Tells whether a word may be stored at an address.
///
/// Faults: `Below` if the address is below the view's read-only offset, `Beyond` if it isn't below its tail.
#[inline(always)]
pub fn may_store(view: View, address: u64) -> Result<(), Fault>
    ensures { result ≡ unless_fault (store_fault view address) tt }
{
    if address < view.read_only {
        return Err(Fault::Below {
            read_only: view.read_only,
        });
    }
    may_touch(view, address)
}

/// Tells whether the word of an address may be loaded.
///
/// Faults: `Evicted` if the address is below the view's head, `Beyond` if it isn't below its tail.
#[inline(always)]
pub fn may_load(view: View, address: u64) -> Result<(), Fault>
    ensures { result ≡ unless_fault (load_fault view address) tt }
{
    if address < view.head {
        return Err(Fault::Evicted { head: view.head });
    }
    may_touch(view, address)
}

/// Whether an address is below the tail.
#[inline(always)]
fn may_touch(view: View, address: u64) -> Result<(), Fault>
    ensures { result ≡ unless_fault (beyond_fault view address) tt }
{
    if address >= view.tail {
        return Err(Fault::Beyond { tail: view.tail });
    }
    Ok(())
}

/// Whether one of these offsets is above that of the view.
#[inline(always)]
pub fn rises(view: View, read_only: u64, head: u64) -> bool
    ensures { result ≡ rises view read_only head }
{
    view.read_only < read_only || view.head < head
}

/// Returns the view with these offsets, if they are above its own.
#[inline(always)]
pub fn raised(view: View, read_only: u64, head: u64) -> View
    ensures { result ≡ raised view read_only head }
{
    View {
        read_only: view.read_only.max(read_only),
        head: view.head.max(head),
        tail: view.tail,
    }
}

/// Whether nothing that was loaded is new to this view and this epoch.
#[inline(always)]
pub fn is_current(view: View, epoch: u64, news: News) -> bool
    ensures { result ≡ is_current view epoch news }
{
    news.read_only <= view.read_only && (news.head <= view.head && news.ended < epoch)
}
