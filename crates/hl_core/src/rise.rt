ghost use Rattle.std.specs.Prelude.{◌≡◌, ◌-◌, ◌<◌, OnOk};
ghost use Rattle.hl_model.specs.Epochs.{epoch_window};
ghost use Rattle.hl_model.specs.Replies.{unless_fault, unless_refused};
ghost use Rattle.hl_epoch.specs.Table.{bumped, safe_of};
ghost use Rattle.hl_core.specs.Rise.{rise_fault};

use hl_epoch::Epochs;
use hl_model::{EPOCH_LAST, EPOCH_WINDOW, Fault};

/// Ends the current epoch of a table; returns its number.
#[inline(always)]
pub(crate) fn end_epoch<E: Epochs>(table: &mut E) -> Result<u64, Fault>
    requires { (E.table table.old).window ≡ epoch_window }
    ensures answer { let old = E.table table.old in result ≡ unless_fault (rise_fault old) old.current }
    ensures effect { let old = E.table table.old
        in E.table table.new ≡ unless_refused (rise_fault old) old (bumped old) }
{
    may_end_epoch(table)?;
    table.bump()
}

/// Whether the current epoch of a table may end: it isn't the last, and the window has room.
#[inline(always)]
pub(crate) fn may_end_epoch<E: Epochs>(table: &E) -> Result<(), Fault>
    requires { (E.table table.now).window ≡ epoch_window }
    ensures answer { result ≡ unless_fault (rise_fault (E.table table.now)) tt }
    ensures room { let T = E.table table.now in OnOk result (T.current - 1 - safe_of T < T.window) }
{
    let current = table.current();
    if current == EPOCH_LAST {
        return Err(Fault::EpochsSpent);
    }
    if current - 1 - table.safe() == EPOCH_WINDOW {
        return Err(Fault::WindowFull);
    }
    Ok(())
}
