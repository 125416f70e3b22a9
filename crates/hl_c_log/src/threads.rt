//! Handles may go to other threads, as C may send them by its own means: that is what `Send` says.
ghost use Rattle.std.specs.Prelude.{◌≡◌};

use crate::log_handle::LogHandle;
use crate::page_handle::PageHandle;
use crate::pass_handle::PassHandle;

/// Takes a log's handle to another thread.
pub fn sent_log(handle: LogHandle) -> LogHandle
    ensures { result ≡ handle }
{
    carried(handle)
}

/// Takes a pass's handle to another thread.
pub fn sent_pass(handle: PassHandle) -> PassHandle
    ensures { result ≡ handle }
{
    carried(handle)
}

/// Takes a page's handle to another thread.
pub fn sent_page(handle: PageHandle) -> PageHandle
    ensures { result ≡ handle }
{
    carried(handle)
}

fn carried<T: Send>(value: T) -> T
    ensures { result ≡ value }
{
    value
}
