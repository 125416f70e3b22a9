ghost use Rattle.std.specs.Prelude.{◌≡◌};

use crate::handle::Handle;

/// Takes a handle to another thread, as C may by its own means: that it may go there is what `Send` says.
pub fn sent(handle: Handle) -> Handle
    ensures { result ≡ handle }
{
    carried(handle)
}

fn carried<T: Send>(value: T) -> T
    ensures { result ≡ value }
{
    value
}
