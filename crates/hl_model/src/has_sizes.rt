ghost use Rattle.std.specs.Prelude.{◌≡◌};

use crate::params::Params;
use crate::sizes::Sizes;

/// What an allocator is opened with: [`Params`] or [`Sizes`].
pub trait HasSizes: Copy {
    ghost use Rattle.hl_model.specs.Sizes.{Sizes as SizesRecord};

    /// The sizes that it gives.
    ghost sizes_of: { Self → SizesRecord };

    /// The sizes that it gives.
    fn sizes(self) -> Sizes
        ensures { result ≡ sizes_of self };
}

impl HasSizes for Params {
    ghost sizes_of = { λ params. params };

    fn sizes(self) -> Sizes {
        Params::sizes(self)
    }
}

impl HasSizes for Sizes {
    ghost sizes_of = { λ sizes. sizes };

    fn sizes(self) -> Sizes {
        self
    }
}
