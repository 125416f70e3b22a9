ghost use Rattle.std.specs.Prelude.{ℕ};
ghost use Rattle.hl_action.specs.Firings.{FiringRecord};

use crate::firing::Firing;

/// Code that can be called once, on a firing. A closure is one by `Call`, a struct by an impl of its own.
///
/// It stands where a bound on `FnOnce` would: the type of a stored job says what its call requires and
/// ensures, and no type can yet say that of such a bound. A function that writes a closure can't name what is
/// made of it (`Kept`, `Ready`, `Shelf`): it passes `Call` of it, or a closure that makes such jobs, to a
/// function that is generic over the task. Jobs that are structs can be named anywhere.
pub trait Task: Drop {
    /// It can be called on this firing.
    ghost can: { Self → FiringRecord → Type 0 };

    /// It may return this number for this firing.
    ghost gives: { Self → FiringRecord → ℕ → Type 0 };

    /// Calls it.
    fn call(self, firing: Firing) -> u64
        requires { can self firing }
        ensures { gives self firing result };
}

/// A closure as a job: it can be called if the closure can be, and returns what the closure returns.
#[derive(Drop)]
pub struct Call<F>(pub F);

impl<F: FnOnce(Firing) -> u64 + Drop> Task for Call<F> {
    ghost can = { λ c firing. F.pre c.0 firing };

    ghost gives = { λ c firing answer. F.post c.0 firing answer };

    fn call(self, firing: Firing) -> u64 {
        (self.0)(firing)
    }
}
