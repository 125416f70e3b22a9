ghost use Rattle.std.specs.Prelude.{ℕ};
ghost use Rattle.hl_action.specs.Firings.{FiringRecord};

/// What stored jobs are to return. It has no code: a type stands for one promise.
pub trait Promise {
    /// A job of this tag may return this number under this firing.
    ghost keeps: { ℕ → FiringRecord → ℕ → Type 0 };
}
