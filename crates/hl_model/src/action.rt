ghost use Rattle.std.specs.Prelude.{◌≡◌, ℕ};

/// What an action does when it is done.
#[derive(Clone, Copy, Debug, PartialEq, Eq)]
pub enum Kind {
    /// Runs the job of this tag.
    User(u64),
    /// Raises the safe read-only offset to this address, if it is below. The address is the read-only offset
    /// at the action's bump.
    Settle(u64),
    /// Raises the closed offset to this address, if it is below. The address is the head at the action's
    /// bump.
    Close(u64),
}

impl Default for Kind {
    ghost use Rattle.hl_model.specs.declared.action.Kind.TheVariants.{User};

    ghost is_default = { λ kind. kind ≡ User 0 };

    fn default() -> Kind {
        Kind::User(0)
    }
}

/// An action of the drain list: pending, or taken and not done.
#[derive(Clone, Copy, Debug, Default, PartialEq, Eq)]
pub struct Waiting {
    /// The epoch that its bump ended. The action may be taken once this epoch is safe.
    pub ticket: u64,
    pub kind: Kind,
}

/// A job that bears a tag, by which lists and replies name it.
pub trait Tagged {
    ghost tag: { Self → ℕ };

    /// Its tag.
    fn tag(&self) -> u64
        ensures { result ≡ tag self.now };
}

/// A job that is nothing but its tag.
#[derive(Clone, Copy, Debug, Default, PartialEq, Eq)]
pub struct Tag(pub u64);

impl Tagged for Tag {
    ghost tag = { λ t. t.0 };

    fn tag(&self) -> u64 {
        self.0
    }
}
