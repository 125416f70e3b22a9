ghost use Rattle.std.specs.Prelude.{◌≡◌, ◌+◌, ◌^◌, ◌<◌};

use std::marker::Model;

/// How many places of a ring were visited: an action was moved into one, or out of it.
#[derive(Drop)]
pub(crate) struct Visits {
    places: u64,
}

impl Model for Visits {
    ghost use Rattle.std.specs.Prelude.{ℕ};

    ghost Value = { ℕ };

    ghost view = { λ visits. visits.places };
}

impl Visits {
    /// None so far.
    pub(crate) fn none() -> Visits
        ensures { result ≡ 0 }
    {
        Visits { places: 0 }
    }

    /// One more.
    pub(crate) fn tick(&mut self)
        requires { self.old < 2 ^ 63 }
        ensures { self.new ≡ self.old + 1 }
    {
        self.places += 1;
    }

    /// How many there were.
    pub(crate) fn count(&self) -> u64
        ensures { result ≡ self.now }
    {
        self.places
    }
}
