//! How a crew is told that the threads beside it have ended.
ghost use Rattle.std.specs.Prelude.{◌≡◌};

use hl_crew::Stop;

/// What threads left, once their crew was given its stop. Only [`Told::of`] makes one, so that the threads have ended
/// can't go untold.
#[derive(Drop)]
pub(crate) struct Told<T> {
    left: T,
}

impl<T> Told<T> {
    /// Gives the stop to the crew of threads that left this.
    pub(crate) fn of(left: T, stop: &Stop) -> Told<T>
        ensures { result.left ≡ left }
    {
        stop.give();
        Told { left }
    }

    /// Returns what they left.
    pub(crate) fn into_left(self) -> T
        ensures { result ≡ self.left }
    {
        let Told { left } = self;
        left
    }
}
