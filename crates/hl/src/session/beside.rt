//! Who serves the log beside a session.
ghost use Rattle.std.specs.Prelude.{◌≡◌};
ghost use Rattle.hl_crew.specs.Limited.{duty_cuts};
ghost use Rattle.hl.specs.Sessions.{alone, beside_crew, beside_of, without_crew};

use crate::signals::Signals;
use hl_crew::{Cuts, Duty};

/// A crew that the session wakes; or none, and then how the session cuts the journal itself.
#[derive(Clone, Copy)]
pub(crate) struct Beside<'a> {
    /// What wakes the crew, and what that tells of its device, if there is one.
    pub(super) bell: Option<&'a Signals>,
    /// How the session cuts the journal: never beside a crew, which cuts it.
    pub(super) cuts: Cuts,
}

impl<'a> Beside<'a> {
    /// Nobody that the session knows of, and it cuts nothing unasked.
    pub(crate) fn alone() -> Beside<'a>
        ensures { beside_of result.bell result.cuts ≡ alone }
    {
        Beside {
            bell: None,
            cuts: Cuts::Never,
        }
    }

    /// A crew with these signals.
    pub(crate) fn crew(signals: &'a Signals) -> Beside<'a>
        ensures { beside_of result.bell result.cuts ≡ beside_crew }
    {
        Beside {
            bell: Some(signals),
            cuts: Cuts::Never,
        }
    }

    /// No crew any more: the session cuts the journal as one of this duty would at a turn's end.
    pub(crate) fn no_crew(duty: Duty) -> Beside<'a>
        ensures { beside_of result.bell result.cuts ≡ without_crew (duty_cuts duty.cut_above) }
    {
        let cuts = match duty.cut_above() {
            Some(steps) => Cuts::Above(steps),
            None => Cuts::Never,
        };
        Beside { bell: None, cuts }
    }
}
