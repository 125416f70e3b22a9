ghost use Rattle.std.specs.Prelude.{◌≡◌};

use hl_model::Fault;
use std::error::Error;
use std::fmt;

/// A refused call's fault, and the value that the call was handed. It is displayed as its fault, whatever the value
/// is: a session or a job that ran must not be dropped, and a refusal of one can be shown.
#[derive(Drop)]
pub struct Refused<T> {
    /// Why it was refused.
    pub fault: Fault,
    /// What was handed in.
    pub back: T,
}

impl<T> fmt::Debug for Refused<T> {
    fn fmt<W: fmt::Write>(&self, f: &mut fmt::Formatter<W>) -> fmt::Result {
        write!(f, "{:?}", self.fault)
    }
}

impl<T> fmt::Display for Refused<T> {
    fn fmt<W: fmt::Write>(&self, f: &mut fmt::Formatter<W>) -> fmt::Result {
        write!(f, "{}", self.fault)
    }
}

impl<T: Drop> Error for Refused<T> {}

/// The fault alone; the value is dropped.
impl<T: Drop> From<Refused<T>> for Fault {
    ghost from_gives = { λ refused fault. fault ≡ refused.fault };

    fn from(refused: Refused<T>) -> Fault {
        refused.fault
    }
}

/// What a call of a domain hands back beside its fault.
impl<T> From<(Fault, T)> for Refused<T> {
    ghost from_gives = { λ pair refused. refused ≡ record { fault = pair.0; back = pair.1 } };

    fn from(pair: (Fault, T)) -> Refused<T> {
        let (fault, back) = pair;
        Refused { fault, back }
    }
}
