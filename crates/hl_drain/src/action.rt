ghost use Rattle.std.specs.Prelude.{◌≡◌};

use hl_model::{Kind, Tagged, Waiting};

/// What a bump asks to store.
#[derive(Debug, Drop, PartialEq, Eq)]
pub enum Ask<J> {
    /// To settle the read-only offset, as it stands at the bump.
    Settle,
    /// To close the pages below the head, as it stands at the bump.
    Close,
    /// To run this job.
    User(J),
}

/// What is stored, and carried out once its ticket is safe.
#[derive(Debug, Drop, PartialEq, Eq)]
pub enum Action<J> {
    /// Raises the safe read-only offset to this address, in words.
    Settle(u64),
    /// Raises the closed offset to this address, in words.
    Close(u64),
    /// Runs this job.
    User(J),
}

impl<J: Tagged> Action<J> {
    ghost use Rattle.hl_drain.specs.Actions.{kind_of, waiting_of};

    /// The action as lists name it, with its ticket, an epoch.
    pub(crate) fn waiting(&self, ticket: u64) -> Waiting
        ensures { result ≡ waiting_of J.tag (ticket, self.now) }
    {
        Waiting {
            ticket,
            kind: self.kind(),
        }
    }

    /// What the action is known by once it has been handed out: a job by its tag.
    fn kind(&self) -> Kind
        ensures { result ≡ kind_of J.tag self.now }
    {
        match self {
            Action::Settle(address) => Kind::Settle(*address),
            Action::Close(address) => Kind::Close(*address),
            Action::User(job) => Kind::User(job.tag()),
        }
    }
}
