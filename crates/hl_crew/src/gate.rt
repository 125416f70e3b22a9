ghost use Rattle.std.specs.Prelude.{◌≡◌, ℕ, true, ⊤};

use hl_domain::{Load, PageJob};

/// A page that was taken to be flushed. Only [`Taken::of`] makes one, of its load: so no other page is sent to a writer,
/// or told to a gate.
#[derive(Clone, Copy)]
pub struct Taken {
    job: PageJob,
}

impl Taken {
    /// The page of this load.
    pub fn of(load: &Load) -> Taken
        ensures { result.job ≡ load.now }
    {
        Taken { job: load.job() }
    }

    /// Returns the page.
    pub fn page(self) -> u64
        ensures { result ≡ self.job.page }
    {
        self.job.page
    }

    /// Returns the job of its load.
    pub(crate) fn job(self) -> PageJob
        ensures { result ≡ self.job }
    {
        self.job
    }
}

/// When a page may be written. Several writers share it.
///
/// `lets` is what its yes says of a page, for a gate of which more is to be said than that it was asked. `knows` holds of
/// a page that a writer has begun with: only of such a page is a gate asked.
pub trait Gate {
    ghost lets: { Self → ℕ → Type 0 } = { λ _ _. ⊤ };

    ghost knows: { Self → ℕ → Type 0 } = { λ _ _. ⊤ };

    /// A writer has begun with this page, which was taken.
    fn begun(&self, taken: Taken)
        ensures { knows self.now taken.job.page };

    /// Whether it may write it now.
    fn may_write(&self, page: u64) -> bool
        requires { knows self.now page }
        ensures { result ≡ true → lets self.now page };
}

/// Each page may be written at once.
#[derive(Clone, Copy)]
pub struct OpenGate;

impl Gate for OpenGate {
    fn begun(&self, _taken: Taken) {}

    fn may_write(&self, _page: u64) -> bool
        ensures always { result ≡ true }
        ensures let_in { ⊤ }
    {
        true
    }
}
