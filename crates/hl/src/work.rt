//! What a program's threads do with a log.
ghost use Rattle.std.specs.Prelude.{◌≡◌, ℕ, List, MatchOption, true, ⊤};
ghost use Rattle.hl.specs.Sessions.{SessionState};

use crate::session::Session;
use hl_action::Task;
use hl_words::Realm;
use std::sync::Wait;

/// What the threads of a program do with a log. They share it.
pub trait Work<R: Wait> {
    /// The jobs that their bumps store, which the crew runs: [`NoJob`](hl_action::NoJob) if they store none.
    type Job: Task + Send;

    /// What a thread returns.
    type Out: Send + Drop;

    /// What holds of a page whose image the device took; nothing, unless a program says so.
    ghost took: { Self → ℕ → List ℕ → Type 0 } = { λ _ _ _. ⊤ };

    /// What holds of the session of a thread of this number before `run` and after it, and of what it returns; nothing,
    /// unless a program says so. A session shows contracts its rider, and so each call that the thread made.
    ghost returns: { Self → ℕ → SessionState → SessionState → Self.Out → Type 0 } = { λ _ _ _ _ _. ⊤ };

    /// The same of the session of `finish`, and of what it returns, if anything.
    ghost finishes: { Self → SessionState → SessionState → Self.Out → Type 0 } = { λ _ _ _ _. ⊤ };

    /// What the thread of this number does in its session; threads are counted from 0. The session is left for it then,
    /// and if the journal is full and the duty cuts, it is cut for that.
    fn run<L: Realm + Send + Sync>(
        &self,
        rt: &R,
        session: &mut Session<R, L, Self::Job>,
        number: u64,
    ) -> Self::Out
        ensures { returns self.now number session.old session.new result };

    /// Writes the image of a page to the program's device: whether it did, and then what `took` says holds. Two
    /// writers of the crew call it. After false the page is taken again. So if the crew alone flushes, the device has
    /// each page that was evicted.
    fn write_page(&self, rt: &R, page: u64, image: &[u8]) -> bool
        ensures { result ≡ true → took self.now page image.now };

    /// What is done once, in a session of its own, when all threads of [`run_threads`](crate::run_threads) have ended
    /// and before the log is closed: nothing, and `None`, unless a program says so. With `None` the session is left
    /// as it was.
    ///
    /// No crew serves by then. So a page that is `Busy` stays so, and the session cuts the journal itself, where it is
    /// longer than the crew's duty lets it be: in each round of [`help`](Session::help), and so in
    /// [`attempt`](crate::attempt) and the waits, and in [`rest`](Session::rest).
    fn finish<L: Realm + Send + Sync>(
        &self,
        _rt: &R,
        session: &mut Session<R, L, Self::Job>,
    ) -> Option<Self::Out>
        ensures { MatchOption result (session.new ≡ session.old) (finishes self.now session.old session.new) }
    {
        let _ = session;
        None
    }
}
