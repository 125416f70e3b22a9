//! What a session's rider did, told to another session. No call here takes the lock.
ghost use Rattle.std.specs.Prelude.{◌≡◌, []};
ghost use Rattle.hl_words.specs.States.{with_view};
ghost use Rattle.hl_words.specs.Views.{past_of, told};
ghost use Rattle.hl.specs.Sessions.{KeepsAllButRider};
ghost use Rattle.hl.specs.Traces.{Does};

use super::Session;
use hl_action::{Promise, Task};
use hl_epoch::Epochs;
use hl_words::{Past, Realm};

impl<'a, R, L: Realm, F: Task, P: Promise, E: Epochs + Drop> Session<'a, R, L, F, P, E> {
    /// The past of the session: all that it did up to now, its calls among that. It takes no bytes, and can go to another
    /// thread, whose session is then told it.
    pub fn past(&mut self) -> Past<L>
        ensures past { result ≡ past_of self.old.pass.rider.view }
        ensures same { self.new ≡ self.old }
    {
        self.log.past(self.pass.rider_mut())
    }

    /// The same past once more, to be told to one more session.
    pub fn past_again(&self, past: &mut Past<L>) -> Past<L>
        ensures copy { result ≡ past.old }
        ensures same { past.new ≡ past.old }
    {
        self.log.past_again(past)
    }

    /// Tells the session the past of another. All of it stands before what this session does from now on, in the one order
    /// of which the ending tells: a load finds what the other stored, or what was stored there since, and a call meets all
    /// steps that the other's calls left.
    pub fn tell_past(&mut self, past: Past<L>)
        ensures told { let rider = self.old.pass.rider
            in self.new.pass.rider ≡ with_view (told past rider.view) rider }
        ensures did { Does [] self.old self.new }
        ensures kept { KeepsAllButRider self.old self.new }
    {
        self.log.tell_past(self.pass.rider_mut(), past);
    }
}
