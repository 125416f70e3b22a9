//! What one rider did, told to another. Neither call takes the lock.
ghost use Rattle.std.specs.Prelude.{◌≡◌};
ghost use Rattle.hl_words.specs.States.{with_view};
ghost use Rattle.hl_words.specs.Views.{past_of, told};

use crate::domain::Domain;
use hl_action::{Promise, Task};
use hl_epoch::Epochs;
use hl_words::{Past, Realm, Rider};

impl<E: Epochs + Drop, F: Task, P: Promise, L: Realm> Domain<E, F, P, L> {
    /// The rider's past: all that it did up to now, its calls among that. It can go to another thread, whose rider is then
    /// told it.
    pub fn past(&self, rider: &mut Rider<L>) -> Past<L>
        ensures past { result ≡ past_of rider.old.view }
        ensures same { rider.new ≡ rider.old }
    {
        self.words.past(rider)
    }

    /// The same past once more, to be told to one more rider.
    pub fn past_again(&self, past: &mut Past<L>) -> Past<L>
        ensures copy { result ≡ past.old }
        ensures same { past.new ≡ past.old }
    {
        self.words.past_again(past)
    }

    /// Tells a rider the past of another. All of it stands before what this rider does from now on, in the one order of
    /// which the ending tells: a load finds what the other stored, or what was stored there since, and a call meets all
    /// steps that the other's calls left.
    pub fn tell_past(&self, rider: &mut Rider<L>, past: Past<L>)
        ensures { rider.new ≡ with_view (told past rider.old.view) rider.old }
    {
        self.words.tell_past(rider, past);
    }
}
