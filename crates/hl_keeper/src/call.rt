//! What the locked calls have in common: the tests before the core's, and the journal behind them.
ghost use Rattle.std.specs.Prelude.{◌≡◌, ◌+◌, ◌≤◌, None, List, [], ◌∷◌, length, true, OnErr, MatchResult};
ghost use Rattle.hl_model.specs.declared.step.Step.{Step as STEP};
ghost use Rattle.hl_model.specs.Replies.{unless_fault};
ghost use Rattle.hl_keeper.specs.Touches.{is_call};
ghost use Rattle.hl_keeper.specs.Passes.{with_share, entered_by};
ghost use Rattle.hl_keeper.specs.Keepers.{KeeperStands, IsKeeper, steps_most};
ghost use Rattle.hl_keeper.specs.Journals.{full_fault, with_steps};
ghost use Rattle.hl_keeper.specs.Calls.{is_behind, stranger_fault, ahead_fault, room_fault, origin_fault, Knows, Called, Keeps, SameStamps};

use crate::journal::Journal;
use crate::keeper::Keeper;
use crate::pass::Pass;
use hl_action::{Promise, Task};
use hl_epoch::Epochs;
use hl_model::{Fault, Reply, Step};
use hl_pass::catch_up;
use hl_words::{Master, Realm, Rider, Words};

impl<E: Epochs + Drop, F: Task, P: Promise, L: Realm> Keeper<E, F, P, L> {
    /// Whether the pass is the one to which its slot belongs.
    ///
    /// `Stranger`, with the slot's stamp, if it isn't.
    #[inline(always)]
    pub(crate) fn known(&self, pass: &Pass<L>) -> Result<(), Fault>
        ensures { (A : List STEP) → KeeperStands self.now A
            → result ≡ unless_fault (stranger_fault self.now A pass.now) tt }
    {
        self.stamps.known(&self.core, &pass.own)
    }

    /// Whether the pass is the one to which its slot belongs, and saw no offset above the present
    /// one.
    ///
    /// `Stranger`, with the slot's stamp, if not both hold.
    #[inline(always)]
    pub(crate) fn known_behind(&self, pass: &Pass<L>) -> Result<(), Fault>
        ensures { (A : List STEP) → KeeperStands self.now A
            → result ≡ unless_fault (ahead_fault self.now A pass.now) tt }
    {
        self.known(pass)?;
        if self.is_behind(pass) {
            Ok(())
        } else {
            Err(Fault::Stranger {
                stamp: self.stamps.at(&self.core, pass.own.slot),
            })
        }
    }

    /// Makes the touches of a pass that is known, and the call's own step behind them. The pass
    /// keeps its touches: the caller rests it. If the call is refused, nothing is changed.
    #[inline(always)]
    pub(crate) fn call(
        &mut self,
        words: &Words<L>,
        pass: &mut Pass<L>,
        step: &Step,
    ) -> Result<Reply, Fault>
        requires kind { is_call step.now ≡ true }
        requires known { Knows self.old pass.old }
        ensures made { (A : List STEP) → KeeperStands self.old A
            → Called self.old A pass.old step.now self.new result }
        ensures keeps { Keeps self.old self.new result }
        ensures stamps { SameStamps self.old self.new }
        ensures pass { MatchResult result (λ _. pass.new ≡ entered_by pass.old) (λ _. pass.new ≡ pass.old) }
        ensures valid { IsKeeper self.old }
    {
        let touches = pass.touches.len() as u64;
        if touches == 0 {
            // The core judges the step as it makes it: once is enough.
            return self.one(words, &mut pass.rider, step);
        }
        self.call_touched(pass, step)
    }

    // The same, with touches or without: the core judges the step before any touch enters. Not inlined, so that the
    // other way is short enough to be.
    #[inline(never)]
    fn call_touched(&mut self, pass: &mut Pass<L>, step: &Step) -> Result<Reply, Fault>
        requires kind { is_call step.now ≡ true }
        requires known { Knows self.old pass.old }
        ensures made { (A : List STEP) → KeeperStands self.old A
            → Called self.old A pass.old step.now self.new result }
        ensures keeps { Keeps self.old self.new result }
        ensures stamps { SameStamps self.old self.new }
        ensures pass { MatchResult result (λ _. pass.new ≡ entered_by pass.old) (λ _. pass.new ≡ pass.old) }
        ensures valid { IsKeeper self.old }
    {
        let touches = pass.touches.len() as u64;
        let count = touches + 1;
        self.room(count)?;
        self.core.check(step)?;
        // A write leaves a core as it is, so one look brings it where all touches lead.
        catch_up(&mut self.core, &pass.own);
        note_all(&mut self.journal, pass.touches.as_slice());
        match self.core.act(step) {
            Ok(reply) => {
                self.journal.note(*step);
                self.master.enter(&mut pass.rider, count);
                Ok(reply)
            }
            // Touches leave the fault of the step.
            Err(_) => unreachable!(),
        }
    }

    #[inline(always)]
    fn is_behind(&self, pass: &Pass<L>) -> bool
        ensures { (A : List STEP) → KeeperStands self.now A → result ≡ is_behind A pass.now }
    {
        let six = self.core.six();
        let seen = pass.own.view;
        seen.read_only <= six.read_only && seen.head <= six.head
    }

    /// Whether this origin is the keeper's domain.
    ///
    /// `Stranger`, with the domain's stamp, if it isn't.
    pub(crate) fn own(&self, origin: u64) -> Result<(), Fault>
        ensures { result ≡ unless_fault (origin_fault self.now origin) tt }
    {
        self.stamps.is_of(origin)
    }

    /// Whether the journal has room for this many steps more.
    ///
    /// `JournalFull` if it hasn't.
    #[inline(always)]
    pub(crate) fn room(&self, count: u64) -> Result<(), Fault>
        requires { count ≤ 33 }
        ensures { result ≡ unless_fault (room_fault self.now count) tt }
    {
        self.journal.room(count)
    }
}

/// Puts these steps behind the journal.
fn note_all(journal: &mut Journal, steps: &[Step])
    requires { full_fault journal.old (length steps.now) ≡ None }
    ensures { journal.new ≡ with_steps steps.now journal.old }
{
    for step in steps {
        journal.note(*step);
    }
}

/// Puts a step behind the journal, and counts it for a rider.
#[inline(always)]
pub(crate) fn note<L: Realm>(
    journal: &mut Journal,
    master: &mut Master<L>,
    rider: &mut Rider<L>,
    step: Step,
)
    requires { (full_fault journal.old 1 ≡ None) × (master.old.total + 1 ≤ steps_most) }
    ensures journal { journal.new ≡ with_steps (step ∷ []) journal.old }
    ensures master { let old = master.old
        in master.new ≡ record { offsets = old.offsets; total = old.total + 1; called = old.called } }
    ensures rider { rider.new ≡ with_share 1 rider.old }
{
    journal.note(step);
    master.enter(rider, 1);
}
