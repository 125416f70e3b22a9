//! A call, noted for its rider.
ghost use Rattle.std.specs.Prelude.{◌≡◌, ◌+◌, ◌-◌, ◌≤◌, [], ◌++◌, drop, length};
ghost use Rattle.hl_history.specs.Lists.{entry, IsOf};
ghost use Rattle.hl_words.specs.States.{with_call};
ghost use Rattle.hl_keeper.specs.Keepers.{all_noted};

use crate::keeper::Keeper;
use hl_action::{Promise, Task};
use hl_epoch::Epochs;
use hl_words::{Realm, Recorder, Rider, Words};

impl<E: Epochs, F: Task, P: Promise, L: Realm> Keeper<E, F, P, L> {
    /// Notes a call of this rider, which put the steps behind the journal that it has since it was so long. The recorder
    /// puts them behind its list, and the rider's record of calls and touches have the call, with how many steps are cut.
    #[inline(always)]
    pub fn note(
        &mut self,
        words: &Words<L>,
        recorder: &mut Recorder<L>,
        rider: &mut Rider<L>,
        before: usize,
    )
        requires { (before ≤ length self.old.journal)
            × (self.old.called.steps ≡ length recorder.old) × (self.old.called.cut ≤ self.old.cut)
            × (self.old.total ≡ length recorder.old + length (drop before self.old.journal)) }
        ensures keeper { self.new ≡ all_noted self.old }
        ensures list { recorder.new ≡ recorder.old ++ drop before self.old.journal }
        ensures rider { let call = entry recorder.old (drop before self.old.journal)
            in rider.new ≡ with_call self.old.called.cut self.old.cut call rider.old }
        ensures rises { IsOf recorder.old rider.old.calls }
    {
        let Keeper {
            journal,
            master,
            ..
        } = self;
        let steps = &journal.steps.as_slice()[before..];
        words.enter(master, recorder, rider, steps, journal.cut);
    }

    /// Notes a call of this rider that made no step.
    #[inline(always)]
    pub fn note_quiet(&mut self, words: &Words<L>, recorder: &mut Recorder<L>, rider: &mut Rider<L>)
        requires { (self.old.called.steps ≡ length recorder.old) × (self.old.called.cut ≤ self.old.cut)
            × (self.old.total ≡ length recorder.old) }
        ensures keeper { self.new ≡ all_noted self.old }
        ensures list { recorder.new ≡ recorder.old ++ [] }
        ensures rider { rider.new ≡ with_call self.old.called.cut self.old.cut
            (entry recorder.old []) rider.old }
        ensures rises { IsOf recorder.old rider.old.calls }
    {
        words.enter(&mut self.master, recorder, rider, &[], self.journal.cut);
    }
}
