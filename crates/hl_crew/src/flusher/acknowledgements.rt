ghost use Rattle.std.specs.Prelude.{◌≡◌, ◌+◌, ℕ, Some, position, OnOk};
ghost use Rattle.hl_crew.specs.Counting.{counted};
ghost use Rattle.hl_crew.specs.Flushes.{hold_of, AnswersPage, Tells, TellsNext, FailsNext};
ghost use Rattle.hl_crew.specs.Goes.{UpTo};
ghost use Rattle.hl_crew.specs.Pouches.{is_of, load_count};

use crate::flusher::FlusherState;
use crate::messages::{Channels, Over};
use crate::pouch::Pouch;
use crate::run::Run;
use crate::writer::Acknowledgement;
use hl_action::{Promise, Task};
use hl_epoch::Epochs;
use hl_words::Realm;
use std::sync::Wait;

impl<R: Wait, E: Epochs + Drop, F: Task, P: Promise, L: Realm, G> Run<'_, R, E, F, P, L, G> {
    /// Receives this many acknowledgements, answers the page of each as that says, and counts the answer. One whose
    /// page isn't in the pouch is counted as a stranger.
    #[tactic(auto, using(crate::proofs::GoesLaws::going))]
    pub(crate) fn answer_acknowledged(
        &self,
        channels: &Channels,
        own: &mut FlusherState<L>,
        pouch: &mut Pouch,
        sent: u64,
    ) -> Result<(), Over>
        ensures { UpTo (TellsNext F self.now.domain.now) sent result
            (hold_of own.old pouch.old) (hold_of own.new pouch.new) }
    {
        for _ in 0..sent {
            let Ok(acknowledgement) = channels.acknowledged.recv(self.rt) else {
                return Err(Over::Lost);
            };
            self.answer_told(own, pouch, acknowledgement)?;
        }
        Ok(())
    }

    // Answers the page of an acknowledgement as that says, and counts the answer. One whose page isn't in the pouch is
    // counted as a stranger. Only `Run::write` makes an acknowledgement: so its caller can tell no other end of a write.
    fn answer_told(
        &self,
        own: &mut FlusherState<L>,
        pouch: &mut Pouch,
        acknowledgement: Acknowledgement,
    ) -> Result<(), Over>
        ensures { Tells F self.now.domain.now acknowledgement.page acknowledgement.ok
            result (hold_of own.old pouch.old) (hold_of own.new pouch.new) }
    {
        if !pouch.holds(acknowledgement.page()) {
            own.counts.count_stranger();
            return Ok(());
        }
        self.answer_held(own, pouch, acknowledgement.page(), acknowledgement.ok())
    }

    /// Answers each page that is still in the pouch as failed, and counts it so.
    #[tactic(auto, using(crate::proofs::GoesLaws::going))]
    pub(crate) fn answer_others(
        &self,
        own: &mut FlusherState<L>,
        pouch: &mut Pouch,
    ) -> Result<(), Over>
        ensures none { OnOk result (load_count pouch.new ≡ 0) }
        ensures fails { UpTo (FailsNext F self.now.domain.now)
            (load_count pouch.old) result
            (hold_of own.old pouch.old) (hold_of own.new pouch.new) }
    {
        while let Some(page) = pouch.first() {
            self.answer_held(own, pouch, page, false)?;
        }
        Ok(())
    }

    // Answers a page of the pouch, and counts an answer that was accepted.
    fn answer_held(
        &self,
        own: &mut FlusherState<L>,
        pouch: &mut Pouch,
        page: u64,
        ok: bool,
    ) -> Result<(), Over>
        ensures held { (at : ℕ) → position (is_of page) pouch.old ≡ Some at
            → AnswersPage F self.now.domain.now page ok result
            (hold_of own.old pouch.old) (hold_of own.new pouch.new) }
        ensures fewer { OnOk result (load_count pouch.new + 1 ≡ load_count pouch.old) }
        ensures counts { OnOk result (own.new.counts ≡ counted ok own.old.counts) }
    {
        match pouch.answer(self.rt, self.domain, &mut own.rider, page, ok) {
            Ok(_) => {
                own.counts.count(ok);
                Ok(())
            }
            Err(fault) => Err(Over::of(&fault)),
        }
    }
}
