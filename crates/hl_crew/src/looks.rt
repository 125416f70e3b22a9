//! How the cleaner, and a writer that takes its pages itself, look for pages, and sleep.
ghost use Rattle.std.specs.Prelude.{◌≡◌, true, false, Ok, IfOk};
ghost use Rattle.hl_crew.specs.Goes.{UpTo};
ghost use Rattle.hl_crew.specs.Looks.{LooksNext, or_nowhere};

use crate::ended::{EndFlag, Seen};
use crate::messages::Over;
use crate::sleepers::Sleeper;
use std::sync::Wait;

/// What looks for a page, with what a thread has of its own.
pub(crate) trait Look<S> {
    ghost use Rattle.std.specs.Prelude.{Bool, Result};
    ghost use Rattle.hl_crew.specs.declared.messages.Over.{Over};

    ghost finds: { Self → Result Bool Over → S → S → Type 0 };

    /// Does what there is to be done with a page. False if there is none, or nothing more can be done now.
    fn find(&self, own: &mut S) -> Result<bool, Over>
        ensures { finds self.now result own.old own.new };
}

/// What a thread that looks for pages works on.
#[derive(Drop)]
pub(crate) struct Looker<'x, R> {
    pub(crate) rt: &'x R,
    /// Raised once the flusher has made its turns.
    pub(crate) ended: &'x EndFlag,
    /// Where it sleeps.
    pub(crate) sleeper: &'x Sleeper,
}

impl<R: Wait> Looker<'_, R> {
    /// Looks again and again, at most this many times, until a look fails, or one is in vain that was begun once the
    /// flusher had ended.
    #[tactic(auto, using(crate::proofs::GoesLaws::going))]
    pub(crate) fn look_on<S, H: Look<S>>(
        &self,
        with: &H,
        own: &mut S,
        most: u64,
    ) -> Result<(), Over>
        ensures { UpTo (LooksNext (H.finds with.now)) most result own.old own.new }
    {
        for _ in 0..most {
            let seen = self.ended.seen();
            if !self.look_once(with, own, seen)? {
                return Ok(());
            }
        }
        Ok(())
    }

    // Looks for a page, once it is known whether the flusher has ended: what it did before such a look is found by
    // the next. If there is none, it sleeps until the flusher has made another turn, unless the flusher had ended.
    // False if the look was in vain, and the flusher had ended before it.
    fn look_once<S, H: Look<S>>(&self, with: &H, own: &mut S, seen: Seen) -> Result<bool, Over>
        ensures looks { LooksNext (H.finds with.now) 0 result own.old own.new }
        ensures last { IfOk result (λ next. next ≡ false → seen.is_raised ≡ true) }
        ensures found { IfOk result (λ next. seen.is_raised ≡ true → next ≡ true
            → H.finds with.now (Ok true) own.old own.new) }
    {
        let found = with.find(own)?;
        let has_ended = seen.is_raised();
        if !found && !has_ended {
            self.sleeper.sleep(self.rt, seen);
        }
        Ok(found || !has_ended)
    }
}

/// What a look came to that was made once more, after a cut: if the journal is full again, it got nowhere.
pub(crate) fn or_nowhere(found: Result<bool, Over>) -> Result<bool, Over>
    ensures { result ≡ or_nowhere found }
{
    match found {
        Err(Over::Full) => Ok(false),
        found => found,
    }
}
