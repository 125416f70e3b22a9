//! How a crew that serves ends: by rounds of all its threads' work in one thread.
ghost use Rattle.std.specs.Prelude.{◌≡◌, ◌&&◌, is_none, true};
ghost use Rattle.hl_crew.specs.Goes.{UpTo};
ghost use Rattle.hl_crew.specs.Rounds.{AllLook, MakesRound, RoundsIf};
ghost use Rattle.hl_crew.specs.Riders.{WritesPage, FailsPage};

use crate::gate::Gate;
use crate::messages::Over;
use crate::run::Run;
use crate::state::CrewState;
use crate::stop::LAST_TURNS;
use hl_action::{Promise, Task};
use hl_epoch::Epochs;
use hl_image::PageWriter;
use hl_words::Realm;
use std::sync::Wait;

impl<R: Wait, E: Epochs + Drop, F: Task, P: Promise, L: Realm, G: Gate> Run<'_, R, E, F, P, L, G> {
    /// What a crew does whose threads have ended: if it serves, and all have done their work, it makes its last turns.
    pub(crate) fn end_rounds<W: PageWriter>(&self, state: &mut CrewState<L, W>, are_done: bool)
        ensures { RoundsIf F self.now.domain.now self.now.limits (G.lets self.now.gate.now)
            (WritesPage W.has W.wrote) (FailsPage W.has W.failed) W.failures
            (are_done && is_none self.now.channels) state.old state.new }
    {
        if are_done && self.serves() {
            let _ = self.make_rounds(state, LAST_TURNS);
        }
    }

    // Makes at most this many rounds, up to the first in which the flusher got nowhere, or failed.
    #[tactic(auto, using(crate::proofs::GoesLaws::going))]
    fn make_rounds<W: PageWriter>(&self, state: &mut CrewState<L, W>, most: u64) -> Result<(), Over>
        requires { is_none self.now.channels ≡ true }
        ensures { UpTo (MakesRound F self.now.domain.now self.now.limits (G.lets self.now.gate.now)
            (WritesPage W.has W.wrote) (FailsPage W.has W.failed) W.failures)
            most result state.old state.new }
    {
        for _ in 0..most {
            match self.serve_turn(&mut state.flusher) {
                Ok(true) => self.look(state),
                Ok(false) => return Ok(()),
                Err(over) => return Err(over),
            }
        }
        Ok(())
    }

    // The writers and the cleaner look for pages until they find none.
    fn look<W: PageWriter>(&self, state: &mut CrewState<L, W>)
        ensures { AllLook F self.now.domain.now self.now.limits (G.lets self.now.gate.now)
            (WritesPage W.has W.wrote) (FailsPage W.has W.failed) W.failures state.old state.new }
    {
        let _ = self.flush_all(&mut state.first, &self.sleepers.first);
        let _ = self.flush_all(&mut state.second, &self.sleepers.second);
        let _ = self.clean_all(&mut state.cleaner, u64::MAX);
    }
}
