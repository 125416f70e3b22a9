ghost use Rattle.hl_crew.specs.Goes.{UpTo};
ghost use Rattle.hl_crew.specs.Turns.{RunsAction};

use crate::messages::Over;
use crate::run::Run;
use hl_action::{Promise, Task};
use hl_epoch::Epochs;
use hl_model::Fault;
use hl_words::{Realm, Rider};
use std::sync::Wait;

/// How many actions are taken in a turn.
const ACTIONS: u64 = 4;

impl<R: Wait, E: Epochs + Drop, F: Task, P: Promise, L: Realm, G> Run<'_, R, E, F, P, L, G> {
    /// Takes at most four actions, one after another, runs each, and answers it done.
    #[tactic(auto, using(crate::proofs::GoesLaws::going))]
    pub(crate) fn run_actions(&self, rider: &mut Rider<L>) -> Result<(), Over>
        ensures { UpTo (RunsAction F self.now.domain.now self.now.limits.cuts) 4 result
            rider.old rider.new }
    {
        for _ in 0..ACTIONS {
            if !self.run_action(rider)? {
                return Ok(());
            }
        }
        Ok(())
    }

    // Takes an action, runs it and answers it done. False if none is ready.
    fn run_action(&self, rider: &mut Rider<L>) -> Result<bool, Over>
        ensures { RunsAction F self.now.domain.now self.now.limits.cuts 0 result
            rider.old rider.new }
    {
        match self.domain.take(self.rt, rider) {
            Ok(ready) => {
                self.end_by(rider, ready.run())?;
                Ok(true)
            }
            Err(fault) => match fault {
                Fault::Empty | Fault::NotReady { .. } => Ok(false),
                _ => Err(Over::of(&fault)),
            },
        }
    }
}
