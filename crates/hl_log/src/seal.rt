//! All up to the tail, sealed by one call of a pass.
ghost use Rattle.std.specs.Prelude.{◌≡◌, List, IfOk};
ghost use Rattle.hl_model.specs.declared.step.Step.{Step as STEP};
ghost use Rattle.hl_lag.specs.Lag.{step_if};
ghost use Rattle.hl_log.specs.Logs.{StandsAt};
ghost use Rattle.hl_log.specs.Seals.{words_left, reply_if, ticket_told, Goes, IsAlike, SealsFor, Seals};

use crate::log::Log;
use crate::pass::Pass;
use crate::sealed::Sealed;
use hl_model::{Fault, Reply, Sizes, Step};

impl Log {
    /// Makes the steps that seal all up to the tail, for the pass's slot, behind what the pass saw; returns the tail,
    /// where a page begins then, and the ticket of the settle, if one was due. Once that is done, each page below is
    /// sealed. The steps, each where it is due: an allocation of the words that are left of the tail's page, a raise of
    /// the read-only offset to the tail, and a settle. The pass then has its slot's view.
    ///
    /// `Stranger`, with the slot's stamp, if the slot isn't the pass's: nothing is changed then. Else the faults of a
    /// settle, `DrainFull`, `EpochsSpent` and `WindowFull`: the steps before it stay made, and another call goes on
    /// from there. While a settle waits, another call stores one more.
    pub fn seal(&mut self, pass: &mut Pass) -> Result<Sealed, Fault>
        ensures { Seals self.old pass.old self.new pass.new result }
    {
        self.begin(&pass.own)?;
        let slot = pass.own.slot;
        let sealed = self.seal_for(slot);
        let epoch = pass.own.epoch;
        pass.own.rest_in(epoch, self.core.view(slot));
        sealed
    }

    // Makes them for a slot.
    fn seal_for(&mut self, t: u64) -> Result<Sealed, Fault>
        ensures made { (A : List STEP) → StandsAt self.old A → SealsFor t self.old A self.new result }
        ensures beside { IsAlike self.old self.new }
    {
        let six = self.core.six();
        let left = words_left(self.core.params(), six.tail);
        let address = six.tail + left;
        self.make_if(left > 0, &Step::Allocate { t, n: left })?;
        self.make_if(address > six.read_only, &Step::Raise { x: address })?;
        let settled = self.make_if(address > six.safe_read_only, &Step::Settle)?;
        Ok(Sealed {
            address,
            ticket: ticket_of(settled),
        })
    }

    // Makes a step where it is due.
    fn make_if(&mut self, is_due: bool, step: &Step) -> Result<Option<Reply>, Fault>
        ensures made { (A : List STEP) → StandsAt self.old A
            → Goes self.old A (step_if is_due step.now) self.new result }
        ensures told { (A : List STEP) → StandsAt self.old A
            → IfOk result (λ reply. reply ≡ reply_if is_due self.old A step.now) }
        ensures beside { IsAlike self.old self.new }
    {
        if !is_due {
            return Ok(None);
        }
        let reply = self.make(step)?;
        Ok(Some(reply))
    }
}

/// How many words are left of the tail's page, none where a page begins there.
fn words_left(sizes: Sizes, tail: u64) -> u64
    ensures { result ≡ words_left sizes.page_size tail }
{
    let page_size = sizes.page_size();
    (page_size - tail % page_size) % page_size
}

/// The ticket that a reply told, if there is one.
fn ticket_of(reply: Option<Reply>) -> Option<u64>
    ensures { result ≡ ticket_told reply }
{
    match reply {
        Some(Reply::Ticket(ticket)) => Some(ticket),
        _ => None,
    }
}
