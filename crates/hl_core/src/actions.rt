ghost use Rattle.std.specs.Prelude.{◌≡◌, [], ◌∷◌, ◌++◌, IfOk, OnErr, IfErr};
ghost use Rattle.hl_model.specs.declared.step.Reply.TheVariants.{Ticket as TICKET, Bumped as BUMPED};
ghost use Rattle.hl_model.specs.declared.step.Step.TheVariants.{Settle as SETTLE, Close as CLOSE, Bare as BARE, Take as TAKE, Done as DONE};
ghost use Rattle.hl_epoch.specs.Table.{safe_of};
ghost use Rattle.hl_action.specs.Firings.{IsSafe};
ghost use Rattle.hl_drain.specs.declared.action.Action.TheVariants.{Settle as SETTLING, Close as CLOSING};
ghost use Rattle.hl_core.specs.Steps.{Made, asking, stored, job_in, as_reply, bump_reply, take_reply, CameOut};

use crate::rise::end_epoch;
use crate::state::Core;
use hl_action::Firing;
use hl_drain::{Action, Ask};
use hl_epoch::Epochs;
use hl_model::{Fault, Kind, Reply, Tagged};
use hl_offsets::Offsets;

impl<E: Epochs, J: Tagged + Drop> Core<E, J> {
    /// Ends the current epoch, and stores what is asked for under it; returns the ticket, the epoch that
    /// ended. A settle and a close store the read-only offset and the head as they stand now.
    ///
    /// Faults, with what was asked for handed back: `DrainFull` if the drain list has no room, `EpochsSpent`
    /// if the current epoch is the last, `WindowFull` if 4,096 epochs have ended and aren't safe.
    #[inline(always)]
    pub fn bump(&mut self, ask: Ask<J>) -> Result<u64, (Fault, Ask<J>)>
        ensures made { Made J.tag self.old (asking J.tag ask) self.new (bump_reply result) }
        ensures refused { IfErr result (λ back. (back.1 ≡ ask) × (self.new ≡ self.old)) }
        ensures jobs { let old = self.old
            in IfOk result
            (λ ticket. self.new.drain.pending ≡ old.drain.pending
            ++ (ticket, stored old.offsets ask) ∷ []) }
        ensures sizes { self.new.sizes ≡ self.old.sizes }
    {
        if !self.drain.has_room() {
            return Err((Fault::DrainFull, ask));
        }
        let ticket = match end_epoch(&mut self.table) {
            Ok(ticket) => ticket,
            Err(fault) => return Err((fault, ask)),
        };
        match self.drain.put(ticket, stored(&self.offsets, ask)) {
            Ok(()) => Ok(ticket),
            // The list had room.
            Err(_) => unreachable!(),
        }
    }

    /// Ends the current epoch, and stores under it an action that settles the read-only offset as it stands;
    /// returns the ticket, the epoch that ended. The done of the action raises the safe read-only offset to
    /// it.
    ///
    /// Faults: as [`bump`](Core::bump).
    #[inline(always)]
    pub fn settle(&mut self) -> Result<u64, Fault>
        ensures made { Made J.tag self.old SETTLE self.new (as_reply TICKET result) }
        ensures refused { OnErr result (self.new ≡ self.old) }
        ensures jobs { let old = self.old
            in IfOk result (λ ticket. self.new.drain.pending
            ≡ old.drain.pending ++ (ticket, SETTLING old.offsets.read_only) ∷ []) }
        ensures sizes { self.new.sizes ≡ self.old.sizes }
    {
        self.bump(Ask::Settle).map_err(|(fault, _)| fault)
    }

    /// Ends the current epoch, and stores under it an action that closes the pages below the head as it
    /// stands; returns the ticket, the epoch that ended. The done of the action raises the closed offset to
    /// that head.
    ///
    /// Faults: as [`bump`](Core::bump).
    #[inline(always)]
    pub fn close(&mut self) -> Result<u64, Fault>
        ensures made { Made J.tag self.old CLOSE self.new (as_reply TICKET result) }
        ensures refused { OnErr result (self.new ≡ self.old) }
        ensures jobs { let old = self.old
            in IfOk result (λ ticket. self.new.drain.pending
            ≡ old.drain.pending ++ (ticket, CLOSING old.offsets.head) ∷ []) }
        ensures sizes { self.new.sizes ≡ self.old.sizes }
    {
        self.bump(Ask::Close).map_err(|(fault, _)| fault)
    }

    /// Ends the current epoch, and stores nothing; returns the epoch that ended. It needs no place in the
    /// drain list.
    ///
    /// Faults, in their order: `EpochsSpent` if the current epoch is the last, `WindowFull` if 4,096 epochs
    /// have ended and aren't safe.
    #[inline(always)]
    pub fn bare(&mut self) -> Result<u64, Fault>
        ensures made { Made J.tag self.old BARE self.new (as_reply BUMPED result) }
        ensures refused { OnErr result (self.new ≡ self.old) }
        ensures jobs { self.new.drain.pending ≡ self.old.drain.pending }
        ensures sizes { self.new.sizes ≡ self.old.sizes }
    {
        end_epoch(&mut self.table)
    }

    /// Takes the oldest pending action; returns its firing, which is its ticket and the safe epoch of now,
    /// and its job. A settle and a close have no job.
    ///
    /// Faults: `Empty` if none is pending, `NotReady` if its ticket is above the safe epoch.
    #[inline(always)]
    pub fn take(&mut self) -> Result<(Firing, Option<J>), Fault>
        ensures made { Made J.tag self.old TAKE self.new (take_reply result) }
        ensures refused { OnErr result (self.new ≡ self.old) }
        ensures safe { IfOk result (λ taken. taken.0.safe ≡ safe_of self.old.table) }
        ensures out { IfOk result (λ taken. CameOut J.tag self.old self.new taken.0.ticket taken.1) }
        ensures sizes { self.new.sizes ≡ self.old.sizes }
    {
        let safe = self.table.safe();
        let (ticket, action) = self.drain.take(safe)?;
        Ok((Firing::new(ticket, safe), job_of(action)))
    }

    /// A taken action was carried out, and leaves the drain list. Returns `Ran` with its tag for a job. A
    /// settle and a close raise their offset to what they stored, if it is below; returns `Settled` with the
    /// safe read-only offset after it, `Closed` with the closed one.
    ///
    /// Fault: `NotTaken` if the ticket isn't that of an action that was taken and isn't done.
    #[inline(always)]
    pub fn done(&mut self, ticket: u64) -> Result<Reply, Fault>
        ensures made { Made J.tag self.old (DONE ticket) self.new result }
        ensures refused { OnErr result (self.new ≡ self.old) }
        ensures jobs { self.new.drain.pending ≡ self.old.drain.pending }
        ensures sizes { self.new.sizes ≡ self.old.sizes }
    {
        let reply = match self.drain.done(ticket)? {
            Kind::User(tag) => Reply::Ran(tag),
            Kind::Settle(x) => Reply::Settled(self.offsets.settle(x)),
            Kind::Close(x) => Reply::Closed(self.offsets.close(x)),
        };
        Ok(reply)
    }
}

/// What is stored for what is asked: a settle and a close store the offset as it stands.
#[inline(always)]
fn stored<J: Drop>(offsets: &Offsets, ask: Ask<J>) -> Action<J>
    ensures { result ≡ stored offsets.now ask }
{
    match ask {
        Ask::Settle => Action::Settle(offsets.read_only()),
        Ask::Close => Action::Close(offsets.head()),
        Ask::User(job) => Action::User(job),
    }
}

/// The job of a drain list's action. A settle and a close have none.
#[inline(always)]
fn job_of<J: Drop>(action: Action<J>) -> Option<J>
    ensures { result ≡ job_in action }
{
    match action {
        Action::User(job) => Some(job),
        Action::Settle(_) => None,
        Action::Close(_) => None,
    }
}
