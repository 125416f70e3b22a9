ghost use Rattle.std.specs.Prelude.{◌≡◌, [], ◌++◌, ◌<◌, ◌≤◌, None, true, false, Err, List, IfOk, IfErr, OnOk, OnErr, option_map, length, vec_len};
ghost use Rattle.std.specs.Vec.{vec_capacity};
ghost use Rattle.hl_model.specs.declared.step.Step.{Step};
ghost use Rattle.hl_model.specs.Actions.{pending};
ghost use Rattle.hl_model.specs.Frames.{frame_of};
ghost use Rattle.hl_model.specs.Sizes.{AreNarrow};
ghost use Rattle.hl_model.specs.Snapshots.{snapshot_of};
ghost use Rattle.hl_model.specs.Views.{slot_view};
ghost use Rattle.hl_model.specs.Bases.{base_of, slot_in};
ghost use Rattle.hl_model.specs.AfterReplies.{base_after};
ghost use Rattle.hl_plain.specs.Histories.{History, begun, Follows, IsHistory, worded, result_in, Answers, AnswersBehind};
ghost use Rattle.hl_plain.specs.Shown.{frame_at, snapshot_at};

use crate::near::Near;
use crate::present::Present;
use crate::words::word;
use crate::{faults, snapshots};
use arrayvec::ArrayVec;
use hl_laws::Base;
use hl_model::{Fault, FrameState, Params, Reply, Snapshot, Step, View, Waiting, with_room};
use std::alloc::Global;
use std::marker::Model;

/// An allocator in the slow form: a base and the accepted steps since, from which each answer is computed by
/// the definitions.
///
/// A contract sees the base, those steps, and whether it has words. The base after all but the last of these
/// steps is kept beside them, so that a step looks at few steps of them; a read's word alone is looked for in
/// all.
#[derive(Drop)]
pub struct Plain {
    base: Base,
    steps: Vec<Step>,
    // A base near the last of the steps, which is that after those before it.
    near: Near,
    has_words: bool,
}

impl Model for Plain {
    ghost use Rattle.hl_plain.specs.Histories.{History};

    ghost Value = { History };

    ghost use Rattle.hl_plain.specs.Kept.{history_of, IsKept};

    ghost view = { history_of };

    ghost invariant = { IsKept };
}

impl Plain {
    /// Returns an allocator of these sizes, before any step. It answers a read with the word.
    ///
    /// `OutOfMemory` if memory was refused.
    pub fn open(alloc: Global, params: Params) -> Result<Plain, Fault>
        ensures ok { IfOk result (λ made. made ≡ begun (base_of params []) true) }
        ensures err { IfErr result (λ fault. fault ≡ Fault.OutOfMemory) }
        ensures valid { IfOk result IsHistory }
    {
        let room = params.frames();
        let base = Base::opening(alloc, params)?;
        Plain::begin(alloc, base, room, true)
    }

    /// Returns an allocator that goes on from a base, which it copies. It answers a read with `Readable`,
    /// since a base holds no words. The base has narrow sizes: `base.params().params()` is `Some`.
    ///
    /// `OutOfMemory` if memory was refused.
    pub fn from_base(alloc: Global, base: &Base) -> Result<Plain, Fault>
        requires narrow { AreNarrow base.now.sizes }
        ensures ok { IfOk result (λ made. made ≡ begun base.now false) }
        ensures err { IfErr result (λ fault. fault ≡ Fault.OutOfMemory) }
        ensures valid { IfOk result IsHistory }
    {
        let room = base.params().frames();
        let base = base.copied(alloc)?;
        Plain::begin(alloc, base, room, false)
    }

    // One that goes on from a base, with words or not, and with room for so many steps.
    fn begin(alloc: Global, base: Base, room: u64, has_words: bool) -> Result<Plain, Fault>
        requires history { IsHistory (begun base has_words) }
        requires room { base.sizes.frames ≤ room }
        ensures ok { IfOk result (λ made. made ≡ begun base has_words) }
        ensures err { IfErr result (λ fault. fault ≡ Fault.OutOfMemory) }
    {
        let steps = with_room(alloc, room)?;
        let near = Near::at(alloc, &base)?;
        Ok(Plain {
            base,
            steps,
            near,
            has_words,
        })
    }

    /// Makes a step, if it meets no fault: it is put behind the steps.
    ///
    /// Faults: the first that the step meets, else `OutOfMemory` if memory for it was refused. A refused step
    /// changes nothing. None of the first F steps is refused memory.
    pub fn step(&mut self, step: &Step) -> Result<Reply, Fault>
        ensures answer { Answers self.old step.now result self.new }
        ensures behind { (A : List Step)
            → Follows self.old A → AnswersBehind A self.old step.now result self.new }
        ensures follows { (A : List Step) → Follows self.old A → Follows self.new A }
        ensures room { length self.old.steps < self.old.base.sizes.frames
            → result ≡ result_in self.old step.now }
        ensures valid { IsHistory self.new }
    {
        self.make(step)
    }

    // Makes a step by the definitions from the base, told by the near one.
    fn make(&mut self, step: &Step) -> Result<Reply, Fault>
        ensures answer { Answers self.old step.now result self.new }
        ensures room { length self.old.steps < self.old.base.sizes.frames
            → result ≡ result_in self.old step.now }
        ensures valid { IsHistory self.new }
    {
        if let Some(fault) = faults::fault_at(&self.present(), step) {
            return Err(fault);
        }
        reserve(&mut self.steps)?;
        let before = self.steps.len();
        let reply = self.near.accept(&mut self.steps, step);
        let reply = worded(self.has_words, &self.steps[..before], step, reply);
        self.near.keep_near(&self.steps);
        Ok(reply)
    }

    /// Returns the view of slot t, or None if there is no such slot, or it isn't protected.
    pub fn view(&self, t: u64) -> Option<View>
        ensures view { let b = base_after self.now.base self.now.steps
            in result ≡ option_map (λ slot. slot.view) (slot_in b t) }
        ensures behind { let sizes = self.now.base.sizes
            in (A : List Step)
            → Follows self.now A → t < sizes.slots → result ≡ slot_view sizes t (A ++ self.now.steps) }
    {
        snapshots::view_at(&self.present(), t)
    }

    /// The quantities after the steps.
    pub fn snapshot(&self) -> Snapshot
        ensures snapshot { result ≡ snapshot_at (base_after self.now.base self.now.steps) }
        ensures behind { let sizes = self.now.base.sizes
            in (A : List Step) → Follows self.now A → result ≡ snapshot_of sizes (A ++ self.now.steps) }
    {
        snapshots::snapshot_at(&self.present())
    }

    /// The pending actions, oldest first.
    pub fn pending(&self) -> ArrayVec<Waiting, 64>
        ensures pending { result.items ≡ (base_after self.now.base self.now.steps).waiting }
        ensures behind { (A : List Step) → Follows self.now A → result.items ≡ pending (A ++ self.now.steps) }
    {
        self.present().waiting()
    }

    /// Returns what frame f, below F, is at, and its last entered page if it isn't free.
    pub fn frame(&self, f: u64) -> (FrameState, Option<u64>)
        requires { f < self.now.base.sizes.frames }
        ensures frame { result ≡ frame_at (base_after self.now.base self.now.steps) f }
        ensures behind { let sizes = self.now.base.sizes
            in (A : List Step) → Follows self.now A → result ≡ frame_of sizes f (A ++ self.now.steps) }
    {
        snapshots::frame_at(&self.present(), f)
    }

    /// The sizes.
    pub fn params(&self) -> Params
        ensures { result ≡ self.now.base.sizes }
    {
        match self.base.params().params() {
            Some(params) => params,
            None => unreachable!(),
        }
    }

    /// The steps accepted since the base, oldest first.
    pub fn steps(&self) -> &[Step]
        ensures steps { result.now ≡ self.now.steps }
        ensures valid { IsHistory self.now }
    {
        self.steps.as_slice()
    }

    // What is present after the steps.
    fn present(&self) -> Present<'_>
        ensures { result ≡ base_after self.now.base self.now.steps }
    {
        self.near.present(&self.steps)
    }
}

// Makes room for one element more.
fn reserve<T>(row: &mut Vec<T>) -> Result<(), Fault>
    ensures items { row.new.items ≡ row.old.items }
    ensures ok { OnOk result (vec_len row.new < vec_capacity row.new) }
    ensures room { vec_capacity row.old ≤ vec_capacity row.new }
    ensures full { OnErr result (vec_capacity row.old ≤ vec_len row.old) }
    ensures err { IfErr result (λ fault. fault ≡ Fault.OutOfMemory) }
{
    row.try_reserve(1).map_err(|_| Fault::OutOfMemory)
}

// A reply, a read's with the word if there are words.
fn worded(has_words: bool, steps: &[Step], step: &Step, reply: Reply) -> Reply
    ensures { result ≡ worded has_words steps.now step.now reply }
{
    match (*step, reply) {
        (Step::Read { a, .. }, Reply::Readable) if has_words => Reply::Value(word(a, steps)),
        _ => reply,
    }
}
