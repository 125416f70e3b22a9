ghost use Rattle.std.specs.Prelude.{◌≡◌, ◌<◌, ◌≤◌, None, [], length, slice_get, slice_index_or, vec_capacity, IfOk, IfErr, IfSome};
ghost use Rattle.hl_model.specs.Bases.{Base as BaseRecord, IsBase, base_of};

use hl_model::{Fault, HasSizes, Held, Six, Sizes, Slot, Waiting, filled, with_room};
use std::alloc::Global;
use std::marker::Model;

/// The quantities of an allocator at one moment, without words and jobs: all that later steps are answered
/// by. With it the steps that led there need not be kept.
///
/// That they are those of some accepted list of steps is in its type. It is made for that of no steps, and
/// renewed by whoever has such quantities, without taking memory.
#[derive(Drop)]
pub struct Base {
    params: Sizes,
    epoch: u64,
    // Each row has room for exactly what the sizes allow.
    slots: Vec<Option<Slot>>,
    waiting: Vec<Waiting>,
    taken: Vec<Waiting>,
    six: Six,
    frames: Vec<Option<Held>>,
}

impl Model for Base {
    ghost use Rattle.hl_model.specs.Bases.{Base as BaseRecord};

    ghost Value = { BaseRecord };

    ghost use Rattle.hl_laws.specs.BaseRows.{base_in, HasRows};

    ghost view = { base_in };

    ghost invariant = { HasRows };
}

/// Where the quantities of a base come from. They are asked for one by one, so that no row of them has to be
/// made; one that has the row of its frames may lend it.
pub trait Quantities {
    /// All of them.
    ghost tells: { Self → BaseRecord };

    /// The current epoch.
    fn epoch(&self) -> u64
        ensures { result ≡ (tells self.now).epoch };

    /// What slot t has, below S, if it is protected.
    fn slot(&self, t: u64) -> Option<Slot>
        requires { t < (tells self.now).sizes.slots }
        ensures { result ≡ slice_index_or (tells self.now).slots t None };

    /// How many actions are pending.
    fn waiting_count(&self) -> u64
        ensures { result ≡ length (tells self.now).waiting };

    /// The n-th pending action, oldest first; None if fewer are pending.
    fn waiting_at(&self, n: u64) -> Option<Waiting>
        ensures { result ≡ slice_get (tells self.now).waiting n };

    /// The actions taken and not done, oldest first.
    fn taken_row(&self) -> &[Waiting]
        ensures { result.now ≡ (tells self.now).taken };

    /// The six offsets.
    fn offsets(&self) -> Six
        ensures { result ≡ (tells self.now).six };

    /// What frame f holds, below F.
    fn held(&self, f: u64) -> Option<Held>
        requires { f < (tells self.now).sizes.frames }
        ensures { result ≡ slice_index_or (tells self.now).frames f None };

    /// What all frames hold, from frame 0 on, if this is kept in such a row: then a base copies the row at
    /// once.
    fn held_row(&self) -> Option<&[Option<Held>]>
        ensures { IfSome result (λ row. row.now ≡ (tells self.now).frames) }
    {
        None
    }
}

impl Base {
    /// The base of no steps: epoch 1, no slot protected, no action, all offsets 0, no page entered.
    ///
    /// `OutOfMemory` if memory for its rows was refused.
    pub fn opening<S: HasSizes>(alloc: Global, params: S) -> Result<Base, Fault>
        ensures ok { IfOk result (λ base. base ≡ base_of (S.sizes_of params) []) }
        ensures err { IfErr result (λ fault. fault ≡ Fault.OutOfMemory) }
    {
        Base::of_sizes(alloc, params.sizes())
    }

    // The same, of wide sizes.
    fn of_sizes(alloc: Global, params: Sizes) -> Result<Base, Fault>
        ensures ok { IfOk result (λ base. base ≡ base_of params []) }
        ensures err { IfErr result (λ fault. fault ≡ Fault.OutOfMemory) }
    {
        let slots = filled(alloc, params.slots(), None)?;
        let waiting = with_room(alloc, params.drain())?;
        let taken = with_room(alloc, params.drain())?;
        let frames = filled(alloc, params.frames(), None)?;
        Ok(Base {
            params,
            epoch: 1,
            slots,
            waiting,
            taken,
            six: Six::default(),
            frames,
        })
    }

    /// Puts other quantities in place of these: those of some accepted list, of the same sizes.
    pub fn renew<Q: Quantities>(&mut self, quantities: &Q)
        requires base { IsBase (Q.tells quantities.now) }
        requires sizes { (Q.tells quantities.now).sizes ≡ self.old.sizes }
        ensures { self.new ≡ Q.tells quantities.now }
    {
        self.epoch = quantities.epoch();
        refill_slots(&mut self.slots, quantities, self.params.slots());
        refill_waiting(&mut self.waiting, quantities);
        refill(&mut self.taken, quantities.taken_row());
        self.six = quantities.offsets();
        refill_frames(&mut self.frames, quantities, self.params.frames());
    }

    /// Another base of the same quantities, in rows of its own.
    ///
    /// `OutOfMemory` if memory for its rows was refused.
    pub fn copied(&self, alloc: Global) -> Result<Base, Fault>
        ensures ok { IfOk result (λ base. base ≡ self.now) }
        ensures valid { IsBase self.now }
        ensures err { IfErr result (λ fault. fault ≡ Fault.OutOfMemory) }
    {
        let mut base = Base::of_sizes(alloc, self.params)?;
        base.renew(self);
        Ok(base)
    }

    /// The sizes.
    pub fn params(&self) -> Sizes
        ensures { result ≡ self.now.sizes }
    {
        self.params
    }

    /// The current epoch.
    pub fn epoch(&self) -> u64
        ensures { result ≡ self.now.epoch }
    {
        self.epoch
    }

    /// What each of the S slots has: its epoch and its view, or None if it isn't protected.
    pub fn slots(&self) -> &[Option<Slot>]
        ensures { result.now ≡ self.now.slots }
    {
        &self.slots
    }

    /// The pending actions, oldest first.
    pub fn waiting(&self) -> &[Waiting]
        ensures { result.now ≡ self.now.waiting }
    {
        &self.waiting
    }

    /// The actions taken and not done, oldest first.
    pub fn taken(&self) -> &[Waiting]
        ensures { result.now ≡ self.now.taken }
    {
        &self.taken
    }

    /// The six offsets.
    pub fn six(&self) -> Six
        ensures { result ≡ self.now.six }
    {
        self.six
    }

    /// What each of the F frames holds: its last entered page with its marks, or None if none was entered.
    pub fn frames(&self) -> &[Option<Held>]
        ensures { result.now ≡ self.now.frames }
    {
        &self.frames
    }
}

impl Quantities for Base {
    ghost tells = { λ base. base };

    fn epoch(&self) -> u64 {
        self.epoch
    }

    fn slot(&self, t: u64) -> Option<Slot> {
        self.slots[t as usize]
    }

    fn waiting_count(&self) -> u64 {
        self.waiting.len() as u64
    }

    fn waiting_at(&self, n: u64) -> Option<Waiting> {
        self.waiting.get(n as usize).copied()
    }

    fn taken_row(&self) -> &[Waiting] {
        &self.taken
    }

    fn offsets(&self) -> Six {
        self.six
    }

    fn held(&self, f: u64) -> Option<Held> {
        self.frames[f as usize]
    }

    fn held_row(&self) -> Option<&[Option<Held>]> {
        Some(&self.frames)
    }
}

// Puts what each of the slots has in place of what is in a row that has room for it.
fn refill_slots<Q: Quantities>(row: &mut Vec<Option<Slot>>, quantities: &Q, slots: u64)
    requires sizes { slots ≡ (Q.tells quantities.now).sizes.slots }
    requires told { length (Q.tells quantities.now).slots ≡ slots }
    requires room { vec_capacity row.old ≡ slots }
    ensures items { row.new.items ≡ (Q.tells quantities.now).slots }
    ensures room { vec_capacity row.new ≡ vec_capacity row.old }
{
    row.clear();
    for t in 0..slots {
        row.push_reserved(quantities.slot(t));
    }
}

// Puts the pending actions in place of those in a row that has room for them.
fn refill_waiting<Q: Quantities>(row: &mut Vec<Waiting>, quantities: &Q)
    requires { length (Q.tells quantities.now).waiting ≤ vec_capacity row.old }
    ensures items { row.new.items ≡ (Q.tells quantities.now).waiting }
    ensures room { vec_capacity row.new ≡ vec_capacity row.old }
{
    row.clear();
    for n in 0..quantities.waiting_count() {
        if let Some(waiting) = quantities.waiting_at(n) {
            row.push_reserved(waiting);
        }
    }
}

// Puts what each of the frames holds in place of what is in a row of as many. A row that is lent is copied at
// once: a base is renewed under its owner's lock, and there may be 65,536 frames.
fn refill_frames<Q: Quantities>(row: &mut Vec<Option<Held>>, quantities: &Q, frames: u64)
    requires sizes { frames ≡ (Q.tells quantities.now).sizes.frames }
    requires told { length (Q.tells quantities.now).frames ≡ frames }
    requires filled { length row.old.items ≡ frames }
    requires room { vec_capacity row.old ≡ frames }
    ensures items { row.new.items ≡ (Q.tells quantities.now).frames }
    ensures room { vec_capacity row.new ≡ vec_capacity row.old }
{
    if let Some(held) = quantities.held_row() {
        row.copy_from_slice(held);
        return;
    }
    row.clear();
    for f in 0..frames {
        row.push_reserved(quantities.held(f));
    }
}

// Puts other elements in place of those of a row that has room for them.
fn refill(row: &mut Vec<Waiting>, elements: &[Waiting])
    requires { length elements.now ≤ vec_capacity row.old }
    ensures items { row.new.items ≡ elements.now }
    ensures room { vec_capacity row.new ≡ vec_capacity row.old }
{
    row.clear();
    for element in elements {
        row.push_reserved(*element);
    }
}
