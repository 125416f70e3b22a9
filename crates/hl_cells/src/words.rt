ghost use Rattle.std.specs.Prelude.{◌≡◌, ◌*◌, ◌%◌, ◌<◌, List, OnErr};
ghost use Rattle.hl_model.specs.declared.step.Step.{Step as STEP};
ghost use Rattle.hl_model.specs.declared.step.Step.TheVariants.{Read as READ, Write as WRITE};
ghost use Rattle.hl_model.specs.Words.{word, page_words};
ghost use Rattle.hl_model.specs.Replies.{fault_of, unless_fault, extended};
ghost use Rattle.hl_cells.specs.CellWords.{cell_at};
ghost use Rattle.hl_cells.specs.Engines.{EngineStands, IsEngine, Shows};
ghost use Rattle.hl_cells.specs.Jobs.{JobsStay};

use crate::engine::Engine;
use hl_action::{Promise, Task};
use hl_epoch::Epochs;
use hl_model::{Fault, cell_of};

impl<E: Epochs + Drop, F: Task, P: Promise> Engine<E, F, P> {
    /// Returns the word at address a, read by slot t. A word that was never written is 0.
    ///
    /// Faults, in their order: `NoSlot`, `NotProtected`, `Evicted` if the address is below the head that the
    /// slot saw, `Beyond` if it is at or above the tail that the slot saw.
    pub fn read(&self, t: u64, a: u64) -> Result<u64, Fault>
        ensures value { (A : List STEP) → EngineStands self.now A
            → result ≡ unless_fault (fault_of self.now.core.sizes A (READ t a)) (word a A) }
        ensures valid { IsEngine self.now }
    {
        self.core.may_read(t, a)?;
        let cell = self.cell_of(a);
        Ok(self.words.word(cell))
    }

    /// Slot t writes v to the word at address a.
    ///
    /// Faults, in their order: `NoSlot`, `NotProtected`, `Below` if the address is below the read-only offset
    /// that the slot saw, `Beyond` if it is at or above the tail that the slot saw. A refused write changes
    /// nothing.
    pub fn write(&mut self, t: u64, a: u64, v: u64) -> Result<(), Fault>
        ensures result { (A : List STEP) → EngineStands self.old A
            → result ≡ unless_fault (fault_of self.old.core.sizes A (WRITE t a v)) tt }
        ensures standing { (A : List STEP) → EngineStands self.old A
            → EngineStands self.new (extended self.old.core.sizes A (WRITE t a v)) }
        ensures jobs { JobsStay self.old self.new }
        ensures sizes { self.new.core.sizes ≡ self.old.core.sizes }
        ensures refused { OnErr result (self.new ≡ self.old) }
        ensures valid { IsEngine self.old }
    {
        let cell = self.cell_of(a);
        self.core.may_write(t, a)?;
        self.words.set(cell, v);
        Ok(())
    }

    /// The words of a page, which is its frame's last entered one, if that frame isn't free: the page that
    /// `frame` returns.
    pub fn page_words(&self, page: u64) -> &[u64]
        requires { Shows self.now page }
        ensures { (A : List STEP) → EngineStands self.now A
            → result.now ≡ page_words self.now.core.sizes page A }
    {
        self.words.part(self.first_cell(page), self.page_size())
    }

    /// The cell of address a.
    fn cell_of(&self, a: u64) -> usize
        ensures value { let sizes = self.now.core.sizes in result ≡ cell_at sizes a }
        ensures in_range { let sizes = self.now.core.sizes in result < sizes.frames * sizes.page_size }
    {
        cell_of(self.core.params(), a) as usize
    }

    /// The cell of a page's first word.
    pub(crate) fn first_cell(&self, page: u64) -> usize
        ensures { let sizes = self.now.core.sizes in result ≡ page % sizes.frames * sizes.page_size }
    {
        let params = self.core.params();
        (page % params.frames() * params.page_size()) as usize
    }

    /// How many words a page has.
    pub(crate) fn page_size(&self) -> usize
        ensures { result ≡ self.now.core.sizes.page_size }
    {
        self.core.params().page_size() as usize
    }
}
