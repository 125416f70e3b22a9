ghost use Rattle.std.specs.Prelude.{◌≡◌, List};
ghost use Rattle.hl_model.specs.declared.step.Step.{Step};
ghost use Rattle.hl_model.specs.Bases.{base_of};
ghost use Rattle.hl_core.specs.Standing.{Stands};
ghost use Rattle.hl_core.specs.Telling.{told};

use crate::state::Core;
use hl_epoch::Epochs;
use hl_laws::{Base, Quantities};
use hl_model::{Held, Six, Slot, Tagged, Waiting};

impl<E: Epochs, J: Tagged> Core<E, J> {
    /// Puts the quantities in place of those of a base of the same sizes. It takes no memory.
    pub fn base_into(&self, base: &mut Base)
        requires same_sizes { base.old.sizes ≡ self.now.sizes }
        ensures { (A : List Step) → Stands J.tag self.now A → base.new ≡ base_of self.now.sizes A }
    {
        // That it stands at some list is in its type, and known once a field is named.
        let _ = &self.params;
        base.renew(self);
    }
}

impl<E: Epochs, J: Tagged> Quantities for Core<E, J> {
    ghost tells = { λ core. told J.tag core };

    fn epoch(&self) -> u64 {
        self.table.current()
    }

    fn slot(&self, t: u64) -> Option<Slot> {
        let epoch = self.table.epoch_of(t)?;
        let view = self.views.get(t)??;
        Some(Slot { epoch, view })
    }

    fn waiting_count(&self) -> u64 {
        self.drain.pending_count()
    }

    fn waiting_at(&self, n: u64) -> Option<Waiting> {
        self.drain.pending_at(n)
    }

    fn taken_row(&self) -> &[Waiting] {
        self.drain.taken_row()
    }

    fn offsets(&self) -> Six {
        self.offsets.six(self.frames.flushed_until())
    }

    fn held(&self, f: u64) -> Option<Held> {
        self.frames.marks(f)
    }

    fn held_row(&self) -> Option<&[Option<Held>]> {
        Some(self.frames.row())
    }
}
