ghost use Rattle.std.specs.Prelude.{◌≡◌, List};
ghost use Rattle.hl_model.specs.declared.step.Step.{Step};
ghost use Rattle.hl_core.specs.Standing.{Stands};
ghost use Rattle.hl_pass.specs.Calls.{looked};

use crate::pass_view::PassView;
use hl_core::Core;
use hl_epoch::Epochs;
use hl_model::Tagged;

/// Brings a core what a pass saw without the lock: as a look of its slot, if it saw an offset that its slot
/// didn't.
#[inline(always)]
pub fn catch_up<E: Epochs, J: Tagged>(core: &mut Core<E, J>, pass: &PassView)
    ensures standing { (A : List Step) → Stands J.tag core.old A
        → Stands J.tag core.new (looked core.old.sizes A pass.now) }
    ensures sizes { core.new.sizes ≡ core.old.sizes }
    ensures jobs { core.new.drain.pending ≡ core.old.drain.pending }
{
    if !pass.is_up() {
        let _seen = core.look(pass.slot, pass.view.read_only, pass.view.head);
    }
}
