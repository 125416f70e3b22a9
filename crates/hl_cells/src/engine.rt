ghost use Rattle.std.specs.Prelude.{◌≡◌, ℕ, None, [], IfOk, IfErr};

use crate::cells::Cells;
use crate::taken::TakenActions;
use hl_action::{Kept, Promise, Task};
use hl_core::Core;
use hl_drain::Drain;
use hl_epoch::Epochs;
use hl_model::{Fault, HasSizes, Sizes};
use std::alloc::Global;
use std::marker::Model;

/// A core over the table of epochs E with jobs F, the F * P words of its frames, and the taken actions that
/// aren't done. What its jobs return keeps the promise P.
pub struct Engine<E: Epochs, F: Task, P: Promise> {
    pub(crate) core: Core<E, Kept<F, P>>,
    pub(crate) words: Cells,
    pub(crate) held: TakenActions<F, P>,
}

impl<E: Epochs, F: Task, P: Promise> Model for Engine<E, F, P> {
    ghost use Rattle.hl_cells.specs.Engines.{Whole, IsEngine};

    ghost Value = { Whole F };

    ghost view = { λ a. record { core = a.core; words = a.words; held = a.held } };

    ghost invariant = { λ a. IsEngine (record { core = a.core; words = a.words; held = a.held }) };
}

impl<E: Epochs + Drop, F: Task, P: Promise> Drop for Engine<E, F, P> {
    fn drop(self) {
        let Engine {
            core: _,
            words: _,
            held: _,
        } = self;
    }
}

impl<E: Epochs + Drop, F: Task, P: Promise> Engine<E, F, P> {
    ghost use Rattle.hl_cells.specs.Engines.{EngineStands};
    ghost use Rattle.hl_cells.specs.Jobs.{job_under};

    /// Returns an engine at the empty list: its core is one that was just opened, all words are 0, and no job
    /// lies under any ticket. No other call is refused memory.
    ///
    /// `OutOfMemory` if memory for its rows was refused.
    pub fn open<S: HasSizes>(alloc: Global, params: S) -> Result<Engine<E, F, P>, Fault>
        ensures ok { IfOk result
            (λ engine. EngineStands engine [] × (engine.core.sizes ≡ S.sizes_of params)) }
        ensures jobs { IfOk result (λ engine. (c : ℕ) → job_under engine c ≡ None) }
        ensures err { IfErr result (λ fault. fault ≡ Fault.OutOfMemory) }
    {
        Engine::of_sizes(alloc, params.sizes())
    }

    // The same, of wide sizes.
    fn of_sizes(alloc: Global, params: Sizes) -> Result<Engine<E, F, P>, Fault>
        ensures ok { IfOk result (λ engine. EngineStands engine [] × (engine.core.sizes ≡ params)) }
        ensures jobs { IfOk result (λ engine. (c : ℕ) → job_under engine c ≡ None) }
        ensures err { IfErr result (λ fault. fault ≡ Fault.OutOfMemory) }
    {
        let core = Core::open(alloc, params)?;
        let words = Cells::zeros(alloc, params.frames() * params.page_size())?;
        let held = TakenActions::open(alloc, params.drain())?;
        Ok(Engine { core, words, held })
    }

    /// Its drain list: the actions that were never taken are in it with their jobs, and the tickets of those
    /// taken and not done. The jobs of the latter are given up.
    pub fn into_drain(self) -> Drain<Kept<F, P>>
        ensures { result ≡ self.core.drain }
    {
        let Engine {
            core,
            words: _,
            held: _,
        } = self;
        core.into_drain()
    }
}
