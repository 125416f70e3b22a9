ghost use Rattle.std.specs.Prelude.{◌≡◌, IfErr};
ghost use Rattle.hl_model.specs.declared.fault.Fault.TheVariants.{OutOfMemory};

use hl_action::{Promise, Task};
use hl_domain::Domain;
use hl_epoch::Epochs;
use hl_model::{Fault, filled};
use hl_words::Realm;
use std::alloc::Global;
use std::marker::{Model, PhantomData};

/// Where a writer copies the words of a page and makes their image: made once for pages of the domains of one realm, and
/// used for each, so no page takes memory.
#[derive(Drop)]
pub(crate) struct Buffers<L: Realm> {
    pub(super) words: Vec<u64>,
    pub(super) image: Vec<u8>,
    of: PhantomData<L>,
}

impl<L: Realm> Model for Buffers<L> {
    ghost use Rattle.std.specs.Prelude.{◌≡◌, ◌+◌, ◌*◌, vec_len};

    ghost Value = { Unit {0} };

    ghost view = { λ _. tt };

    ghost invariant = { λ a. (vec_len a.words ≡ L.sizes.page_size)
        × (vec_len a.image ≡ 8 + 8 * L.sizes.page_size) };
}

impl<L: Realm> Buffers<L> {
    /// Buffers for pages of this domain.
    ///
    /// `OutOfMemory` if memory was refused.
    pub(crate) fn open<E: Epochs + Drop, F: Task, P: Promise>(
        alloc: Global,
        domain: &Domain<E, F, P, L>,
    ) -> Result<Buffers<L>, Fault>
        ensures { IfErr result (λ fault. fault ≡ OutOfMemory) }
    {
        domain.known();
        let places = domain.params().page_size();
        let words = filled(alloc, places, 0)?;
        let image = filled(alloc, 8 + 8 * places, 0)?;
        Ok(Buffers {
            words,
            image,
            of: PhantomData,
        })
    }
}
