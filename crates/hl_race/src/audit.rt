//! Whether what a race left is what its steps say.
use hl_action::{Promise, Task};
use hl_core::Core;
use hl_counts::CountTable;
use hl_domain::Ending;
use hl_image::MemoryWriter;
use hl_model::{Fault, Sizes, Snapshot, Step, Tag};
use hl_plain::Plain;
use std::alloc::Global;

/// Whether a fresh core takes all steps of the journal, and is then at the closing snapshot, and riders entered as
/// many steps as there are. It is for a journal that was never cut.
///
/// `OutOfMemory` if memory for the core was refused.
pub fn agrees_from_the_start<F: Task, P: Promise>(
    alloc: Global,
    params: Sizes,
    ending: &Ending<F, P>,
    shares: u64,
) -> Result<bool, Fault> {
    let mut core = Core::<CountTable, Tag>::open(alloc, params)?;
    let accepted = ending.journal.iter().all(|step| core.step(step).is_ok());
    let counted = ending.journal.len() as u64 == shares;
    Ok(accepted && counted && core.snapshot() == ending.snapshot)
}

/// Whether the slow form, from the base of the steps that were cut, takes all steps since, and is then at the closing
/// snapshot, and riders entered as many steps as were cut and kept.
///
/// `OutOfMemory` if memory was refused; `Size` if the domain's sizes aren't narrow: the slow form takes no others.
pub fn agrees_from_the_base<F: Task, P: Promise>(
    alloc: Global,
    ending: &Ending<F, P>,
    shares: u64,
) -> Result<bool, Fault> {
    ending.base.params().params().ok_or(Fault::Size)?;
    let mut plain = Plain::from_base(alloc, &ending.base)?;
    for step in &ending.journal {
        match plain.step(step) {
            Ok(_) => {}
            Err(Fault::OutOfMemory) => return Err(Fault::OutOfMemory),
            Err(_) => return Ok(false),
        }
    }
    let counted = ending.cut.checked_add(ending.journal.len() as u64) == Some(shares);
    Ok(counted && plain.snapshot() == ending.snapshot)
}

/// Whether each page below this one has an image in one of the writers.
pub(crate) fn has_images(writers: &Option<[MemoryWriter; 2]>, pages: u64) -> bool {
    match writers {
        Some([one, other]) => (0..pages).all(|page| one.image(page).is_some()
            || other.image(page).is_some()),
        None => pages == 0,
    }
}
