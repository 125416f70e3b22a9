//! Bases whose rows are full, from which the slow form goes on.
use hl_core::Core;
use hl_counts::CountTable;
use hl_epoch::{Epochs, ScanTable};
use hl_laws::Base;
use hl_model::{Fault, Params, Step, Tag};
use hl_plain::Plain;
use std::alloc::{AllocError, Global};
use std::process::Abort;
use std::test::Fail;

// A core behind these steps.
fn core_behind<E: Epochs + Drop>(
    alloc: Global,
    before: &[Step],
    params: Params,
) -> Result<Core<E, Tag>, Fail> {
    let mut core = Core::<E, Tag>::open(alloc, params)?;
    let mut replies = vec![in alloc; Err(Fault::Empty); before.len()]?;
    core.run(before, &mut replies);
    Ok(core)
}

/// The base of a core.
#[tactic(auto, unfolding(hl_model::specs::Bases::base_of))]
pub(crate) fn base_behind<E: Epochs + Drop>(
    alloc: Global,
    core: &Core<E, Tag>,
) -> Result<Base, Fault> {
    let mut base = Base::opening(alloc, core.params())?;
    core.base_into(&mut base);
    Ok(base)
}

// The slow form that goes on from the base of a core.
fn plain_behind<E: Epochs + Drop>(alloc: Global, core: &Core<E, Tag>) -> Result<Plain, Fault> {
    let base = base_behind(alloc, core)?;
    base.params().params().ok_or(Fault::Size)?;
    Plain::from_base(alloc, &base)
}

// Steps that protect 64 slots, store 64 actions and enter 256 pages of 4 words.
fn full_rows(alloc: Global) -> Result<Vec<Step>, AllocError> {
    let mut steps = Vec::new(alloc);
    for t in 0..64 {
        for step in [
            Step::Acquire { t },
            Step::Bump { tag: t },
            Step::Refresh { t },
        ] {
            steps.push(step)?;
        }
    }
    for _ in 0..256 {
        steps.push(Step::Allocate { t: 63, n: 4 })?;
    }
    Ok(steps)
}

// Each slot moves on, and an action is taken.
fn take_all(steps: &mut Vec<Step>) -> Result<(), AllocError> {
    for t in 0..64 {
        steps.push(Step::Refresh { t })?;
        steps.push(Step::Take)?;
    }
    Ok(())
}

// The slow form goes on from the base of these steps: how many actions wait there, and how many are taken.
fn waiting_and_taken<E: Epochs + Drop>(alloc: Global, steps: &[Step]) -> Result<(u64, u64), Fail> {
    let params = Params::checked(4, 256, 64, 64).ok_or("sizes in range")?;
    let core = core_behind::<E>(alloc, steps, params)?;
    let plain = plain_behind(alloc, &core)?;
    let now = plain.snapshot();
    Ok((now.pending, now.taken))
}

fn cut_full_rows<E: Epochs + Drop>(rt: &impl Abort, alloc: Global) -> Result<(), Fail> {
    let mut steps = full_rows(alloc)?;
    assert_eq!(rt; waiting_and_taken::<E>(alloc, &steps)?, (64, 0));
    take_all(&mut steps)?;
    assert_eq!(rt; waiting_and_taken::<E>(alloc, &steps)?, (0, 64));
    Ok(())
}

// Each row of a base of the greatest sizes is full: first all its actions wait, then all are taken. No clause can tell
// that memory for its copy wasn't refused.
#[test]
fn full_rows_are_cut(rt: HostRuntime) -> Result<(), Fail> {
    cut_full_rows::<ScanTable>(&rt, rt.alloc())?;
    cut_full_rows::<CountTable>(&rt, rt.alloc())
}
