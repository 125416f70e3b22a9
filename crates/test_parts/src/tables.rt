//! Both tables of epochs, by the trait that they meet.
ghost use Rattle.std.specs.Prelude.{◌≡◌};

use hl_counts::CountTable;
use hl_epoch::{Epochs, ScanTable};
use hl_model::Fault;
use std::process::Abort;
use std::test::Fail;

// A bump by a caller that sees from the table that its window, of two epochs, has room.
fn bump_with_room<E: Epochs>(rt: &impl Abort, table: &mut E) -> Result<u64, Fault>
    requires { (E.table table.old).window ≡ 2 }
    ensures { (E.table table.new).window ≡ 2 }
{
    assert!(rt; table.current() - 1 - table.safe() < 2);
    table.bump()
}

// Two threads see the first epoch, and two bumps fill the window.
fn fill_window<E: Epochs>(rt: &impl Abort, table: &mut E)
    requires { (E.table table.old).window ≡ 2 }
    ensures { (E.table table.new).window ≡ 2 }
{
    assert_eq!(rt; [table.acquire(0), table.acquire(1)], [Ok(()), Ok(())]);
    let bumps = [bump_with_room(rt, table), bump_with_room(rt, table)];
    assert_eq!(rt; bumps, [Ok(1), Ok(2)]);
}

// The window is full until both threads have moved on.
fn move_on<E: Epochs>(rt: &impl Abort, table: &mut E)
    requires { (E.table table.old).window ≡ 2 }
    ensures { (E.table table.new).window ≡ 2 }
{
    assert_eq!(rt; table.refresh(0), Ok(()));
    assert_eq!(rt; table.current() - 1 - table.safe(), 2);
    assert_eq!(rt; (table.release(1), table.epoch_of(0)), (Ok(()), Some(3)));
}

// Two bumps fill the window; once both threads have moved on there is room for a third.
fn full_window<E: Epochs>(rt: &impl Abort, table: &mut E)
    requires { (E.table table.old).window ≡ 2 }
{
    fill_window(rt, table);
    move_on(rt, table);
    assert_eq!(rt; (bump_with_room(rt, table), table.safe()), (Ok(3), 2));
}

// After that a refresh visits the two places of the slot, and the one that the safe epoch passes.
fn turns_of_counts(rt: &impl Abort, table: &mut CountTable) {
    assert_eq!(rt; table.turns(), 1);
    assert_eq!(rt; (table.refresh(0), table.turns()), (Ok(()), 3));
}

#[test]
fn window_of_each_table(rt: HostRuntime) -> Result<(), Fail> {
    full_window(&rt, &mut ScanTable::make(rt.alloc(), 2, 2)?);
    let mut counts = CountTable::make(rt.alloc(), 2, 2)?;
    full_window(&rt, &mut counts);
    turns_of_counts(&rt, &mut counts);
    Ok(())
}

// A thread of each slot comes in, and all but the last see the epoch that two bumps end at.
fn enter_and_leave_one_behind(rt: &impl Abort, table: &mut CountTable)
    requires { table.old.table.window ≡ 2 }
    ensures { table.new.table.window ≡ 2 }
{
    for t in 0..64 {
        assert_eq!(rt; table.acquire(t), Ok(()));
    }
    let bumps = [bump_with_room(rt, table), bump_with_room(rt, table)];
    assert_eq!(rt; bumps, [Ok(1), Ok(2)]);
    for t in 0..63 {
        assert_eq!(rt; table.refresh(t), Ok(()));
    }
}

// However many slots there are, the last one's refresh visits no more places than the window has, and two.
#[test]
fn many_slots(rt: HostRuntime) -> Result<(), Fail> {
    let mut table = CountTable::make(rt.alloc(), 64, 2)?;
    enter_and_leave_one_behind(&rt, &mut table);
    assert_eq!(rt;
        (table.safe(), table.refresh(63), table.safe()),
        (0, Ok(()), 2)
    );
    assert!(rt; table.turns() <= 4);
    Ok(())
}

// The epoch of this table is the last.
fn is_spent<E: Epochs>(rt: &impl Abort, table: &mut E)
    requires { (E.table table.old).window ≡ 2 }
{
    assert_eq!(rt; bump_with_room(rt, table), Err(Fault::EpochsSpent));
}

// No script reaches it.
#[test]
fn last_epoch_of_each_table(rt: HostRuntime) -> Result<(), Fail> {
    is_spent(&rt, &mut ScanTable::resume(rt.alloc(), 1, 2, 1 << 62)?);
    is_spent(&rt, &mut CountTable::resume(rt.alloc(), 1, 2, 1 << 62)?);
    Ok(())
}
