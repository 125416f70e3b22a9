use hl_drain::{Action, Drain};
use hl_model::{Fault, Kind, Tag};

#[test]
fn actions_come_and_go(rt: HostRuntime) -> Result<(), Fault> {
    let mut drain = Drain::<Tag>::open(rt.alloc(), 2)?;
    assert_eq!(rt; drain.put(1, Action::User(Tag(9))), Ok(()));
    assert_eq!(rt; drain.put(2, Action::Close(16)), Ok(()));
    let refused = Err((Fault::DrainFull, Action::Settle(4)));
    assert_eq!(rt; drain.put(3, Action::Settle(4)), refused);
    assert_eq!(rt; drain.pending().len(), 2);
    assert_eq!(rt; drain.take(1), Ok((1, Action::User(Tag(9)))));
    assert_eq!(rt; drain.done(1), Ok(Kind::User(9)));
    assert!(rt; drain.has_room());
    assert_eq!(rt; drain.give_up(), Some((2, Action::Close(16))));
    assert_eq!(rt; drain.take(2), Err(Fault::Empty));
    Ok(())
}

#[test]
fn long_waiting_action(rt: HostRuntime) -> Result<(), Fault> {
    let mut drain = Drain::<Tag>::open(rt.alloc(), 3)?;
    assert_eq!(rt; drain.put(1, Action::Settle(8)), Ok(()));
    assert_eq!(rt; drain.take(1), Ok((1, Action::Settle(8))));
    for c in 2..1001 {
        assert_eq!(rt; drain.put(c, Action::User(Tag(c))), Ok(()));
        assert_eq!(rt; drain.take(c), Ok((c, Action::User(Tag(c)))));
        assert_eq!(rt; drain.turns(), 1);
        let taken = drain.taken();
        assert!(rt; taken.iter().map(|waiting| waiting.ticket).eq([1, c]));
        assert_eq!(rt; drain.done(c), Ok(Kind::User(c)));
    }
    assert_eq!(rt; drain.done(1), Ok(Kind::Settle(8)));
    Ok(())
}
