//! Two threads that bump a new domain: that neither is refused, where one list says what they are answered; and that one
//! is told of the other's bump at all, where the law says that its own then comes later.
use example_turns::{bump_after_anew, bump_anew};
use std::test::Fail;

#[test]
fn two_threads_bump_in_turn(rt: HostRuntime) -> Result<(), Fail> {
    for _ in 0..100 {
        let turns = bump_anew(&rt, rt.alloc()).ok_or("both threads bump")?;
        assert_eq!(rt; turns.epoch, 3);
        assert!(rt; matches!((turns.one, turns.two), (1, 2) | (2, 1)));
    }
    Ok(())
}

#[test]
fn a_told_bump_comes_later(rt: HostRuntime) -> Result<(), Fail> {
    for _ in 0..100_000 {
        if let Some(numbers) = bump_after_anew(&rt, rt.alloc()) {
            assert_eq!(rt; (numbers.first, numbers.second), (1, 2));
            return Ok(());
        }
    }
    Err("the second thread was never told".into())
}
