//! Two threads that add to a counter of a new domain: which adds are refused, where the word is the sum of those that
//! aren't.
use example_sums::add_anew;
use std::test::Fail;

#[test]
fn two_threads_add_up(rt: HostRuntime) -> Result<(), Fail> {
    for _ in 0..100 {
        let sums = add_anew(&rt, rt.alloc(), &[1, 2, 3], &[10, 20]).ok_or("both threads add")?;
        assert_eq!(rt; sums.first, 6);
        assert_eq!(rt; sums.second, 30);
        assert_eq!(rt; sums.word, 36);
    }
    Ok(())
}

#[test]
fn a_refused_add_is_in_no_sum(rt: HostRuntime) -> Result<(), Fail> {
    // A pass has room for 32 touches, so the last number of the first thread is refused.
    let sums = add_anew(&rt, rt.alloc(), &[1; 33], &[2; 32]).ok_or("both threads add")?;
    assert_eq!(rt; sums.first, 32);
    assert_eq!(rt; sums.second, 64);
    assert_eq!(rt; sums.word, 96);
    Ok(())
}
