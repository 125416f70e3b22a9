//! A value that one thread passes to another: that it is passed at all, where the law says that it is then found.
use example_passing::pass_anew;
use std::test::Fail;

#[test]
fn a_past_is_found_by_the_other_thread(rt: HostRuntime) -> Result<(), Fail> {
    for _ in 0..100_000 {
        if let Some(passed) = pass_anew(&rt, rt.alloc(), 41) {
            assert_eq!(rt; passed.found, 41);
            return Ok(());
        }
    }
    Err("the second thread was never told".into())
}
