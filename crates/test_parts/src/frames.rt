ghost use Rattle.std.specs.Prelude.{◌≡◌};
ghost use Rattle.hl_frames.specs.Answers.{opened};

use hl_frames::Frames;
use hl_model::{Fault, Params};
use std::process::Abort;
use std::test::Fail;

// Both pages are entered, and taken to be flushed.
fn takes_both(rt: &impl Abort, frames: &mut Frames)
    requires { frames.old.pages ≡ opened 4 2 }
{
    let entered = [frames.enter(0), frames.enter(1)];
    let taken = [frames.flush_take(8), frames.flush_take(8)];
    assert_eq!(rt; (entered, taken), ([Ok(()), Ok(())], [Ok(0), Ok(1)]));
}

// Flushes a page: the flushed offset then, and how many frames were visited.
fn flush(frames: &mut Frames, page: u64) -> (Result<u64, Fault>, u64) {
    (frames.flush_done(page, true), frames.turns().flush_done)
}

// The later page is flushed first; then the run of flushed pages is moved over both.
fn flushes_both(rt: &impl Abort, frames: &mut Frames) {
    // The page itself, and page 0, at which the run stops.
    assert_eq!(rt; flush(frames, 1), (Ok(0), 2));
    // The page itself, and the two that the run is moved over.
    assert_eq!(rt; flush(frames, 0), (Ok(8), 3));
}

// A take by a caller that sees that page 0, which ends at address 4, is flushed.
fn clean_take(rt: &impl Abort, frames: &mut Frames) -> Result<u64, Fault> {
    assert!(rt; frames.flushed_until() >= 4);
    frames.clean_take(4)
}

// Page 0 is closed, and cleaned once.
fn cleans_one(rt: &impl Abort, frames: &mut Frames) {
    let cleaned = (clean_take(rt, frames), frames.clean_done(0));
    assert_eq!(rt; cleaned, (Ok(0), Ok(())));
    let turns = frames.turns();
    assert!(rt; turns.enter == 1 && turns.clean_done == 1);
    assert_eq!(rt; clean_take(rt, frames), Err(Fault::NoneClosed));
}

#[test]
fn turns_of_a_run(rt: HostRuntime) -> Result<(), Fail> {
    let params = Params::checked(4, 2, 2, 4).ok_or("sizes in range")?;
    let mut frames = Frames::open(rt.alloc(), params)?;
    let none = frames.turns();
    assert!(rt; none.enter == 0 && none.flush_done == 0 && none.clean_done == 0);
    takes_both(&rt, &mut frames);
    flushes_both(&rt, &mut frames);
    cleans_one(&rt, &mut frames);
    Ok(())
}
