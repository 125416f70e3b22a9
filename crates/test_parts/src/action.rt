ghost use Rattle.std.specs.Prelude.{◌≡◌, ◌+◌};
ghost use Rattle.hl_action.specs.Firings.{IsSafe};
ghost use Rattle.hl_action.specs.Jobs.{CanBeCalled, AnswersKeep};

use hl_action::{Call, Firing, Kept, Outcome, Promise, Ready, Shelf, Task};
use hl_model::Fault;
use std::alloc::Global;
use std::sync::atomic::{AtomicU64, Ordering};

// A job answers its tag and the ticket that it is run under, added up.
struct TagAndTicket;

impl Promise for TagAndTicket {
    ghost keeps = { λ tag firing answer. answer ≡ tag + firing.ticket };
}

// Runs a job of tag 7 under ticket 1.
fn run_seven<F: Task>(job: F) -> Outcome
    requires callable { CanBeCalled (F.can job) }
    requires keeps { AnswersKeep (F.gives job) (λ firing answer. answer ≡ 7 + firing.ticket) }
{
    let kept = Kept::<F, TagAndTicket>::new(7, job);
    Ready::of(1000, Firing::new(1, 4), Some(kept)).run().done()
}

#[test]
fn a_closure_runs(rt: HostRuntime) {
    let outcome = run_seven(Call(|firing: Firing| 7 + firing.ticket()));
    assert!(rt; outcome.origin == 1000 && outcome.ticket == 1 && outcome.answer == Some(8));
}

// Any answer will do.
struct Anything;

impl Promise for Anything {
    ghost keeps = { λ tag firing answer. answer ≡ answer };
}

// Counts its calls.
#[derive(Drop)]
struct Counted<'a> {
    calls: &'a AtomicU64,
}

impl<'a> Task for Counted<'a> {
    ghost can = { λ job firing. IsSafe firing };

    ghost gives = { λ job firing answer. answer ≡ answer };

    fn call(self, _firing: Firing) -> u64 {
        self.calls.fetch_add(1, Ordering::SeqCst)
    }
}

// What becomes of a job.
#[derive(Clone, Copy)]
enum End {
    Forsaken,
    ShelfDropped,
    TakenAndRun,
}

// Puts a job on a shelf, and brings it to its end.
fn spend(alloc: Global, end: End, calls: &AtomicU64) -> Result<(), Fault> {
    let mut shelf = Shelf::<_, Anything>::open(alloc, 8)?;
    drop(shelf.put(Kept::new(7, Counted { calls })));
    match end {
        End::Forsaken => Ready::of(0, Firing::new(1, 4), shelf.take(7)).forsake(),
        End::ShelfDropped => drop(shelf),
        End::TakenAndRun => Ready::of(0, Firing::new(1, 4), shelf.take(7))
            .run()
            .forsake(),
    }
    Ok(())
}

// How often a job is called until its end.
fn calls_until(alloc: Global, end: End) -> Result<u64, Fault> {
    let calls = AtomicU64::new(0);
    spend(alloc, end, &calls)?;
    Ok(calls.load(Ordering::SeqCst))
}

#[test]
fn a_job_is_called_by_its_run_alone(rt: HostRuntime) -> Result<(), Fault> {
    let rows = [
        ("forsaken", End::Forsaken, 0),
        ("dropped with its shelf", End::ShelfDropped, 0),
        ("taken and run", End::TakenAndRun, 1),
    ];
    for (name, end, expected) in rows {
        assert_eq!(rt; calls_until(rt.alloc(), end)?, expected, "{name}");
    }
    Ok(())
}

// A shelf with three places takes a job where its tag has a free one, and gives it once.
#[test]
fn shelf(rt: HostRuntime) -> Result<(), Fault> {
    let calls = AtomicU64::new(0);
    let mut shelf = Shelf::<_, Anything>::open(rt.alloc(), 3)?;
    for (tag, is_back) in [(3, true), (1, false), (1, true)] {
        let back = shelf.put(Kept::new(tag, Counted { calls: &calls }));
        assert_eq!(rt; back.is_some(), is_back, "a job of tag {tag}");
    }
    let taken = [shelf.take(1).is_some(), shelf.take(1).is_some()];
    assert_eq!(rt; (taken, shelf.has(1)), ([true, false], false));
    Ok(())
}

// A shelf for very many tags takes the job of the last one.
#[test]
fn many_tags(rt: HostRuntime) -> Result<(), Fault> {
    let calls = AtomicU64::new(0);
    let mut shelf = Shelf::<_, Anything>::open(rt.alloc(), 1 << 20)?;
    let back = shelf.put(Kept::new((1 << 20) - 1, Counted { calls: &calls }));
    assert!(rt; back.is_none());
    Ok(())
}

#[test]
fn refused_memory(rt: HostRuntime) {
    let shelf = Shelf::<Counted<'static>, Anything>::open(rt.alloc(), 1 << 62);
    assert!(rt; matches!(shelf, Err(Fault::OutOfMemory)));
}
