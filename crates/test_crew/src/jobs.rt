//! Users' jobs: those that a crew runs, and those that nobody may run.
ghost use Rattle.std.specs.Prelude.{◌≡◌};
ghost use Rattle.hl_action.specs.Firings.{IsSafe};
ghost use Rattle.hl_words.specs.States.{IsSeedOf};

use crate::crew::{Anything, STAMP, four, seed};
use hl_action::{Firing, Kept, Task};
use hl_counts::CountTable;
use hl_crew::{OpenGate, run_crew};
use hl_domain::Domain;
use hl_drain::Ask;
use hl_image::MemoryWriter;
use hl_model::Fault;
use hl_words::{Realm, Rider, Seed};
use std::alloc::Global;
use std::marker::Brand;
use std::sync::atomic::{AtomicU64, Ordering};
use std::sync::{Arc, Wait};
use std::test::Fail;
use std::thread::Threads;

/// Counts its calls.
#[derive(Drop)]
struct Counted {
    calls: Arc<AtomicU64, Global>,
}

impl Task for Counted {
    ghost can = { λ job firing. IsSafe firing };

    ghost gives = { λ job firing answer. answer ≡ answer };

    fn call(self, _firing: Firing) -> u64 {
        self.calls.fetch_add(1, Ordering::SeqCst)
    }
}

type Jobs<L> = Domain<CountTable, Counted, Anything, L>;

/// What becomes of two jobs that were bumped.
#[derive(Clone, Copy)]
enum End {
    RunByACrew,
    DomainDropped,
    EndingDropped,
}

// Bumps two jobs.
fn bump_two<L: Realm>(
    rt: &impl Wait,
    domain: &Jobs<L>,
    riders: &mut [Rider<L>],
    calls: &Arc<AtomicU64, Global>,
) -> Result<(), Fault> {
    for rider in riders.iter_mut().take(2) {
        let calls = Arc::try_clone(calls).map_err(|_| Fault::OutOfMemory)?;
        let ask = Ask::User(Kept::new(3, Counted { calls }));
        if let Err((fault, _)) = domain.bump(rt, rider, ask) {
            return Err(fault);
        }
    }
    Ok(())
}

// A crew makes a turn.
fn one_turn<R, L>(
    rt: &R,
    alloc: Global,
    domain: &Jobs<L>,
    mut riders: Vec<Rider<L>>,
) -> Result<(), Fault>
where
    R: Threads + Wait + Sync,
    L: Realm + Send + Sync,
    requires { domain.now.sizes.frames ≡ 4 }
{
    let crew = four(&mut riders)?;
    let one = MemoryWriter::open(alloc, 1, 40)?;
    let two = MemoryWriter::open(alloc, 1, 40)?;
    match run_crew(rt, alloc, domain, crew, one, two, &OpenGate, 1, 4, 1, false) {
        Ok(_) => Ok(()),
        Err((fault, ..)) => Err(fault),
    }
}

// How often the jobs were called.
fn calls_until<R, L>(rt: &R, alloc: Global, seed: Seed, end: End) -> Result<u64, Fault>
where
    R: Threads + Wait + Sync,
    L: Realm + Send + Sync,
    requires seed { IsSeedOf L.name L.parts L.table seed }
    requires named { (seed.sizes ≡ L.sizes) × (STAMP ≡ L.stamp) × (100 ≡ L.limit) }
    requires frames { seed.sizes.frames ≡ 4 }
{
    let calls = Arc::new(alloc, AtomicU64::new(0)).map_err(|_| Fault::OutOfMemory)?;
    let (domain, mut riders) = Jobs::<L>::open(alloc, seed, 100, STAMP)?;
    bump_two(rt, &domain, riders.as_mut_slice(), &calls)?;
    match end {
        End::RunByACrew => one_turn(rt, alloc, &domain, riders)?,
        End::DomainDropped => drop(domain),
        End::EndingDropped => match domain.close(riders) {
            Ok(ending) => drop(ending),
            Err((fault, ..)) => return Err(fault),
        },
    }
    Ok(calls.load(Ordering::SeqCst))
}

/// A crew calls each job that it takes. A domain and an ending that are dropped call none.
#[test]
fn jobs_are_called_by_a_crew_alone(rt: HostRuntime) -> Result<(), Fail> {
    for (end, wanted) in [
        (End::RunByACrew, 2),
        (End::DomainDropped, 0),
        (End::EndingDropped, 0),
    ] {
        let calls = calls_until::<_, Brand>(&rt, rt.alloc(), seed(rt.alloc())?, end)?;
        assert_eq!(rt; calls, wanted);
    }
    Ok(())
}
