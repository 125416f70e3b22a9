//! Jobs of one's own: four threads retire rows, and a crew frees each once no thread can hold a reference into it.
#![tactic(auto)]

ghost use Rattle.std.specs.Prelude.{◌≡◌};

use hl::{Ask, Config, Fault, Firing, Kept, Realm, Session, Task, Work, run_threads};
use std::alloc::Global;
use std::io;
use std::process::ExitCode;
use std::sync::atomic::{AtomicU64, Ordering};
use std::sync::{Arc, Wait};
use std::thread::Threads;

/// How many words all rows had that were freed.
type Freed = Arc<AtomicU64, Global>;

/// A row that a thread has unlinked.
#[derive(Drop)]
struct Retired {
    row: Vec<u64>,
    freed: Freed,
}

impl Task for Retired {
    ghost can = { λ job firing. firing ≡ firing };

    ghost gives = { λ job firing answer. answer ≡ answer };

    // Frees the row: each thread that was protected when it was retired has refreshed or left.
    fn call(self, _firing: Firing) -> u64 {
        let words = self.row.len() as u64;
        self.freed.fetch_add(words, Ordering::SeqCst)
    }
}

/// Each thread retires two rows, of 1 and of 2 words.
#[derive(Drop)]
struct Retiring {
    alloc: Global,
    freed: Freed,
}

impl<R: Wait> Work<R> for Retiring {
    type Job = Retired;

    type Out = Result<(), Fault>;

    fn run<L: Realm + Send + Sync>(
        &self,
        _rt: &R,
        session: &mut Session<R, L, Retired>,
        number: u64,
    ) -> Result<(), Fault> {
        for words in 1..=2 {
            let row = vec![in self.alloc; 0; words].map_err(|_| Fault::OutOfMemory)?;
            let freed = Arc::try_clone(&self.freed).map_err(|_| Fault::OutOfMemory)?;
            session.bump(Ask::User(Kept::new(number, Retired { row, freed })))?;
        }
        Ok(())
    }

    fn write_page(&self, _rt: &R, _page: u64, _image: &[u8]) -> bool {
        true
    }
}

/// Four threads retire their rows. Returns how many words were freed once their log was closed.
fn retire_rows<R: Threads + Wait + Sync>(rt: &R, alloc: Global) -> Result<u64, Fault> {
    let freed = Arc::new(alloc, AtomicU64::new(0)).map_err(|_| Fault::OutOfMemory)?;
    let work = Retiring {
        alloc,
        freed: Arc::try_clone(&freed).map_err(|_| Fault::OutOfMemory)?,
    };
    let config = Config {
        page_size: 64,
        ..Config::for_threads(4)
    };
    for retired in run_threads(rt, alloc, config, &work)?.outs {
        retired?;
    }
    Ok(freed.load(Ordering::SeqCst))
}

fn main(rt: HostRuntime) -> io::Result<ExitCode> {
    match retire_rows(&rt, rt.alloc()) {
        Ok(words) => {
            println!(rt; "freed {words}")?;
            Ok(ExitCode::from(0))
        }
        Err(fault) => {
            println!(rt; "{fault}")?;
            Ok(ExitCode::from(1))
        }
    }
}
