//! A first log: four threads place a word each, and a crew flushes behind them.
#![tactic(auto)]

use hl::{Config, Fault, NoJob, Realm, Session, Work, run_threads};
use std::alloc::Global;
use std::io;
use std::process::ExitCode;
use std::sync::Wait;
use std::thread::Threads;

/// Each thread places its number, and reads it back.
struct OneWord;

impl<R: Wait> Work<R> for OneWord {
    type Job = NoJob;

    type Out = Result<u64, Fault>;

    fn run<L: Realm + Send + Sync>(
        &self,
        _rt: &R,
        session: &mut Session<R, L>,
        number: u64,
    ) -> Result<u64, Fault> {
        let address = session.allocate(1)?;
        session.store(address, number)?;
        session.load(address)
    }

    fn write_page(&self, _rt: &R, _page: u64, _image: &[u8]) -> bool {
        true
    }
}

/// Opens a log for four threads, runs them, and closes it. Returns where it ended.
fn place_words<R: Threads + Wait + Sync>(rt: &R, alloc: Global) -> Result<u64, Fault> {
    let config = Config {
        page_size: 64,
        ..Config::for_threads(4)
    };
    let finished = run_threads(rt, alloc, config, &OneWord)?;
    for word in finished.outs {
        word?;
    }
    Ok(finished.ending.snapshot.six.tail)
}

fn main(rt: HostRuntime) -> io::Result<ExitCode> {
    match place_words(&rt, rt.alloc()) {
        Ok(tail) => {
            println!(rt; "tail {tail}")?;
            Ok(ExitCode::from(0))
        }
        Err(fault) => {
            println!(rt; "{fault}")?;
            Ok(ExitCode::from(1))
        }
    }
}
