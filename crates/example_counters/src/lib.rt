//! Threads of `hl::with_memory` add numbers to counters of their log, beside a crew, and no add is lost, though the log's
//! first page may leave memory for the log's device.
//!
//! The counters are the words of the log's first record. Each thread adds its numbers by `Session::fetch_add`, and returns
//! what it added to each counter in all. Once the log is closed, the sum of what the threads returned, modulo 2^64, is each
//! counter's word, wherever it lies: in memory, or on the device.
//!
//! That is all by addresses. Of a thread `returns` says what its acts added at each counter's address; `with_memory` says
//! that the acts of all threads are one trace, which memory and device hold at the end; and what all add in one trace adds
//! up, by `hl::laws::counters_end_as_sums`.
#![tactic(auto)]

mod adder;

ghost use Rattle.std.specs.Prelude.{◌≡◌, true, false, Err, IfOk, IfErr};
ghost use Rattle.hl_model.specs.declared.fault.Fault.TheVariants.{OutOfMemory, Size};
ghost use Rattle.hl.specs.Openings.{of_sizes};
ghost use Rattle.hl.specs.Crews.{can_run};
ghost use Rattle.example_counters.specs.Counters.{AreCounted};

use adder::add_all;
use hl::{
    AnyAnswer, Duty, Ending, Fault, HasSizes, MemoryDevice, NoJob, Opening, Outs, Realm, Session,
    Work, Written, laws, with_memory, word_left,
};
use std::alloc::Global;
use std::sync::Wait;
use std::thread::Threads;

/// How many counters there are: counter c is the word at address c.
pub const COUNTERS: u64 = 4;

/// A number that a thread is to add to a counter.
#[derive(Clone, Copy, Debug, PartialEq, Eq)]
pub struct Add {
    /// Which thread, from 0.
    pub thread: u64,
    /// Which counter, 0 to 3.
    pub counter: u64,
    pub number: u64,
}

/// What a thread added to each counter in all, modulo 2^64.
pub type Sums = [u64; 4];

/// Each thread makes its own of these adds.
#[derive(Clone, Copy)]
struct Adding<'a> {
    adds: &'a [Add],
}

impl<R: Wait> Work<R> for Adding<'_> {
    ghost use Rattle.example_counters.specs.Counters.{returns_sums};

    type Job = NoJob;

    type Out = Sums;

    ghost returns = { λ _ _. returns_sums };

    fn run<L: Realm + Send + Sync>(
        &self,
        _rt: &R,
        session: &mut Session<R, L>,
        number: u64,
    ) -> Sums {
        add_all(session, self.adds, number)
    }

    fn write_page(&self, _rt: &R, _page: u64, _image: &[u8]) -> bool {
        true
    }
}

/// What threads left that added to counters.
#[derive(Drop)]
pub struct Counted {
    /// What each thread returned, or why it got no session, or couldn't leave its own.
    pub outs: Outs<Sums>,
    /// The counters' words at the end, wherever they lie. There is none at the tail and beyond.
    pub sums: [Option<u64>; 4],
    /// The device, with all images.
    pub device: MemoryDevice,
    /// What is left of the log.
    pub ending: Ending<NoJob, AnyAnswer>,
}

/// Opens a log, lets each of its threads make its own of these adds beside the crew, which writes pages to this device, and
/// closes it: what they left. If no thread was refused, each counter's word is the sum of what the threads returned, modulo
/// 2^64, whether it is in memory still or on the device.
///
/// An add whose call was refused, as where the page of the counters is read-only by then, is in no sum. That an add is
/// accepted is not proved.
///
/// Faults: `Size` if the opening doesn't fit the duty, `OutOfMemory` if memory was refused.
pub fn count<R: Threads + Wait + Sync, S: HasSizes>(
    rt: &R,
    alloc: Global,
    opening: Opening<S>,
    duty: Duty,
    device: MemoryDevice,
    adds: &[Add],
) -> Result<Counted, Fault>
    ensures size { can_run (of_sizes S.sizes_of opening) duty ≡ false → result ≡ Err Size }
    ensures memory { can_run (of_sizes S.sizes_of opening) duty ≡ true
        → IfErr result (λ fault. fault ≡ OutOfMemory) }
    ensures counted { IfOk result AreCounted }
{
    let sizes = opening.params.sizes();
    let work = Adding { adds };
    laws::counters_end_as_sums::<R, _>(&work);
    let closed = with_memory(rt, alloc, opening, duty, &work, device)?;
    let Written {
        outs,
        crew: _,
        device,
    } = closed.out;
    let Ok(ending) = closed.ending else {
        unreachable!()
    };
    let sums = [
        word_left(sizes, &ending, &device, 0),
        word_left(sizes, &ending, &device, 1),
        word_left(sizes, &ending, &device, 2),
        word_left(sizes, &ending, &device, 3),
    ];
    Ok(Counted {
        outs,
        sums,
        device,
        ending,
    })
}
