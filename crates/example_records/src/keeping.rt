//! The log opened, its threads run, and all records found at the end.
ghost use Rattle.std.specs.Prelude.{IfOk};
ghost use Rattle.example_records.specs.Records.{AreKept};

use crate::scan::scan;
use crate::storing::{Entry, Report, Storing};
use hl::{
    AnyAnswer, Duty, Ending, Fault, HasSizes, MemoryDevice, NoJob, Opening, Outs, Written, laws,
    with_memory, words_left,
};
use hl_traces::laws as traces;
use std::alloc::Global;
use std::sync::Wait;
use std::sync::atomic::AtomicU64;
use std::thread::Threads;

/// What is left of a log of records.
#[derive(Drop)]
pub struct Kept {
    /// What each thread did.
    pub reports: Outs<Report>,
    /// All that was appended, in the order of the addresses, as it was found at the end, in memory or on the device.
    pub found: Vec<Entry>,
    pub device: MemoryDevice,
    pub ending: Ending<NoJob, AnyAnswer>,
}

/// A log to be opened, and its device.
pub struct Storage<S> {
    /// Sizes, a rider for each thread and four more, a journal.
    pub opening: Opening<S>,
    pub duty: Duty,
    pub device: MemoryDevice,
}

/// Opens a log, lets its threads append these records, record k by thread k modulo their number, and read each other's beside
/// a crew, and closes it. Then it finds all records, in memory and on the device, in the order of their addresses: also those
/// that had left memory when a thread wanted to read them.
///
/// Each record that a thread read is the record that was appended at its address; and those found at the end are just those
/// that the threads appended. That the log takes a record is not proved: one that it refuses is in no report.
///
/// Faults: those of [`with_memory`]; of [`words_left`]; `OutOfMemory`.
pub fn keep<R: Threads + Wait + Sync, S: HasSizes>(
    rt: &R,
    alloc: Global,
    storage: Storage<S>,
    records: &[Vec<u64>],
) -> Result<Kept, Fault>
    ensures { IfOk result AreKept }
{
    let Storage {
        opening,
        duty,
        device,
    } = storage;
    let sizes = opening.params.sizes();
    let addresses = unknown(alloc, records.len())?;
    let work = Storing {
        alloc,
        records,
        addresses: &addresses,
        threads: opening.riders.saturating_sub(4),
    };
    laws::threads_append::<R, _>(&work);
    laws::records_are_scanned::<R, _>(&work);
    traces::records_are_found_by();
    traces::records_are_whole();
    let closed = with_memory(rt, alloc, opening, duty, &work, device)?;
    let Written {
        outs: reports,
        crew: _,
        device,
    } = closed.out;
    let Ok(ending) = closed.ending else {
        unreachable!()
    };
    let words = words_left(alloc, sizes, &ending, &device)?;
    let found = scan(alloc, &words)?;
    Ok(Kept {
        reports,
        found,
        device,
        ending,
    })
}

// Addresses of records that aren't appended yet.
fn unknown(alloc: Global, count: usize) -> Result<Vec<AtomicU64>, Fault> {
    let mut addresses = Vec::new(alloc);
    for _ in 0..count {
        if addresses.push(AtomicU64::new(0)).is_err() {
            return Err(Fault::OutOfMemory);
        }
    }
    Ok(addresses)
}
