//! What each thread does: it appends its own records, and reads those that others appended.
ghost use Rattle.hl.specs.Traces.{acts};
ghost use Rattle.example_records.specs.Records.{Tells};

use crate::access::{append, keep_up, read};
use crate::record::frame;
use hl::{Fault, NoJob, Realm, Session, Work};
use std::alloc::Global;
use std::sync::Wait;
use std::sync::atomic::{AtomicU64, Ordering};

/// A record that was appended or read: where it lies, and its words.
#[derive(Drop)]
pub struct Entry {
    pub address: u64,
    pub words: Vec<u64>,
}

/// What a thread did.
#[derive(Drop)]
pub struct Report {
    /// What it appended.
    pub appended: Vec<Entry>,
    /// What it read from memory.
    pub read: Vec<Entry>,
    /// Where it would have read a record that had left memory.
    pub evicted: Vec<u64>,
}

/// Threads that share records to be kept.
#[derive(Clone, Copy)]
pub(crate) struct Storing<'a> {
    pub(crate) alloc: Global,
    /// The contents of each record: those of number k are the thread's whose number is k modulo `threads`.
    pub(crate) records: &'a [Vec<u64>],
    /// Where each lies, + 1; 0 until it is appended.
    pub(crate) addresses: &'a [AtomicU64],
    pub(crate) threads: u64,
}

impl<R: Wait> Work<R> for Storing<'_> {
    ghost use Rattle.example_records.specs.Records.{returns_report};

    type Job = NoJob;

    type Out = Report;

    ghost returns = { λ _ _. returns_report };

    fn run<L: Realm + Send + Sync>(
        &self,
        _rt: &R,
        session: &mut Session<R, L>,
        number: u64,
    ) -> Report {
        let mut report = Report {
            appended: Vec::new(self.alloc),
            read: Vec::new(self.alloc),
            evicted: Vec::new(self.alloc),
        };
        for k in 0..self.records.len() {
            self.serve(session, number, k, &mut report);
        }
        report
    }

    fn write_page(&self, _rt: &R, _page: u64, _image: &[u8]) -> bool {
        true
    }
}

impl Storing<'_> {
    // Appends a record, if it is this thread's, and reads two others.
    fn serve<R: Wait, L: Realm>(
        &self,
        session: &mut Session<R, L>,
        number: u64,
        k: usize,
        report: &mut Report,
    )
        ensures { Tells (acts session.old) report.old → Tells (acts session.new) report.new }
    {
        if (k as u64).checked_rem(self.threads) != Some(number) {
            return;
        }
        self.append_one(session, k, report);
        self.read_one(session, k / 2, report);
        self.read_one(session, k.saturating_sub(1), report);
    }

    // Appends a record, and tells the others where it lies.
    fn append_one<R: Wait, L: Realm>(
        &self,
        session: &mut Session<R, L>,
        k: usize,
        report: &mut Report,
    )
        ensures { Tells (acts session.old) report.old → Tells (acts session.new) report.new }
    {
        let Some(contents) = self.records.get(k) else {
            return;
        };
        let Ok(words) = frame(self.alloc, contents) else {
            return;
        };
        // What is appended can be told: there is room before it is.
        if report.appended.reserve(1).is_err() {
            return;
        }
        if let Some(address) = append(session, &words) {
            report.appended.push_reserved(Entry { address, words });
            self.publish(k, address);
        }
    }

    // Tells the others where a record lies.
    fn publish(&self, k: usize, address: u64) {
        if let Some(at) = self.addresses.get(k) {
            at.store(address.wrapping_add(1), Ordering::SeqCst);
        }
    }

    // Reads a record that was appended, if it was.
    fn read_one<R: Wait, L: Realm>(
        &self,
        session: &mut Session<R, L>,
        k: usize,
        report: &mut Report,
    )
        ensures { Tells (acts session.old) report.old → Tells (acts session.new) report.new }
    {
        let Some(at) = self.addresses.get(k) else {
            return;
        };
        let next = at.load(Ordering::SeqCst);
        if next == 0 {
            return;
        }
        let address = next - 1;
        keep_up(session);
        match read(session, self.alloc, address) {
            Ok(words) => {
                let _ = report.read.push(Entry { address, words });
            }
            Err(fault) => note(&mut report.evicted, address, fault),
        }
    }
}

// Notes an address if the record there had left memory.
fn note(evicted: &mut Vec<u64>, address: u64, fault: Fault) {
    if let Fault::Evicted { .. } = fault {
        let _ = evicted.push(address);
    }
}
