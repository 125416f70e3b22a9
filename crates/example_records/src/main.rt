//! A log store: threads append records of any length up to a page, and read each other's from memory. Once the log is closed
//! all records are found, in memory or on its device: also those that had left memory when a thread wanted them.
//!
//! | Module | What it has |
//! |---|---|
//! | `record` | how a record lies in the log |
//! | `access` | a record appended, or read, in a session |
//! | `storing` | what each thread does |
//! | `keeping` | the log opened, its threads run, and all found at the end; the theorem |
//! | `scan` | all records found in a log's words |
//!
//! The theorem is the clause of `keeping::keep`: whatever a thread read at the address of a record that a thread appended is
//! that record; and at the end memory and device together have just the records that were appended.
#![tactic(auto)]

mod access;
mod keeping;
mod record;
mod scan;
mod storing;

use hl::{Duty, Fault, MemoryDevice, Opening, Params};
use keeping::{Storage, keep};
use std::alloc::Global;
use std::io;
use std::process::ExitCode;
use std::sync::Wait;
use std::thread::Threads;

/// How many records there are, of four threads.
const RECORDS: u64 = 400;

const THREADS: u64 = 4;

const PAGE_SIZE: u64 = 16;

/// Pages of the device: each record takes a page at most.
const PAGES: u64 = 400;

// The contents of a record: up to twelve words, of its number.
fn contents(alloc: Global, number: u64) -> Result<Vec<u64>, Fault> {
    let mut words = Vec::new(alloc);
    for k in 0..number % 13 {
        if words
            .push(number.wrapping_mul(100).wrapping_add(k))
            .is_err()
        {
            return Err(Fault::OutOfMemory);
        }
    }
    Ok(words)
}

/// Keeps records in a log of four frames: how many were found when it was closed, and how many that had left memory when a
/// thread wanted them weren't.
fn run<R: Threads + Wait + Sync>(rt: &R, alloc: Global) -> Result<(usize, usize), Fault> {
    let params = Params::checked(PAGE_SIZE, 4, 4, 16).ok_or(Fault::Size)?;
    // The journal is cut: threads that wait for a frame enter a refresh at each try.
    let duty = Duty::checked(params, 1, 2)
        .ok_or(Fault::Size)?
        .cutting_above(50_000);
    let opening = Opening {
        params,
        riders: THREADS + 4,
        journal: 100_000,
        stamp: 1,
    };
    let mut records = Vec::new(alloc);
    for number in 0..RECORDS {
        if records.push(contents(alloc, number)?).is_err() {
            return Err(Fault::OutOfMemory);
        }
    }
    let device = MemoryDevice::open(alloc, PAGES, 8 + 8 * PAGE_SIZE)?;
    let storage = Storage {
        opening,
        duty,
        device,
    };
    let kept = keep(rt, alloc, storage, &records)?;
    let mut missing: usize = 0;
    for report in &kept.reports {
        if let Ok(report) = report {
            for address in &report.evicted {
                if !kept.found.iter().any(|entry| entry.address == *address) {
                    missing = missing.saturating_add(1);
                }
            }
        }
    }
    Ok((kept.found.len(), missing))
}

fn main(rt: HostRuntime) -> io::Result<ExitCode> {
    match run(&rt, rt.alloc()) {
        Ok((found, missing)) => {
            println!(rt; "found {found}")?;
            println!(rt; "evicted, and not found {missing}")?;
            Ok(ExitCode::from(0))
        }
        Err(fault) => {
            println!(rt; "{fault}")?;
            Ok(ExitCode::from(1))
        }
    }
}
