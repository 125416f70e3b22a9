//! All records of a log, found in its words in the order of their addresses.
ghost use Rattle.std.specs.Prelude.{◌≡◌, ◌<◌, ◌-◌, ◌==◌, ◌++◌, ◌∷◌, [], if◌then◌else◌, IfErr, IfOk, get_or, length};
ghost use Rattle.hl_model.specs.declared.fault.Fault.TheVariants.{OutOfMemory};
ghost use Rattle.example_records.specs.Records.{rows_of, AreScanned};

use crate::storing::Entry;
use hl::Fault;
use std::alloc::Global;

/// Finds the records in these words of a log, from address 0 on: those whose last word was stored. It passes what no record
/// has, a word of 0 each, and a record whose append was refused midway.
///
/// Fault: `OutOfMemory` if memory is refused.
pub(crate) fn scan(alloc: Global, words: &[u64]) -> Result<Vec<Entry>, Fault>
    ensures scanned { IfOk result (λ found. AreScanned words.now found.items) }
    ensures memory { IfErr result (λ fault. fault ≡ OutOfMemory) }
{
    let mut found = Vec::new(alloc);
    let mut at: usize = 0;
    while at < words.len() {
        let count = words[at] as usize;
        if count == 0 {
            at += 1;
            continue;
        }
        // Only the log's last record may end beyond its tail, if its append was refused midway.
        if words.len() - at < count {
            break;
        }
        put(alloc, &mut found, at, &words[at..at + count])?;
        at += count;
    }
    Ok(found)
}

// Puts a record behind those that were found, if its last word was stored.
fn put(alloc: Global, found: &mut Vec<Entry>, at: usize, row: &[u64]) -> Result<(), Fault>
    requires { 0 < length row.now }
    ensures put { IfOk result (λ _. rows_of found.new.items ≡
        (if get_or row.now (length row.now - 1) 0 == 0 then rows_of found.old.items
        else (rows_of found.old.items ++ (at, row.now) ∷ []))) }
    ensures memory { IfErr result (λ fault. fault ≡ OutOfMemory) }
{
    if row[row.len() - 1] == 0 {
        return Ok(());
    }
    let mut words = Vec::new(alloc);
    if words.extend_from_slice(row).is_err() {
        return Err(Fault::OutOfMemory);
    }
    let entry = Entry {
        address: at as u64,
        words,
    };
    if found.push(entry).is_err() {
        return Err(Fault::OutOfMemory);
    }
    Ok(())
}
