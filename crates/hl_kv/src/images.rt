//! What the device has at the end, beside what the journal says that the threads wrote.
use crate::device::Device;
use anyhow::{Result, ensure};
use hl::{AnyAnswer, Ending, NoJob, Step};

/// Compares each flushed page's image with the journal: a word at which one thread alone wrote is its newest write there,
/// and a word at which nobody wrote is 0. The journal has each thread's writes in their order, but not which of two threads
/// wrote last. Returns how many words it compared; it is an error if some steps were cut, and are missing.
pub(crate) fn compare(device: &Device, ending: &Ending<NoJob, AnyAnswer>) -> Result<usize> {
    ensure!(ending.cut == 0, "{} steps were cut", ending.cut);
    let flushed = ending.snapshot.six.flushed as usize;
    // Of each word the slot that wrote there, and what is due; `None` if several wrote, and it may be one of theirs.
    let mut words = vec![in *ending.journal.allocator(); (None, Some(0u64)); flushed]?;
    for step in ending.journal.iter() {
        if let Step::Write { t, a, v } = *step {
            if let Some(word) = words.get_mut(a as usize) {
                let is_alone = word.0.is_none_or(|writer| writer == t);
                *word = (Some(t), word.1.filter(|_| is_alone).and(Some(v)));
            }
        }
    }
    for ((_, due), address) in words.iter().zip(0u64..) {
        let held = device.word(address);
        let is_right = due.is_none() || held == *due;
        ensure!(is_right, "address {address} has {held:?}, not {due:?}");
    }
    Ok(words.iter().filter(|word| word.1.is_some()).count())
}
