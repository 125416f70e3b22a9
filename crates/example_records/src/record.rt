//! How a record lies in the log: how many words it has, its contents, and a last word that isn't 0. Whoever finds the last
//! word knows that all others are there.
ghost use Rattle.std.specs.Prelude.{◌≡◌, ◌++◌, true, IfOk};
ghost use Rattle.hl.specs.Uses.{AreNumbers};
ghost use Rattle.example_records.specs.Records.{framed, is_framed};

use hl::Fault;
use std::alloc::{AllocError, Global};

/// The longest record: a page has at most so many words.
pub(crate) const LONGEST: u64 = 1 << 20;

/// What stands behind a record's contents.
const SEAL: u64 = 1;

/// The words of a record with these contents.
///
/// Fault: `OutOfMemory` if memory is refused.
pub(crate) fn frame(alloc: Global, contents: &[u64]) -> Result<Vec<u64>, Fault>
    ensures words { IfOk result (λ words. words.items ≡ framed contents.now) }
    ensures framed { IfOk result (λ words. is_framed words.items ≡ true) }
    ensures numbers { IfOk result (λ words. AreNumbers words.items) }
{
    let mut words = Vec::new(alloc);
    match fill(&mut words, contents) {
        Ok(()) => Ok(words),
        Err(_) => Err(Fault::OutOfMemory),
    }
}

// Puts them behind what is there.
fn fill(words: &mut Vec<u64>, contents: &[u64]) -> Result<(), AllocError>
    ensures { IfOk result (λ _. words.new.items ≡ words.old.items ++ framed contents.now) }
{
    words.push(contents.len() as u64 + 2)?;
    words.extend_from_slice(contents)?;
    words.push(SEAL)?;
    Ok(())
}
