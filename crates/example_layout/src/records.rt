//! The records of a log's words, one after another.
ghost use Rattle.std.specs.Prelude.{◌≡◌, ◌≢◌, ℕ, List, ◌==◌, if◌then◌else◌, None, ◌+◌, ◌<◌, ◌≤◌, ◌^◌, [], ⊤, MatchOption, IfOk, IfErr, IfNone, drop, length, map, option_map, option_to_list};
ghost use Rattle.example_layout.specs.declared.bad.Trouble.TheVariants.{OutOfMemory};
ghost use Rattle.example_layout.specs.Layout.{row};
ghost use Rattle.example_layout.specs.Pieces.{MayBe, IsGathered, IsPieceAt, IsStopped, IsTroubleAt, Yields};

use crate::bad::{Bad, Trouble};
use crate::entry::Entry;
use crate::row::bytes_of;
use std::alloc::Global;

/// The live records in words of a log, one by one, in the order of their addresses. It passes words of 0, as at a page's end,
/// dead records, and those whose append was refused midway.
#[derive(Drop)]
pub struct Records<'a> {
    alloc: Global,
    words: &'a [u64],
    base: u64,
    at: usize,
    ghost fits: { (at ≤ length words.now) × (base + length words.now < 2 ^ 64) },
}

/// What lies at a place: how many words it has, and the bytes of a live record.
#[derive(Drop)]
struct Step {
    count: usize,
    live: Option<Vec<u8>>,
}

impl<'a> Records<'a> {
    /// The records of these words, of which the first has the address `base`.
    pub fn new(alloc: Global, base: u64, words: &'a [u64]) -> Records<'a>
        requires { base + length words.now < 2 ^ 64 }
        ensures words { result.words.now ≡ words.now }
        ensures base { result.base ≡ base }
        ensures at { result.at ≡ 0 }
    {
        Records {
            alloc,
            words,
            base,
            at: 0,
        }
    }

    /// The next live record; `None` at the end of the words.
    ///
    /// `Broken` if nothing of a log lies behind what was passed; then this call returns the same again. `OutOfMemory` if memory is
    /// refused; then the same record is next.
    pub fn next(&mut self) -> Result<Option<Entry>, Trouble>
        ensures words { (self.new.words.now ≡ self.old.words.now) × (self.new.base ≡ self.old.base) }
        ensures next { IfOk result (λ entry. Yields self.old.base self.old.words.now self.old.at self.new.at
            (map (λ e. (e.address, e.bytes.items)) (option_to_list entry))) }
        ensures end { IfOk result (λ entry. IfNone entry (self.new.at ≡ length self.old.words.now)) }
        ensures trouble { IfErr result (λ trouble. Yields self.old.base self.old.words.now self.old.at self.new.at []
            × (self.new.at < length self.old.words.now)
            × IsTroubleAt trouble (drop self.new.at self.old.words.now)) }
    {
        while self.at < self.words.len() {
            let Step { count, live } = next_step(self.alloc, &self.words[self.at..])?;
            let address = self.base + self.at as u64;
            self.at += count;
            if let Some(bytes) = live {
                return Ok(Some(Entry { address, bytes }));
            }
        }
        Ok(None)
    }

    /// Puts all live records up to the words' end behind those that were found.
    ///
    /// `Broken` if nothing of a log lies behind those that it put there; `OutOfMemory` if memory is refused.
    pub fn gather(&mut self, found: &mut Vec<Entry>) -> Result<(), Trouble>
        ensures words { (self.new.words.now ≡ self.old.words.now) × (self.new.base ≡ self.old.base) }
        ensures gathered { IfOk result (λ _. IsGathered self.old.base self.old.words.now self.old.at self.new.at
            found.old.items found.new.items) }
        ensures end { IfOk result (λ _. self.new.at ≡ length self.old.words.now) }
        ensures stopped { IfErr result (IsStopped self.old.base self.old.words.now self.old.at self.new.at
            found.old.items found.new.items) }
    {
        loop {
            match self.next() {
                Ok(Some(entry)) => {
                    if found.push(entry).is_err() {
                        return Err(Trouble::OutOfMemory);
                    }
                }
                Ok(None) => return Ok(()),
                Err(trouble) => return Err(trouble),
            }
        }
    }

    /// The address at which it looks next.
    pub fn place(&self) -> u64
        ensures { result ≡ self.now.base + self.now.at }
    {
        self.base + self.at as u64
    }
}

/// The bytes of the live record of which these are all the words; `None` if they are those of a dead record, or of none.
///
/// `OutOfMemory` if memory is refused.
pub fn bytes_in(alloc: Global, words: &[u64]) -> Result<Option<Vec<u8>>, Trouble>
    ensures read { IfOk result (λ read. MatchOption read
        ((bytes : List ℕ) → MayBe bytes → words.now ≢ row 0 bytes)
        (λ bytes. (words.now ≡ row 0 bytes.items) × MayBe bytes.items)) }
    ensures memory { IfErr result (λ trouble. trouble ≡ OutOfMemory) }
{
    if words.is_empty() {
        return Ok(None);
    }
    match next_step(alloc, words) {
        Ok(step) => Ok(live_of(step, words.len())),
        Err(Trouble::Broken(_)) => Ok(None),
        Err(Trouble::OutOfMemory) => Err(Trouble::OutOfMemory),
    }
}

// What a record has that is as long as this.
fn live_of(step: Step, count: usize) -> Option<Vec<u8>>
    ensures { result ≡ (if step.count == count then step.live else None) }
{
    let Step { count: own, live } = step;
    if own == count { live } else { None }
}

// What lies at the head of these words.
fn next_step(alloc: Global, rest: &[u64]) -> Result<Step, Trouble>
    requires { 0 < length rest.now }
    ensures piece { IfOk result (λ step. IsPieceAt rest.now step.count (option_map (λ bytes. bytes.items) step.live)) }
    ensures trouble { IfErr result (λ trouble. IsTroubleAt trouble rest.now) }
{
    let header = rest[0];
    if header == 0 {
        return Ok(Step {
            count: 1,
            live: None,
        });
    }
    if header == 1 {
        return Err(Trouble::Broken(Bad::Empty));
    }
    let count = (header / 16) as usize + 2;
    if rest.len() < count {
        return Err(Trouble::Broken(Bad::Long));
    }
    // An append that was refused midway left no last word.
    if rest[count - 1] == 0 {
        return Ok(Step { count, live: None });
    }
    match bytes_of(alloc, (header / 2) as usize, &rest[1..count]) {
        Err(_) => Err(Trouble::OutOfMemory),
        Ok(None) => Err(Trouble::Broken(Bad::End)),
        Ok(Some(bytes)) => {
            let live = if header % 2 == 0 { Some(bytes) } else { None };
            Ok(Step { count, live })
        }
    }
}
