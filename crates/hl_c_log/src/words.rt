//! The calls of a pass without the lock.
ghost use Rattle.std.specs.Prelude.{◌≡◌, Result, MatchResult};
ghost use Rattle.hl_model.specs.declared.step.Reply.TheVariants.{Value as VALUE};
ghost use Rattle.hl_core.specs.Steps.{as_reply};
ghost use Rattle.hl_answers.specs.Outcomes.{accepted, brief_of, fault_outcome, outcome_of, no_core};
ghost use Rattle.hl_words.specs.Views.{stored, loaded, added, exchanged};
ghost use Rattle.hl_pass.specs.Views.{store_fault, load_fault};
ghost use Rattle.hl_c_log.specs.Words.{region_number, Does, LoadsRow, Looks, KeepsUp, TellsRegion};

use crate::pass_handle::PassHandle;
use hl_answers::{Brief, Outcome};
use hl_log::Region;
use hl_model::{Fault, Reply};

/// Stores a word.
#[unsafe(no_mangle)]
pub extern "C" fn hl_pass_store(pass: &mut PassHandle, address: u64, word: u64) -> Brief
    ensures { Does store_fault (λ cell. stored cell word) pass.old.slot.value address 0
        pass.new.slot.value result }
{
    match pass.take() {
        Some(mut own) => {
            let stored = own.store(address, word);
            pass.put(own);
            word_told(stored.map(|()| 0))
        }
        None => no_pass(),
    }
}

/// Adds to a word in one step: what it found.
#[unsafe(no_mangle)]
pub extern "C" fn hl_pass_fetch_add(pass: &mut PassHandle, address: u64, more: u64) -> Brief
    ensures { Does store_fault (λ cell. added cell more result.a) pass.old.slot.value address result.a
        pass.new.slot.value result }
{
    match pass.take() {
        Some(mut own) => {
            let found = own.fetch_add(address, more);
            pass.put(own);
            word_told(found)
        }
        None => no_pass(),
    }
}

/// Stores a word where another stands, in one step; returns what it found.
#[unsafe(no_mangle)]
pub extern "C" fn hl_pass_compare_exchange(
    pass: &mut PassHandle,
    address: u64,
    current: u64,
    word: u64,
) -> Brief
    ensures { Does store_fault (λ cell. exchanged cell current word result.a) pass.old.slot.value address
        result.a pass.new.slot.value result }
{
    match pass.take() {
        Some(mut own) => {
            let found = own.compare_exchange(address, current, word);
            pass.put(own);
            word_told(found)
        }
        None => no_pass(),
    }
}

/// Loads a word.
#[unsafe(no_mangle)]
pub extern "C" fn hl_pass_load(pass: &mut PassHandle, address: u64) -> Brief
    ensures { Does load_fault (λ cell. loaded cell result.a) pass.old.slot.value address result.a
        pass.new.slot.value result }
{
    match pass.take() {
        Some(mut own) => {
            let found = own.load(address);
            pass.put(own);
            word_told(found)
        }
        None => no_pass(),
    }
}

/// Loads the words from an address on into so many places.
#[unsafe(no_mangle)]
pub extern "C" fn hl_pass_load_into(pass: &mut PassHandle, address: u64, words: &mut [u64]) -> Brief
    ensures { LoadsRow pass.old.slot.value address words.old pass.new.slot.value words.new result }
{
    match pass.take() {
        Some(mut own) => {
            let loaded = own.load_into(address, words);
            pass.put(own);
            Outcome::of(loaded.map(|()| Reply::Readable)).brief()
        }
        None => no_pass(),
    }
}

/// Sees the offsets that rose: its view.
#[unsafe(no_mangle)]
pub extern "C" fn hl_pass_look(pass: &mut PassHandle) -> Outcome
    ensures { Looks pass.old.slot.value pass.new.slot.value result }
{
    match pass.take() {
        Some(mut own) => {
            let _loaded = own.look();
            let view = own.view();
            pass.put(own);
            Outcome::accepted(0, view.read_only, view.head, view.tail)
        }
        None => Outcome::no_core(),
    }
}

/// Whether nothing is new to it: 1, or 0.
#[unsafe(no_mangle)]
pub extern "C" fn hl_pass_keeps_up(pass: &mut PassHandle) -> u64
    ensures { KeepsUp pass.old.slot.value pass.new.slot.value result }
{
    match pass.take() {
        Some(mut own) => {
            let (current, _loaded) = own.keeps_up();
            pass.put(own);
            if current { 1 } else { 0 }
        }
        None => 255,
    }
}

/// Which region of the log an address lies in: its number, and the safe read-only offset that was loaded.
#[unsafe(no_mangle)]
pub extern "C" fn hl_pass_region(pass: &mut PassHandle, address: u64) -> Outcome
    ensures { TellsRegion pass.old.slot.value address pass.new.slot.value result }
{
    match pass.take() {
        Some(mut own) => {
            let found = own.region(address);
            pass.put(own);
            region_told(found)
        }
        None => Outcome::no_core(),
    }
}

/// What is told of a region with the safe read-only offset, or of the fault in their place.
#[inline(always)]
fn region_told(found: Result<(Region, u64), Fault>) -> Outcome
    ensures { MatchResult found
        (λ told. result ≡ accepted (region_number told.0) told.1 0 0)
        (λ fault. result ≡ fault_outcome fault) }
{
    match found {
        Ok((region, safe_read_only)) => {
            let number = match region {
                Region::Mutable => 1,
                Region::Fuzzy => 2,
                Region::ReadOnly => 3,
                Region::Evicted => 4,
            };
            Outcome::accepted(number, safe_read_only, 0, 0)
        }
        Err(fault) => Outcome::of_fault(fault),
    }
}

/// What is told of a word, or of the fault in its place.
#[inline(always)]
fn word_told(found: Result<u64, Fault>) -> Brief
    ensures { result ≡ brief_of (outcome_of (as_reply VALUE found)) }
{
    Outcome::of(found.map(Reply::Value)).brief()
}

/// What a call without a pass returns.
fn no_pass() -> Brief
    ensures { result ≡ brief_of no_core }
{
    Outcome::no_core().brief()
}
