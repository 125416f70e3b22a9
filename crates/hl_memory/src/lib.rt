//! A log is one memory by address: what was stored at an address stays there, though pages share frames.
//!
//! A word lies in the cell of its address, and pages of one frame have the same cells, one after another. So
//! the one order of all that riders do (`hl_words`) says what cells hold, and a load at one address could
//! find what was stored at another. Here each touch of a rider is an **act**: the same touch, with an address
//! in place of its cell. A **history** is the one order by addresses (`IsHistory`). What such a memory holds
//! is what the newest store at the very address left there, and 0 where there is none.
//!
//! What the law says (`OneMemory`):
//!
//! - there is one order of all riders' acts;
//! - each change, and each load at an open address, found what that memory had there;
//! - so the words at the end are that memory (`WordsAreMemory`), and each word of the image of a flushed
//!   page is that memory at a place of the order (`ImagesAreMemory`);
//! - behind an image's place only the 0s of the page's own sweep are stored there (`ImagesStay`).
//!
//! An address is **open** where it lies below the tail that the rider's newest call left, and not below the
//! closed offset of a list that a later call of the rider met (`AreOpen`).
//!
//! What it asks of a rider (`AreActsOf`): each store is a write at that very address, which a later call of
//! its entered, or one that waits in a pass that was abandoned; or it is a 0 of its sweep of a page. A page
//! that it freed it had swept whole. All that passes do keeps that, and that their loads are open
//! (`ActsAreKept`): a pass stores and loads where its view allows it, and each of its calls met its slot with
//! that view (`CallsMeetView`).
//!
//! Why it holds, for an address of page p. Whoever stores at a later page of p's frame met a list in which p
//! is freed, so a longer one than any in which the address isn't closed. Whoever stored at an earlier page
//! did so before that page was swept and p was entered, and the 0 of that sweep is the newer store.
//!
//! What the words of images are follows: the one list's words, if no rider but one wrote at the address
//! (`ImagesAreWords`), so 0 if none did (`ImagesAreZero`); if more did, what one of them wrote there last
//! (`ImagesAreWrites`); and the sum, if they all added (`ImagesAreSumsAnywhere`).
//!
//! Nothing is said of loads outside a pass that are no copy of a page. All laws are in [`laws`]; `hl_traces` says the same by
//! what threads did, as plain lists.
#![tactic(auto)]

pub mod laws;
