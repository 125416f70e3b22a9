//! The offsets of the log, five numbers under one order: closed, head, safe read-only, read-only, tail.
//!
//! # Addresses
//!
//! The log is one row of 64-bit words. An address is the number of a word, below 2^48, and all offsets are
//! addresses. The words are cut into pages of P words, P being a power of two from 4 to 2^20: page p holds
//! the addresses from `p * P` up to `(p + 1) * P`. This crate keeps numbers alone. It has no words, no frames
//! and no threads.
//!
//! # The offsets, under one order
//!
//! ```text
//! closed <= head <= flushed <= safe read-only <= read-only <= tail <= 2^48
//! ```
//!
//! - The **tail**: the next record is placed here, or at the start of the next page.
//! - The **read-only** offset: whoever has seen it writes only at it and above.
//! - The **safe read-only** offset: nobody writes below it any more. It follows the read-only offset, once
//!   every thread has seen that one.
//! - The **flushed** offset: all pages below it are on the device. It is the caller's: this crate neither
//!   keeps it nor moves it, and is told it when it is needed, in [`Offsets::shift`] and [`Offsets::six`]. A
//!   number between the head and the safe read-only offset stays there whatever is called: a shift takes the
//!   head to the flushed offset at most, and the safe read-only offset never falls. So the caller has only to
//!   raise it to no more than the safe read-only offset.
//! - The **head**: whoever has seen it reads only at it and above. A multiple of P.
//! - The **closed** offset: nobody reads below it any more. It follows the head, once every thread has seen
//!   that one. A multiple of P.
//!
//! Who has seen what, and so that nobody writes or reads below one of these, this crate doesn't know: it is
//! what its callers settle and close, and of a core the law `hl_laws::laws::headline`.
//!
//! These are FASTER's offsets (Chandramouli, Prasaad, Kossmann, Levandoski, Hunter, Barnett, SIGMOD 2018, the
//! section on the HybridLog), but for the closed one, which the paper doesn't name (FASTER's code does:
//! `SafeHeadAddress`).
//!
//! # How they move
//!
//! None ever falls. [`Offsets::raise`] and [`Offsets::shift`] move the read-only offset and the head to an
//! address that is asked for, or refuse. [`Offsets::settle`] and [`Offsets::close`] are for what was the
//! read-only offset or the head some time ago, when an action was stored: such actions may be done in any
//! order, so the offset becomes the greater of itself and that number, and none is refused.
//!
//! [`Offsets::allocate`] places a record of 1 to P words at or above the tail. A record lies on one page: if
//! the tail's page has too little room, the rest of that page is skipped. Each place is the lowest that this
//! allows. [`Offsets::place`] tells the place and moves nothing: a caller that has more to try before the
//! tail moves, such as whether the page may be entered, asks for it first, and then hands it to
//! [`Offsets::allocate_at`], which doesn't compute it again.
//!
//! # What a contract sees
//!
//! A plain record, `Log`: the size of a page, and the five offsets. Each answer and each change is an
//! equation on it; what is refused changes nothing. Beside it each call tells what is true of every log
//! (`IsLog`), and each call that moves an offset that none fell (`NoneFalls`). No call takes memory.
#![tactic(auto)]

mod offsets;

pub use offsets::Offsets;
