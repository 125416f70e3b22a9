//! The frames of the log in memory: which pages were entered, which are in flight, flushed, being cleaned and
//! freed, and so which page may be entered next.
//!
//! After the HybridLog of FASTER (Chandramouli, Prasaad, Kossmann, Levandoski, Hunter, Barnett, SIGMOD 2018):
//! the log is cut into pages, and its last ones are kept in a circular buffer of frames.
//!
//! # Pages and frames
//!
//! Pages are numbered from 0, and are entered in that order. With F frames page p lies in frame `p mod F`. So
//! a frame holds one page after another, each F after the one before, and page p may be entered if `p < F`,
//! or page p - F is freed. What a frame holds is the page that was entered in it last, with that page's marks
//! ([`Held`](hl_model::Held)): one row has it for each frame.
//!
//! # A page's way
//!
//! 1. A page is entered by the first record that is placed in it, and is *open*.
//! 2. It is *sealed* once it lies below the safe read-only offset, which the caller hands in.
//! 3. A flush take names it, and it is *in flight*. A flush done makes it *flushed*, or, if the flush failed,
//!    lets it be taken again.
//! 4. It is *closed* once it lies below the closed offset, which the caller hands in.
//! 5. A clean take names it, and it is *being cleaned*. A clean done makes it *freed*.
//!
//! Takes name the least page that waits; dones may come in any order. A page that is closed isn't free: its
//! words are still to be zeroed.
//!
//! # The flushed offset
//!
//! It is the end of the longest run of flushed pages 0, 1, 2, .. So a flush that is done before that of an
//! earlier page leaves it where it is. The run is stored, and a flush done moves it over the marks, so to ask
//! for the flushed offset is to read a number.
//!
//! # Where takes look
//!
//! Two more pages are stored, and neither depends on the offsets that the caller hands in:
//!
//! - the least page that is neither flushed nor in flight. It is the next to be flushed, once it is sealed. A
//!   take moves it up to the next such page. A failed flush moves it down if the page that failed is less:
//!   that page waits again, and is the next. A flush that ends well leaves it where it is, however late it
//!   ends: its page was not waiting.
//! - the least page that is neither freed nor being cleaned. All above it are so too, since takes are in
//!   order and no clean fails: a take moves it up by one.
//!
//! Beside each of the three stored pages stands its frame, which moves with it from the last frame to the
//! first. So no take divides, and an enter or a done divides once, for the frame of the page that it names.
//!
//! # How many frames are at each state
//!
//! Freed pages are closed, closed ones flushed, flushed ones sealed and sealed ones entered, and each page
//! that isn't freed has a frame of its own. So as many frames are open as pages are entered and not sealed,
//! and so on down to the closed ones that aren't freed; the other frames are free. Two numbers are stored for
//! that: how many pages are flushed, and how many are freed, with those that left their frames. A flush done
//! that is ok and a clean done each add one, and no other call changes them.
//!
//! # What a call costs
//!
//! A turn is a visit of one frame in the row.
//!
//! | call | turns |
//! |---|---|
//! | `enter`, `clean_take`, `clean_done`, `marks`, `state`, each question of one page | 1 |
//! | `is_entered_at`, `flushed_until`, `next_to_flush`, `next_to_clean`, `counts`; `row`, which only lends it | none |
//! | `flush_done` | at most F + 2: one for the page, and one for each page that the run is moved over, with the one at which it stops |
//! | `flush_take` | at most F: one for the page, and one for each page up to the next that waits |
//!
//! The run never goes back, so each page is moved over once: n flush dones take at most 2 n turns, and one
//! for each page that was flushed. Takes pass each page once too, but for a failed flush: the take of the
//! page that failed moves over the pages behind it again, at most F - 1 of them. Else a take that comes in
//! order takes two turns.
//!
//! [`Frames::turns`] tells the turns of the last accepted `enter`, `flush_done` and `clean_done`. The clause
//! `turns` of each call says exactly how many these are.
//!
//! # What a contract sees
//!
//! How many words a page has, what each frame holds, how many pages were entered, and the turns (`Counted`).
//! Each answer and change is an equation on these, and each call tells besides what is true of all frames
//! (`IsFrames`). The read-only, safe read-only, head and closed offsets are the caller's: it hands in the
//! ones that a call needs.
//!
//! No call after [`Frames::open`] takes memory: the row has room for exactly F frames, and keeps it.
#![tactic(auto)]

mod frames;
mod marks;
mod placed;
mod row;
mod turns;

pub use frames::Frames;
pub use turns::Turns;
