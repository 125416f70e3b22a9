ghost use Rattle.std.specs.Prelude.{◌≡◌, ℕ, ◌+◌, ◌/◌, ◌%◌, ◌^◌, ◌<◌, ◌≤◌, nat_lt, true, length, slice_index_or, IfOk, IfErr, OnErr};
ghost use Rattle.hl_frames.specs.Pages.{held_for, is_flushed, is_in_flight, is_freed, is_cleaning, may_enter, pages_below, next_to_flush, next_to_clean, flushed_offset};
ghost use Rattle.hl_frames.specs.Answers.{opened, page_or, after_take, enter_answer, after_enter, flush_begun, flush_done_answer, after_flush_done, clean_begun, clean_done_answer, after_clean_done, state_of, counts_of};
ghost use Rattle.hl_frames.specs.Counted.{none_yet, enter_turns, flush_done_turns, clean_done_turns};
ghost use Rattle.hl_frames.specs.IsFrames.{IsFrames};

use crate::marks::{begin_cleaning, begin_flush, begin_page, end_cleaning, end_flush};
use crate::placed::Placed;
use crate::row::{is_cleaning, is_freed, is_in_flight, skip_flushed, skip_taken};
use crate::turns::Turns;
use hl_model::{Fault, FrameState, HasSizes, Held, filled};
use std::alloc::Global;
use std::marker::Model;

/// The frames of a log, with the marks of the pages in them.
#[derive(Drop)]
pub struct Frames {
    page_size: u64,
    entered: u64,
    held: Vec<Option<Held>>,
    // The least page that isn't flushed: so many pages are, from page 0 on.
    run: Placed,
    // The least page that is neither flushed nor in flight.
    to_flush: Placed,
    // The least page that is neither freed nor being cleaned; nor is any above it.
    to_clean: Placed,
    // How many pages are flushed, and how many are freed, with those that left their frames. By these
    // `counts` tells how many frames are at each state, and visits none.
    flushed: u64,
    freed: u64,
    turns: Turns,
}

impl Model for Frames {
    ghost use Rattle.hl_frames.specs.Counted.{Counted};

    ghost Value = { Counted };

    ghost use Rattle.hl_frames.specs.Kept.{counted_of, IsKept};

    ghost view = { counted_of };

    ghost invariant = { IsKept };
}

impl Frames {
    /// Returns frames that hold nothing, for pages of these sizes.
    ///
    /// `OutOfMemory` if memory for the row was refused.
    pub fn open<S: HasSizes>(alloc: Global, params: S) -> Result<Frames, Fault>
        ensures ok { let sizes = S.sizes_of params
            in IfOk result (λ made. made.pages ≡ opened sizes.page_size sizes.frames) }
        ensures turns { IfOk result (λ made. made.turns ≡ none_yet) }
        ensures err { IfErr result (λ fault. fault ≡ Fault.OutOfMemory) }
        ensures valid { IfOk result (λ made. IsFrames made.pages) }
    {
        let sizes = params.sizes();
        let first = Placed { page: 0, frame: 0 };
        Ok(Frames {
            page_size: sizes.page_size(),
            entered: 0,
            held: filled(alloc, sizes.frames(), None)?,
            run: first,
            to_flush: first,
            to_clean: first,
            flushed: 0,
            freed: 0,
            turns: Turns {
                enter: 0,
                flush_done: 0,
                clean_done: 0,
            },
        })
    }

    /// Enters a page: its frame then holds it, with no mark. It is the page after the last entered one, or
    /// page 0, and lies below address 2^48.
    ///
    /// `Busy`, with the page, if its frame isn't free: the page F before it isn't freed.
    pub fn enter(&mut self, page: u64) -> Result<(), Fault>
        requires next { page ≡ self.old.pages.entered }
        requires within_space { page < 2 ^ 48 / self.old.pages.page_size }
        ensures answer { result ≡ enter_answer page self.old.pages }
        ensures pages { self.new.pages ≡ after_enter page self.old.pages }
        ensures turns { self.new.turns ≡ enter_turns page self.old }
        ensures refused { OnErr result (self.new ≡ self.old) }
        ensures valid { IsFrames self.new.pages }
    {
        let frame = self.frame_of(page);
        if !self.is_free(frame, page) {
            return Err(Fault::Busy { page });
        }
        let mut turns = 0;
        begin_page(&mut self.held[frame], page, &mut turns);
        self.entered = page + 1;
        self.turns.enter = turns;
        Ok(())
    }

    /// Whether the frame of this page is free for it: the page is below F, or the page F before it is freed.
    pub fn may_enter(&self, page: u64) -> bool
        ensures free { result ≡ may_enter page self.now.pages }
        ensures valid { IsFrames self.now.pages }
    {
        self.is_free(self.frame_of(page), page)
    }

    /// Takes the least sealed page that is neither flushed nor in flight: it then is in flight. `sro` is the
    /// safe read-only offset, a word's address, and the pages below it are entered.
    ///
    /// `NoneSealed` if there is no such page.
    #[inline(always)]
    pub fn flush_take(&mut self, sro: u64) -> Result<u64, Fault>
        requires { pages_below sro self.old.pages ≤ self.old.pages.entered }
        ensures answer { result ≡ page_or Fault.NoneSealed (next_to_flush sro self.old.pages) }
        ensures pages { let old = self.old.pages
            in self.new.pages ≡ after_take flush_begun (next_to_flush sro old) old }
        ensures turns { self.new.turns ≡ self.old.turns }
        ensures refused { OnErr result (self.new ≡ self.old) }
        ensures valid { IsFrames self.new.pages }
    {
        let Some(page) = self.next_to_flush(sro) else {
            return Err(Fault::NoneSealed);
        };
        let frame = self.to_flush.frame;
        begin_flush(&mut self.held[frame]);
        let next = self.to_flush.next(self.held.len());
        self.to_flush = skip_taken(&self.held, next, self.entered);
        Ok(page)
    }

    /// The flush of a page in flight has ended. If it is ok the page is flushed; else the page may be taken
    /// again. Returns the flushed offset after it, a word's address.
    ///
    /// `NotInFlight` if the page isn't in flight.
    #[inline(always)]
    pub fn flush_done(&mut self, page: u64, ok: bool) -> Result<u64, Fault>
        ensures answer { result ≡ flush_done_answer page ok self.old.pages }
        ensures pages { self.new.pages ≡ after_flush_done page ok self.old.pages }
        ensures turns { self.new.turns ≡ flush_done_turns page ok self.old }
        ensures refused { OnErr result (self.new ≡ self.old) }
        ensures valid { IsFrames self.new.pages }
    {
        let frame = self.frame_of(page);
        if !is_in_flight(self.held[frame], page) {
            return Err(Fault::NotInFlight);
        }
        let mut turns = 0;
        end_flush(&mut self.held[frame], ok, &mut turns);
        self.flushed += u64::from(ok);
        let walk = skip_flushed(&self.held, self.run, self.entered);
        self.run = walk.at;
        self.turns.flush_done = turns + walk.turns;
        if !ok {
            // The page waits again.
            self.to_flush = self.to_flush.min(Placed { page, frame });
        }
        Ok(self.run.page * self.page_size)
    }

    /// Takes the least closed page that is neither freed nor being cleaned: it then is being cleaned.
    /// `closed` is the closed offset, a word's address, at most the flushed offset.
    ///
    /// `NoneClosed` if there is no such page.
    #[inline(always)]
    pub fn clean_take(&mut self, closed: u64) -> Result<u64, Fault>
        requires { closed ≤ flushed_offset self.old.pages }
        ensures answer { result ≡ page_or Fault.NoneClosed (next_to_clean closed self.old.pages) }
        ensures pages { let old = self.old.pages
            in self.new.pages ≡ after_take clean_begun (next_to_clean closed old) old }
        ensures turns { self.new.turns ≡ self.old.turns }
        ensures refused { OnErr result (self.new ≡ self.old) }
        ensures valid { IsFrames self.new.pages }
    {
        let Some(page) = self.next_to_clean(closed) else {
            return Err(Fault::NoneClosed);
        };
        let frame = self.to_clean.frame;
        begin_cleaning(&mut self.held[frame]);
        self.to_clean = self.to_clean.next(self.held.len());
        Ok(page)
    }

    /// The words of a page that was being cleaned are zeroed: the page is freed.
    ///
    /// `NotCleaning` if the page isn't being cleaned.
    #[inline(always)]
    pub fn clean_done(&mut self, page: u64) -> Result<(), Fault>
        ensures answer { result ≡ clean_done_answer page self.old.pages }
        ensures pages { self.new.pages ≡ after_clean_done page self.old.pages }
        ensures turns { self.new.turns ≡ clean_done_turns page self.old }
        ensures refused { OnErr result (self.new ≡ self.old) }
        ensures valid { IsFrames self.new.pages }
    {
        let frame = self.frame_of(page);
        if !is_cleaning(self.held[frame], page) {
            return Err(Fault::NotCleaning);
        }
        let mut turns = 0;
        end_cleaning(&mut self.held[frame], &mut turns);
        self.freed += 1;
        self.turns.clean_done = turns;
        Ok(())
    }

    /// Returns what a frame holds, below F: its last entered page, with that page's marks. None if nothing
    /// was entered.
    pub fn marks(&self, frame: u64) -> Option<Held>
        requires { frame < length self.now.pages.frames }
        ensures held { result ≡ slice_index_or self.now.pages.frames frame None }
        ensures valid { IsFrames self.now.pages }
    {
        self.held[frame as usize]
    }

    /// What each of the F frames holds, from frame 0 on: as `marks` tells it, in a row that can be copied at
    /// once.
    pub fn row(&self) -> &[Option<Held>]
        ensures held { result.now ≡ self.now.pages.frames }
        ensures valid { IsFrames self.now.pages }
    {
        &self.held
    }

    /// Returns the state of a frame, below F, and its last entered page; None if it is free. `sro` is the
    /// safe read-only offset and `closed` the closed offset, words' addresses: the pages below the first are
    /// entered, and the second is at most the flushed offset.
    pub fn state(&self, frame: u64, sro: u64, closed: u64) -> (FrameState, Option<u64>)
        requires frame { frame < length self.now.pages.frames }
        requires sealed_entered { pages_below sro self.now.pages ≤ self.now.pages.entered }
        requires closed_flushed { closed ≤ flushed_offset self.now.pages }
        ensures state { result ≡ state_of frame sro closed self.now.pages }
        ensures valid { IsFrames self.now.pages }
    {
        let Some(held) = self.marks(frame) else {
            return (FrameState::Free, None);
        };
        let page = held.page;
        if held.freed {
            (FrameState::Free, None)
        } else if page < closed / self.page_size {
            (FrameState::Closed, Some(page))
        } else if held.flushed {
            (FrameState::Flushed, Some(page))
        } else if page < sro / self.page_size {
            (FrameState::Sealed, Some(page))
        } else {
            (FrameState::Opened, Some(page))
        }
    }

    /// Returns how many frames are open, sealed, flushed, closed and free, as `state` tells of each; none is
    /// visited. `sro` and `closed` are words' addresses, as there, and besides the flushed pages are below
    /// the first offset, and the freed ones below the second: so it is if no take was handed a greater one.
    pub fn counts(&self, sro: u64, closed: u64) -> [u64; 5]
        requires sealed_entered { pages_below sro self.now.pages ≤ self.now.pages.entered }
        requires closed_flushed { closed ≤ flushed_offset self.now.pages }
        requires flushed_sealed { let pages = self.now.pages
            in (q : ℕ) → is_flushed q pages ≡ true → q < pages_below sro pages }
        requires freed_closed { let pages = self.now.pages
            in (q : ℕ) → is_freed q pages ≡ true → q < pages_below closed pages }
        ensures counts { result ≡ counts_of sro closed self.now.pages }
        ensures valid { IsFrames self.now.pages }
    {
        let sealed = sro / self.page_size;
        let closed = closed / self.page_size;
        // Freed pages are closed, closed ones flushed, flushed ones sealed and sealed ones entered, and each
        // that isn't freed has a frame of its own.
        [
            self.entered - sealed,
            sealed - self.flushed,
            self.flushed - closed,
            closed - self.freed,
            self.held.len() as u64 + self.freed - self.entered,
        ]
    }

    /// The flushed offset, a word's address: the words of the longest run 0, 1, 2, .. of flushed pages.
    #[inline(always)]
    pub fn flushed_until(&self) -> u64
        ensures offset { result ≡ flushed_offset self.now.pages }
        ensures valid { IsFrames self.now.pages }
    {
        self.run.page * self.page_size
    }

    /// The page that `flush_take` would take: the least one below the safe read-only offset, a word's
    /// address, that is neither flushed nor in flight.
    #[inline(always)]
    pub fn next_to_flush(&self, sro: u64) -> Option<u64>
        ensures page { result ≡ next_to_flush sro self.now.pages }
        ensures valid { IsFrames self.now.pages }
    {
        let page = self.to_flush.page;
        let end = (page + 1) * self.page_size;
        (end <= sro).then_some(page)
    }

    /// The page that `clean_take` would take: the least one below the closed offset, a word's address, that
    /// is neither freed nor being cleaned.
    #[inline(always)]
    pub fn next_to_clean(&self, closed: u64) -> Option<u64>
        ensures page { result ≡ next_to_clean closed self.now.pages }
        ensures valid { IsFrames self.now.pages }
    {
        let page = self.to_clean.page;
        let end = (page + 1) * self.page_size;
        (end <= closed).then_some(page)
    }

    /// Whether a page is in flight.
    pub fn is_in_flight(&self, page: u64) -> bool
        ensures { result ≡ is_in_flight page self.now.pages }
    {
        is_in_flight(self.held[self.frame_of(page)], page)
    }

    /// Whether a page is being cleaned.
    pub fn is_cleaning(&self, page: u64) -> bool
        ensures { result ≡ is_cleaning page self.now.pages }
    {
        is_cleaning(self.held[self.frame_of(page)], page)
    }

    /// Returns whether the page of an address, in words, was entered. The end of the entered pages is a
    /// product, while the page of the address would be a quotient.
    #[inline(always)]
    pub fn is_entered_at(&self, address: u64) -> bool
        ensures { result ≡ nat_lt (address / self.now.pages.page_size) self.now.pages.entered }
    {
        address < self.entered * self.page_size
    }

    /// How many frames of the row the last accepted call of each kind visited.
    pub fn turns(&self) -> Turns
        ensures turns { result ≡ self.now.turns }
        ensures enter { result.enter ≤ 1 }
        ensures flush_done { result.flush_done ≤ length self.now.pages.frames + 2 }
        ensures clean_done { result.clean_done ≤ 1 }
    {
        self.turns
    }

    // The frame of a page. It divides, so a call asks it once.
    #[inline(always)]
    fn frame_of(&self, page: u64) -> usize
        ensures frame { result ≡ page % length self.now.pages.frames }
        ensures within { result < length self.now.pages.frames }
    {
        (page % self.held.len() as u64) as usize
    }

    // Whether this frame, which is the page's, is free for it. The page F before it has the same frame.
    fn is_free(&self, frame: usize, page: u64) -> bool
        requires { frame ≡ page % length self.now.pages.frames }
        ensures free { result ≡ may_enter page self.now.pages }
        ensures valid { IsFrames self.now.pages }
    {
        let frames = self.held.len() as u64;
        page < frames || is_freed(self.held[frame], page - frames)
    }
}
