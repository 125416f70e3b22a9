//! All quantities at once, and what each frame is at, told what is present.

ghost use Rattle.std.specs.Prelude.{◌≡◌, ◌^◌, ◌*◌, ◌<◌, ◌≤◌, count_by, is_some, map, option_map, Some};
ghost use Rattle.hl_model.specs.Snapshots.{state_counts};
ghost use Rattle.hl_model.specs.Bases.{slot_in};
ghost use Rattle.hl_plain.specs.Shown.{state_at, frame_at, snapshot_at};
ghost use Rattle.hl_plain.specs.States.{count_place};

use crate::present::Present;
use crate::safe::safe;
use hl_model::{FrameState, Held, Six, Snapshot, View};

/// The view of slot t, if it is protected.
pub fn view_at(present: &Present, t: u64) -> Option<View>
    ensures { result ≡ option_map (λ slot. slot.view) (slot_in present.now t) }
{
    present.slot(t).map(|slot| slot.view)
}

// How many slots are protected.
fn protected(present: &Present) -> u64
    ensures { result ≡ count_by is_some present.now.slots }
{
    let mut count = 0;
    for t in 0..present.params().slots() {
        if present.slot(t).is_some() {
            count += 1;
        }
    }
    count
}

/// The six offsets.
pub fn six(present: &Present) -> Six
    ensures { result ≡ present.now.six }
{
    Six {
        closed: present.closed(),
        head: present.head(),
        flushed: present.flushed(),
        safe_read_only: present.safe_read_only(),
        read_only: present.read_only(),
        tail: present.tail(),
    }
}

// What a frame is at that holds a page, and the page if it isn't free.
fn state_at(present: &Present, held: Held) -> (FrameState, Option<u64>)
    requires { held.page * present.now.sizes.page_size < 2 ^ 48 }
    ensures { result ≡ state_at present.now (Some held) }
{
    let page = held.page;
    let end = page * present.params().page_size() + present.params().page_size();
    if held.freed {
        (FrameState::Free, None)
    } else if end <= present.closed() {
        (FrameState::Closed, Some(page))
    } else if held.flushed {
        (FrameState::Flushed, Some(page))
    } else if end <= present.safe_read_only() {
        (FrameState::Sealed, Some(page))
    } else {
        (FrameState::Opened, Some(page))
    }
}

/// What frame f is at, and its last entered page if it isn't free.
pub fn frame_at(present: &Present, f: u64) -> (FrameState, Option<u64>)
    ensures { result ≡ frame_at present.now f }
{
    match present.held(f) {
        None => (FrameState::Free, None),
        Some(held) => state_at(present, held),
    }
}

// The place of a state among the counts of frames.
fn count_place(state: FrameState) -> usize
    ensures place { result ≡ count_place state }
    ensures within { result < 5 }
{
    match state {
        FrameState::Opened => 0,
        FrameState::Sealed => 1,
        FrameState::Flushed => 2,
        FrameState::Closed => 3,
        FrameState::Free => 4,
    }
}

// How many frames are open, sealed, flushed, closed and free.
fn counts(present: &Present) -> [u64; 5]
    ensures { result ≡ state_counts (map (λ held. (state_at present.now held).0) present.now.frames) }
{
    let mut counts = [0; 5];
    for f in 0..present.params().frames() {
        counts[count_place(frame_at(present, f).0)] += 1;
    }
    counts
}

/// All quantities.
pub fn snapshot_at(present: &Present) -> Snapshot
    ensures { result ≡ snapshot_at present.now }
{
    Snapshot {
        epoch: present.epoch(),
        safe: safe(present),
        protected: protected(present),
        pending: present.waiting().len() as u64,
        taken: present.taken().len() as u64,
        six: six(present),
        frames: counts(present),
    }
}
