ghost use Rattle.std.specs.Prelude.{◌≡◌, ℕ, ◌+◌, ◌^◌, ◌<◌, ◌≤◌, nat_lt, true, false, if◌then◌else◌, length};
ghost use Rattle.hl_frames.specs.Row.{pages_in, HasFrame};
ghost use Rattle.hl_frames.specs.Pages.{is_flushed, is_unflushed};

use crate::placed::Placed;
use hl_model::Held;

/// The page at which a walk over pages stopped, and how many frames it visited.
#[derive(Drop)]
pub(crate) struct Walk {
    pub(crate) at: Placed,
    pub(crate) turns: u64,
}

/// Returns the first page from `from` on that isn't flushed, or `end` if there is none below it.
#[inline(always)]
pub(crate) fn skip_flushed(row: &[Option<Held>], from: Placed, end: u64) -> Walk
    requires placed { HasFrame from row.now }
    requires frames { (0 < length row.now) × (length row.now < 2 ^ 32) }
    requires order { from.page ≤ end }
    requires room { end < 2 ^ 63 }
    ensures placed { HasFrame result.at row.now }
    ensures flushed { (q : ℕ) → from.page ≤ q → q < result.at.page → is_flushed q (pages_in row.now) ≡ true }
    ensures stops { result.at.page < end → is_flushed result.at.page (pages_in row.now) ≡ false }
    ensures least { from.page ≤ result.at.page }
    ensures most { result.at.page ≤ end }
    ensures turns { result.turns + from.page ≤ end }

    // One turn for each page that it goes over, and one for the page at which it stops, if any is left.
    ensures each_once { let at = result.at.page
        in result.turns + from.page ≡ at + (if nat_lt at end then 1 else 0) }
{
    let mut at = from;
    let mut turns = 0;
    while at.page < end {
        turns += 1;
        if !is_flushed(row[at.frame], at.page) {
            return Walk { at, turns };
        }
        at = at.next(row.len());
    }
    Walk { at, turns }
}

/// Returns the first page from `from` on that is neither flushed nor in flight, or `end` if there is none
/// below it.
#[inline(always)]
pub(crate) fn skip_taken(row: &[Option<Held>], from: Placed, end: u64) -> Placed
    requires placed { HasFrame from row.now }
    requires frames { (0 < length row.now) × (length row.now < 2 ^ 32) }
    requires order { from.page ≤ end }
    requires room { end < 2 ^ 63 }
    ensures placed { HasFrame result row.now }
    ensures taken { (q : ℕ) → from.page ≤ q → q < result.page → is_unflushed (pages_in row.now) q ≡ false }
    ensures stops { result.page < end → is_unflushed (pages_in row.now) result.page ≡ true }
    ensures least { from.page ≤ result.page }
    ensures most { result.page ≤ end }
{
    let mut at = from;
    while at.page < end {
        let held = row[at.frame];
        if !is_flushed(held, at.page) && !is_in_flight(held, at.page) {
            return at;
        }
        at = at.next(row.len());
    }
    at
}

ghost use Rattle.hl_frames.specs.Pages.{left_or_marked, is_marked};

/// Whether a page is flushed, told what its frame holds.
#[inline(always)]
pub(crate) fn is_flushed(held: Option<Held>, page: u64) -> bool
    ensures { result ≡ left_or_marked (λ held. held.flushed) page held }
{
    match held {
        None => false,
        Some(held) => page < held.page || page == held.page && held.flushed,
    }
}

/// Whether a page is in flight, told what its frame holds.
#[inline(always)]
pub(crate) fn is_in_flight(held: Option<Held>, page: u64) -> bool
    ensures { result ≡ is_marked (λ held. held.in_flight) page held }
{
    match held {
        None => false,
        Some(held) => page == held.page && held.in_flight,
    }
}

/// Whether a page is freed, told what its frame holds.
#[inline(always)]
pub(crate) fn is_freed(held: Option<Held>, page: u64) -> bool
    ensures { result ≡ left_or_marked (λ held. held.freed) page held }
{
    match held {
        None => false,
        Some(held) => page < held.page || page == held.page && held.freed,
    }
}

/// Whether a page is being cleaned, told what its frame holds.
#[inline(always)]
pub(crate) fn is_cleaning(held: Option<Held>, page: u64) -> bool
    ensures { result ≡ is_marked (λ held. held.cleaning) page held }
{
    match held {
        None => false,
        Some(held) => page == held.page && held.cleaning,
    }
}
