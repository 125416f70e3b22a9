ghost use Rattle.std.specs.Prelude.{◌≡◌, ◌+◌, ◌<◌, ◌≤◌, None, ◌++◌, length};
ghost use Rattle.std.specs.List.{All};
ghost use Rattle.hl_model.specs.Snapshots.{AreInOrder};
ghost use Rattle.hl_lag.specs.Lag.{step_if, lag_of, fault_at};

use arrayvec::ArrayVec;
use hl_model::{HasSizes, Six, Step};

/// A flusher's next steps at these offsets, in order, for whoever wants about `mutable` pages at the tail to
/// be written and about `resident` to be read. Both are numbers of pages, `1 <= mutable <= resident <= F`. It
/// makes none of them.
///
/// With N the pages up to the tail, the read-only offset is raised to where the page N - mutable begins,
/// unless it is there or above, and a settle follows if the safe one is below it then. The head is shifted to
/// where the page N - resident begins, at most to the flushed offset, unless it is there or above, and a
/// close follows if the closed offset is below it then. (FASTER keeps its read-only and head offsets at
/// constant lags behind the tail.)
///
/// It is for a moment at which no action is pending and none is taken. A settle takes effect when its action
/// is done, so a caller who asks while one waits is told a settle again, each time, as long as the safe
/// read-only offset lags, and likewise a close: the drain list fills with them, until a bump meets
/// `DrainFull`.
///
/// With `resident` = F the head goes no further than where the page N - F begins. The page N wants the frame
/// of that page, which is so never closed: once the pages are full each allocation is `Busy`, and the lag
/// can't move any more. Whoever wants frames to come free keeps `resident` below F.
///
/// At these offsets neither the raise nor the shift meets a fault, if the six are in order. The settle and
/// the close may meet `DrainFull`, `EpochsSpent` or `WindowFull`.
pub fn lag_steps<S: HasSizes>(params: S, six: Six, mutable: u64, resident: u64) -> ArrayVec<Step, 4>
    requires mutable_least { 1 ≤ mutable }
    requires mutable_most { mutable ≤ resident }
    requires resident_most { resident ≤ (S.sizes_of params).frames }
    ensures steps { result.items ≡ lag_of (S.sizes_of params).page_size six mutable resident }
    ensures lawful { let page_size = (S.sizes_of params).page_size in AreInOrder page_size six
        → All (λ step. fault_at page_size six step ≡ None) result.items }
{
    let page_size = params.sizes().page_size();
    let pages = six.tail.div_ceil(page_size);
    let writable_from = page_size * pages.saturating_sub(mutable);
    let resident_from = page_size * pages.saturating_sub(resident);
    let read_only = six.read_only.max(writable_from);
    let head = six.head.max(six.flushed.min(resident_from));
    let raise = Step::Raise { x: read_only };
    let mut steps = ArrayVec::new();
    push_if(&mut steps, read_only > six.read_only, raise);
    push_if(&mut steps, read_only > six.safe_read_only, Step::Settle);
    push_if(&mut steps, head > six.head, Step::Shift { x: head });
    push_if(&mut steps, head > six.closed, Step::Close);
    steps
}

// Adds a step at the end, if it is wanted.
fn push_if(steps: &mut ArrayVec<Step, 4>, is_wanted: bool, step: Step)
    requires { length steps.old.items < 4 }
    ensures items { steps.new.items ≡ steps.old.items ++ step_if is_wanted step }
    ensures most { length steps.new.items ≤ length steps.old.items + 1 }
{
    if is_wanted {
        steps.push(step);
    }
}
