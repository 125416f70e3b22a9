//! What follows from a page's flush and from a domain's ending: each law the contract of a function that does
//! nothing.
ghost use Rattle.hl_model.specs.Sizes.{Sizes as SIZES};
ghost use Rattle.hl_images.specs.Flushes.{LaterStates, TakenIsCopied, AnsweredIsFlushed, CopiedStays, FlushedStays, FlushedIsImaged};
ghost use Rattle.hl_images.specs.Kept.{RidersStayEntered, PassesStayEntered};
ghost use Rattle.hl_images.specs.Pairs.{FlushedByTwoStays, FlushedByTwoIsImaged};
ghost use Rattle.hl_images.specs.Sealed.{PendingStaysAbove, LaterStaysAbove};

use hl_action::Task;

/// A rider that did more is in a later state.
pub fn later_states()
    ensures { LaterStates }
{}

/// A rider that took a page to flush and then loaded the words of its cells has copied it.
pub fn taken_is_copied<F: Task>()
    ensures { TakenIsCopied F }
{}

/// A rider that copied a page and then answered it as flushed has flushed it.
pub fn answered_is_flushed()
    ensures { AnsweredIsFlushed }
{}

/// What a rider copied, it has copied whatever it does more.
pub fn copied_stays()
    ensures { CopiedStays }
{}

/// What a rider flushed, it has flushed whatever it does more. So a type can keep it of a rider.
pub fn flushed_stays()
    ensures { FlushedStays }
{}

/// What a rider of a domain flushed is an image of the page at the domain's end.
pub fn flushed_is_imaged<F: Task>()
    ensures { FlushedIsImaged F }
{}

/// What two riders flushed, they have flushed whatever they do more.
pub fn flushed_by_two_stays()
    ensures { FlushedByTwoStays }
{}

/// What two riders of a domain flushed is an image of the page at the domain's end.
pub fn flushed_by_two_is_imaged<F: Task>()
    ensures { FlushedByTwoIsImaged F }
{}

/// No touch that has not entered writes in a sealed page, if its slot has the view that its pass holds.
pub fn pending_stays_above()
    ensures { PendingStaysAbove }
{}

/// No write that is accepted once a page is sealed lies in it.
pub fn later_stays_above()
    ensures { LaterStaysAbove }
{}

/// Each store of a rider without a pass stays a write that its calls entered, or a 0 of its sweeps, by all
/// that such a rider does.
pub fn riders_stay_entered()
    ensures { (sizes : SIZES) → RidersStayEntered sizes }
{}

/// Each store of a pass's rider stays a write that its calls entered, or one that waits, by all that a pass
/// does.
pub fn passes_stay_entered()
    ensures { (sizes : SIZES) → PassesStayEntered sizes }
{}
