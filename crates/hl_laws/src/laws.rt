//! What holds of every accepted list of steps, or of any, each law the contract of a function that does
//! nothing: the definitions alone carry them, so they hold of whatever meets the definitions.

ghost use Rattle.hl_laws.specs.BaseLaws.{ListsMayBeCut, CutsAnywhere, TakenAfterAllMovedSince};
ghost use Rattle.hl_laws.specs.Follows.{TablesFollow, ActionsFollow, OffsetsFollow, PagesFollow, OutSinceItsTake};
ghost use Rattle.hl_laws.specs.Laws.{HeadlineHolds, AcceptedMeetsNoFault, GoodByItsLastStep, CurrentIsAtMostLast, DrainListHoldsThem, TicketsAreNumbers, TicketsRise, TakenAreThoseListed, TakenAreSafe, AcceptedStepsAreAccepted, BeginningsAreAccepted, EpochsAreInOrder, SafeNeverFalls, SafeIsGreatest, MarkAfterBump, EpochsFitTheWindow, OffsetsAreInOrder, OffsetsNeverFall};

/// The accepted steps of any list are an accepted list.
#[tactic(auto, using(crate::proofs::LawProofs::accepted_steps_are_accepted))]
pub fn accepted_steps_are_accepted()
    ensures { AcceptedStepsAreAccepted }
{}

/// Each beginning of an accepted list is accepted.
#[tactic(auto, using(crate::proofs::LawProofs::beginnings_are_accepted))]
pub fn beginnings_are_accepted()
    ensures { BeginningsAreAccepted }
{}

/// `safe < E_t <= E` for each protected slot t of every accepted list (FASTER, epoch protection).
pub fn epochs_are_in_order()
    ensures { EpochsAreInOrder }
{}

/// The safe epoch never falls, whatever steps come.
#[tactic(auto, using(crate::proofs::LawProofs::safe_never_falls))]
pub fn safe_never_falls()
    ensures { SafeNeverFalls }
{}

/// The safe epoch is the greatest number below the current epoch and below those of all protected slots.
pub fn safe_is_greatest()
    ensures { SafeIsGreatest }
{}

/// A protected slot's epoch exceeds a bump's ticket exactly if its mark, its last acquire or refresh, lies
/// after the bump.
#[tactic(auto, using(crate::proofs::LawProofs::mark_after_bump))]
pub fn mark_after_bump()
    ensures { MarkAfterBump }
{}

/// After an accepted list, the epochs that ended and aren't safe are at most 4,096, the window.
#[tactic(auto, using(crate::proofs::LawProofs::epochs_fit_the_window))]
pub fn epochs_fit_the_window()
    ensures { EpochsFitTheWindow }
{}

/// A step of an accepted list meets no fault after those before it.
#[tactic(auto, using(crate::proofs::LawProofs::accepted_meets_no_fault))]
pub fn accepted_meets_no_fault()
    ensures { AcceptedMeetsNoFault }
{}

/// A list's last step is accepted after the accepted steps before it, or not at all.
#[tactic(auto, using(crate::proofs::LawProofs::good_by_its_last_step))]
pub fn good_by_its_last_step()
    ensures { GoodByItsLastStep }
{}

/// The current epoch of an accepted list is at most 2^62.
#[tactic(auto, using(crate::proofs::LawProofs::current_is_at_most_last))]
pub fn current_is_at_most_last()
    ensures { CurrentIsAtMostLast }
{}

/// Pending and taken actions are the actions stored less the dones, and at most the places of the drain list.
#[tactic(auto, using(crate::proofs::LawProofs::drain_list_holds_them))]
pub fn drain_list_holds_them()
    ensures { DrainListHoldsThem }
{}

/// The j-th bump of any kind has number j. A bump that stores an action gives its number to the action for a
/// ticket, and no other number is a ticket.
#[tactic(auto, using(crate::proofs::LawProofs::tickets_are_numbers))]
pub fn tickets_are_numbers()
    ensures { TicketsAreNumbers }
{}

/// The tickets of all actions rise in the order in which these were stored, from 1 up to the number of bumps.
pub fn tickets_rise()
    ensures { TicketsRise }
{}

/// A ticket is taken and not done exactly if a taken action has it.
#[tactic(auto, using(crate::proofs::LawProofs::taken_are_those_listed))]
pub fn taken_are_those_listed()
    ensures { TakenAreThoseListed }
{}

/// Each ticket ever taken is at most the safe epoch.
#[tactic(auto, using(crate::proofs::LawProofs::taken_are_safe))]
pub fn taken_are_safe()
    ensures { TakenAreSafe }
{}

/// What each step makes of the table of a list, whatever list it comes after: a table of epochs that does so,
/// call by call, is at its list.
pub fn tables_follow()
    ensures { TablesFollow }
{}

/// What each step makes of the pending and the taken actions of an accepted list.
pub fn actions_follow()
    ensures { ActionsFollow }
{}

/// What each step makes of the six offsets of an accepted list.
pub fn offsets_follow()
    ensures { OffsetsFollow }
{}

/// What each step makes of the pages that are flushed, in flight, freed and being cleaned, whatever list it
/// comes after.
pub fn pages_follow()
    ensures { PagesFollow }
{}

/// A page is in flight exactly if a flush take named it and no flush of it ended since; likewise with
/// cleaning.
pub fn out_since_its_take()
    ensures { OutSinceItsTake }
{}

/// The offsets of an accepted list are in order: closed, head, flushed, safe read-only, read-only, tail, at
/// most 2^48. The first three are starts of pages.
pub fn offsets_are_in_order()
    ensures { OffsetsAreInOrder }
{}

/// None of the six offsets ever falls.
pub fn offsets_never_fall()
    ensures { OffsetsNeverFall }
{}

/// The headline of each accepted list: an action is taken at most once, after every thread protected at its
/// bump refreshed or left; no write lies below the safe read-only offset; no frame is reused while a view
/// reaches its page (FASTER, HybridLog: eviction). Besides: views are bounded below by what is settled and
/// closed, each record lies on one page, behind all before it, and from a page's flush take on its words
/// stay. A thread is its slot here.
pub fn headline()
    ensures { HeadlineHolds }
{}

/// An accepted list may be cut to its base: from there all that follows is answered and accepted as behind
/// the list, and leads to the base of the whole.
pub fn lists_may_be_cut()
    ensures { ListsMayBeCut }
{}

/// At each place of an accepted list, the quantities and the next reply are those of the base and the steps
/// since.
pub fn cuts_anywhere()
    ensures { CutsAnywhere }
{}

/// An action is taken only after every slot that was protected in a base, with an epoch at or below its
/// ticket, has refreshed or left since: the steps before the base need not be kept for it.
pub fn taken_after_all_moved_since()
    ensures { TakenAfterAllMovedSince }
{}
