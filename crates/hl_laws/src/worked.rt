//! Worked examples as theorems: the definitions alone, computed by the checker, give what was written by
//! hand.
#![tactic(auto, unfolding(crate::proofs::OnLiterals::on_literals))]

ghost use Rattle.hl_laws.specs.Worked.{FirstAction, NobodyProtected, FullDrainList, TwoThreads, BothWait, BareBumps, TicketsRunAhead};
ghost use Rattle.hl_laws.specs.WorkedBases.{CutDrainList, CutPages, CutLook, CutBareBump, FullWindow};
ghost use Rattle.hl_laws.specs.WorkedBorders.{EmptyLog, AtBorders, LastAddress};
ghost use Rattle.hl_laws.specs.WorkedPages.{FuzzyRegion, SwappedDones, Looks, SkippedWord, RaisesAndShifts, OutOfOrderFlush, FailedFlush, StaleReader, WordsOfAPage};

/// An action waits until the one thread that was protected at its bump refreshed.
pub fn first_action()
    ensures { FirstAction }
{}

/// With nobody protected an action may be taken at once.
pub fn nobody_protected()
    ensures { NobodyProtected }
{}

/// A full drain list refuses a bump, and the epoch stays.
pub fn full_drain_list()
    ensures { FullDrainList }
{}

/// Two threads: refusals, an action that waits for the slower one, dones in any order and of no taken ticket.
pub fn two_threads()
    ensures { TwoThreads }
{}

/// Actions wait in the order of their bumps.
pub fn both_wait()
    ensures { BothWait }
{}

/// Bare bumps raise the epoch and take no place in the drain list: tickets have gaps.
pub fn bare_bumps()
    ensures { BareBumps }
{}

/// Tickets run ahead of the takes by several bare bumps, and dones come out of order.
pub fn tickets_run_ahead()
    ensures { TicketsRunAhead }
{}

/// A thread writes below a read-only offset that it has not seen, until every thread has moved on.
pub fn fuzzy_region()
    ensures { FuzzyRegion }
{}

/// Dones in another order than their takes: the safe read-only offset never falls.
pub fn swapped_dones()
    ensures { SwappedDones }
{}

/// A look raises a view; a refresh brings what is.
pub fn looks()
    ensures { Looks }
{}

/// A record lies on one page: a word is skipped.
pub fn skipped_word()
    ensures { SkippedWord }
{}

/// Raises and shifts that are refused.
pub fn raises_and_shifts()
    ensures { RaisesAndShifts }
{}

/// Flushes acknowledged out of order.
pub fn out_of_order_flush()
    ensures { OutOfOrderFlush }
{}

/// A failed flush lets its page be taken again.
pub fn failed_flush()
    ensures { FailedFlush }
{}

/// A closed page's frame is not free before it is cleaned.
pub fn stale_reader()
    ensures { StaleReader }
{}

/// The words of a page are the last values written there.
pub fn words_of_a_page()
    ensures { WordsOfAPage }
{}

/// What an empty log refuses, and slots at their last and one past it.
pub fn empty_log()
    ensures { EmptyLog }
{}

/// What is accepted and what is refused at each border: sizes, offsets, views, pages.
pub fn at_borders()
    ensures { AtBorders }
{}

/// The last address takes one word, and nothing lies behind it.
pub fn last_address()
    ensures { LastAddress }
{}

/// A list cut when one action is taken and one is pending, and what follows.
pub fn cut_drain_list()
    ensures { CutDrainList }
{}

/// A list cut when one page is in flight and another is being cleaned, and what follows.
pub fn cut_pages()
    ensures { CutPages }
{}

/// A list cut after a look, and looks that follow.
pub fn cut_look()
    ensures { CutLook }
{}

/// A list cut after a bare bump behind a full drain list, and what follows.
pub fn cut_bare_bump()
    ensures { CutBareBump }
{}

/// The window is full at 4,096 epochs that aren't safe; the last epoch and the drain list are tried before
/// it.
pub fn full_window()
    ensures { FullWindow }
{}
