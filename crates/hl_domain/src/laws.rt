//! What follows from a domain's ending: the contract of a function that does nothing.
ghost use Rattle.hl_domain.specs.Told.{LaterCallsBegin, ToldCallsBegin, LoadsAreSettled};

use hl_action::Task;

/// A call that met no fewer steps than another left met a list that begins with what that one left. So a number of steps
/// that goes from thread to thread carries the order of their calls.
pub fn later_calls_begin<F: Task>()
    ensures { LaterCallsBegin F }
{}

/// A call of a rider that was told another's past met a list that begins with what each call in that past left. So who
/// was told of a bump is answered a greater number.
pub fn told_calls_begin<F: Task>()
    ensures { ToldCallsBegin F }
{}

/// What a rider found in the word of the safe read-only offset was that offset once the one list had so many steps, and
/// no step behind these writes below it. So where a pass was told that an address is read-only, nobody writes there any
/// more.
pub fn loads_are_settled<F: Task>()
    ensures { LoadsAreSettled F }
{}
