//! What follows for those who wait, for a ticket or for an action, and for those whose page was evicted; and
//! what all threads did, as one trace. Each is the contract of a function that does nothing.
ghost use Rattle.hl.specs.Evictions.{EvictedWereFlushed, LoadedEvictedWereFlushed};
ghost use Rattle.hl.specs.Left.{WordsAreRecords};
ghost use Rattle.hl.specs.Overs.{OverWereDone};
ghost use Rattle.hl.specs.Scans.{RecordsAreScanned};
ghost use Rattle.hl.specs.Threads.{AllIsWritten, ThreadsAreOne};
ghost use Rattle.hl.specs.Uses.{AppendsMore, CountersEndAsSums, ThreadsAppend};
ghost use Rattle.hl.specs.Waits.{SafeAfterAllMovedOn};

use crate::work::Work;
use hl_action::Task;
use std::sync::Wait;

/// Once the number of a bump is safe, each slot that was protected before the bump has refreshed or left since. So a
/// session that [`wait`](crate::Session::wait) answered for a ticket of another's knows it of that bump, in the one
/// list.
#[tactic(auto, using(crate::proofs::WaitLaws::safe_after_all_moved_on))]
pub fn safe_after_all_moved_on()
    ensures { SafeAfterAllMovedOn }
{}

/// Evicted means written: the page of an address below the head was answered as flushed by one of the log's riders.
/// After [`with_threads`](crate::with_threads) that is one of the crew's, unless a thread flushed it itself, and
/// `Work::took` says of it that the device took its image.
pub fn evicted_were_flushed()
    ensures { EvictedWereFlushed }
{}

/// Evicted means written also as a session sees it: the page of an address below a head that its
/// [`look`](crate::Session::look) loaded was answered as flushed by one of the log's riders. No load is above the head of
/// the one list.
pub fn loaded_evicted_were_flushed<F: Task>()
    ensures { LoadedEvictedWereFlushed F }
{}

/// An action that was stored and is over is done: its done stands in the one list. So a session that
/// [`wait_until_over`](crate::Session::wait_until_over) answered knows it of a ticket that a bump was answered.
pub fn over_were_done()
    ensures { OverWereDone }
{}

/// What the threads of a work did is one trace, if each returned a value and the log was closed: a list of plain acts, of
/// each thread just its own, in its order. Each load, and each change, found what the newest store before it at that very
/// address left, or 0. No two records share an address: each lies where the one before it ends, or on the next page, and the
/// newest ends at the tail. The words in memory at the end, from the closed offset to the tail, are what the list leaves
/// there; and so are those of each page below the flushed offset, whose image the device took.
/// [`with_threads`](crate::with_threads) and [`with_memory`](crate::with_memory) say so of their own results.
pub fn threads_are_one<R: Wait, P: Work<R>>(_work: &P)
    ensures { ThreadsAreOne P.Job (P.returns _work.now) (P.took _work.now) }
{}

/// Each record is on the device, if the log was flushed up to its tail ([`Finished::flushed`](crate::Finished::flushed) is
/// `Ok`): of each word of a record that a thread placed the device took the image of its page, with the words that the
/// threads' one trace leaves there.
pub fn all_is_written<R: Wait, P: Work<R>>(_work: &P)
    ensures { AllIsWritten P.Job (P.took _work.now) }
{}

/// A counter that all threads of a work only add to ends as the sum of what they say that they added, modulo 2^64, wherever
/// it lies: `total` takes that of what a thread returned, and `returns` says of its acts that they added so much at the
/// counter's address, and did nothing else there. What it ends as [`word_left`](crate::word_left) reads.
pub fn counters_end_as_sums<R: Wait, P: Work<R>>(_work: &P)
    ensures { CountersEndAsSums (P.returns _work.now) }
{}

/// A session that has appended records, and placed and stored nothing else, has one more by an append that was answered with
/// an address, and the same by one that was refused: what that stored is told as refused midway. `ok` says what is to be
/// known of the words of each record, of those refused midway, too.
pub fn appends_more()
    ensures { AppendsMore }
{}

/// All that the threads of a work did is appends of records, where `returns` says so of each: then what it appended is read
/// by everybody as it was appended, by the laws of [`hl_traces`](hl_traces::laws) on records. Those whose words were all
/// stored are just those that the threads tell.
pub fn threads_append<R: Wait, P: Work<R>>(_work: &P)
    ensures { ThreadsAppend (P.returns _work.now) }
{}

/// Once the log is closed, its words are those of the records that its threads appended, and 0 elsewhere, in memory and on
/// the device together: for the words that [`words_left`](crate::words_left) read.
pub fn words_are_records<F: Task>()
    ensures { WordsAreRecords F }
{}

/// Once the log is closed, all records that its threads appended are found in its words, by whoever passes each 0 and steps
/// from record to record, if none begins or ends with 0: in the order of their addresses just those that the threads tell.
/// It gives the rules by which a scan is proved (`CanScan`), in the user's own layout of a record.
pub fn records_are_scanned<R: Wait, P: Work<R>>(_work: &P)
    ensures { RecordsAreScanned P.Job P.Out }
{}
