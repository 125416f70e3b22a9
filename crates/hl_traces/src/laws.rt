//! The laws on traces: each the contract of a function that does nothing.
ghost use Rattle.hl_traces.specs.Counters.{CountersAreSums};
ghost use Rattle.hl_traces.specs.OneTrace.{TracesAreOne};
ghost use Rattle.hl_traces.specs.Records.{OthersAreZero, RecordsAreApart, RecordsAreFound, RecordsAreFoundBy, RecordsAreRead, RecordsAreWhole, RecordsStay};
ghost use Rattle.hl_traces.specs.Tails.{NoneAreSkipped, TailIsTheSum};

use hl_action::Task;

/// Where some riders of a domain are threads, which have traces, and the others serve them, all that those did is one trace, in
/// which each load, and each change, found what the newest store before it at its very address left.
pub fn traces_are_one<F: Task>()
    ensures { TracesAreOne F }
{}

/// In one trace the word at an address at which each thread only adds is the sum of what the threads added,
/// modulo 2^64.
pub fn counters_are_sums()
    ensures { CountersAreSums }
{}

/// Where threads append records, and store nothing else, no two records share an address, be they of one
/// thread or of two.
pub fn records_are_apart()
    ensures { RecordsAreApart }
{}

/// Each word that was stored of a record stays at its address.
pub fn records_stay()
    ensures { RecordsStay }
{}

/// Whoever loads at an address of a record finds 0, or the word that was appended there.
pub fn records_are_found()
    ensures { RecordsAreFound }
{}

/// Whoever found another word than 0 in a record finds from then on that word, and each one before it in the
/// record, as it was appended: so after the record's last word, if that isn't 0, the whole record.
pub fn records_are_read()
    ensures { RecordsAreRead }
{}

/// A thread that found another word than 0 in a record found the record's own.
pub fn records_are_found_by()
    ensures { RecordsAreFoundBy }
{}

/// A thread that loads in a row as many words as a record has, after it found the record's last word, other than 0, has the
/// whole record.
pub fn records_are_whole()
    ensures { RecordsAreWhole }
{}

/// At an address at which no word of a record was stored there is 0: each other word that is left is one that was stored of a
/// record there.
pub fn others_are_zero()
    ensures { OthersAreZero }
{}

/// In one trace no record ends above the newest, and that one ends at the sum of all lengths and of what was skipped at the ends
/// of pages.
pub fn tail_is_the_sum()
    ensures { TailIsTheSum }
{}

/// Where all records have one length, of which a page has room for a whole number, nothing is skipped.
pub fn none_are_skipped()
    ensures { NoneAreSkipped }
{}
