//! What follows for whoever reads a log's words in another way: each the contract of a function that does nothing.
ghost use Rattle.example_layout.specs.Laws.{NoneBegins, PiecesAreTold, RowsAreTested, RowsHaveEnds};

/// A piece is told by its words, whatever lies behind it.
pub fn pieces_are_told()
    ensures { PiecesAreTold }
{}

/// Where the words of a log are bad, no piece begins.
pub fn none_begins()
    ensures { NoneBegins }
{}

/// A record's words begin with a header that says how many they are, and don't end with 0; those of a live one tell its bytes.
pub fn rows_have_ends()
    ensures { RowsHaveEnds }
{}

/// `is_row` is true of just the words of live records: it is the test of a log's records that the laws of
/// `hl` take.
pub fn rows_are_tested()
    ensures { RowsAreTested }
{}
