//! What a caller can tell from what was read and written.
ghost use Rattle.std.specs.Prelude.{ℕ, ◌<◌, Bool, Some, List, length};
ghost use Rattle.hl_script.specs.Cut.{unfinished_line};
ghost use Rattle.hl_script.specs.Outcomes.{ReadToEnd, WroteWholeLines, FailedWrite};

/// `Stream` has two cases: a failed read, or no more of them; and a failed write. Who knows what was read and
/// what was written can tell them apart: of the same bytes both hold only where the input had ended, within a
/// line.
pub fn failed_reads_and_writes_differ()
    ensures { (has : ℕ → Bool) (reads : ℕ) (given left before after input : List ℕ)
        → WroteWholeLines has (Some before) (Some after) input
        → FailedWrite has reads (Some given) (Some left) (Some before) (Some after) input
        → ReadToEnd reads (Some given) (Some left) input × (0 < length (unfinished_line input)) }
{}
