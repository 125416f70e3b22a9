//! What holds of the text of every line.
ghost use Rattle.std.specs.Prelude.{◌≡◌, ◌≤◌, ◌≢◌, ◌↔◌, ℕ, Some, List, length};
ghost use Rattle.std.specs.List.{All};
ghost use Rattle.hl_line.specs.declared.line.Line.{Line};
ghost use Rattle.hl_line.specs.Lines.{Fits, spelling};
ghost use Rattle.hl_line.specs.Reading.{line_of};

/// The spelling of a line has at most 80 bytes, and none of them is an LF. So cutting a script at each LF cuts no
/// line in two, and what is longer than 80 bytes is no line.
pub fn spellings_are_short()
    ensures short { (l : Line) → Fits l → length (spelling l) ≤ 80 }
    ensures no_line_feed { (l : Line) → Fits l → All (λ b. b ≢ 10) (spelling l) }
{}

/// The line of some bytes is the one whose spelling they are, and each line that fits is found from its spelling:
/// however `line_of` looks for it, it is the inverse of the spelling.
pub fn lines_are_their_spellings()
    ensures { (s : List ℕ) (l : Line) → (line_of s ≡ Some l) ↔ (Fits l × (spelling l ≡ s)) }
{}
