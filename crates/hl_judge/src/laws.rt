//! What it means that all lines of a trace agree.
ghost use Rattle.std.specs.Prelude.{◌≡◌, ℕ, Bool, List, length};
ghost use Rattle.hl_script.specs.Cut.{cut};
ghost use Rattle.hl_script.specs.Text.{text};
ghost use Rattle.hl_judge.specs.Traces.{judged, AllAgree, script_of, replies_of};

/// If all lines of a trace agree, its replies are the whole text of its script, and so many lines are all of
/// its lines.
pub fn agreeing_replies_are_the_text()
    ensures text { (has : ℕ → Bool) (trace : List ℕ) (n : ℕ) → judged has trace ≡ AllAgree n
        → text has (script_of trace) ≡ replies_of trace }
    ensures lines { (has : ℕ → Bool) (trace : List ℕ) (n : ℕ) → judged has trace ≡ AllAgree n
        → n ≡ length (cut trace) }
{}
