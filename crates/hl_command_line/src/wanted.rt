/// What the words ask for.
#[derive(Clone, Copy, Debug, PartialEq, Eq)]
pub enum Wanted {
    /// Answer a script; and then flush its sealed pages, where that is wanted.
    Run {
        flush: bool,
    },
    /// Answer a script in the slow form.
    Slow,
    /// Run a script, and report what it left.
    Report,
    /// Judge a trace.
    Judge,
    /// Run a race.
    Race {
        riders: u64,
        rounds: u64,
        cut: bool,
        wide: bool,
    },
}
