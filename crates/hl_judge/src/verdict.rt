/// What a trace shows.
#[derive(Drop)]
pub enum Verdict {
    /// Each line agrees.
    Agrees {
        /// How many there are.
        lines: u64,
    },
    /// A reply isn't the one that the definitions give. All lines before agree.
    Deviates(Deviation),
    /// A line is no line of a trace. All lines before agree.
    NoEntry {
        /// Its number, counted from 1.
        line: u64,
    },
}

/// The first line of a trace that deviates.
#[derive(Drop)]
pub struct Deviation {
    /// Its number, counted from 1.
    pub line: u64,
    /// Its bytes, without the LF.
    pub given: Vec<u8>,
    /// The reply that the definitions give.
    pub answer: Vec<u8>,
}
