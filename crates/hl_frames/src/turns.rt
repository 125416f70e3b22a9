/// How many frames of the row the last accepted call of each kind visited; 0 before the first one.
#[derive(Clone, Copy, Debug, PartialEq, Eq)]
pub struct Turns {
    /// The last `enter`.
    pub enter: u64,
    /// The last `flush_done`.
    pub flush_done: u64,
    /// The last `clean_done`.
    pub clean_done: u64,
}
