/// What the three words had when a pass loaded them: the read-only offset, the head, and the last epoch that
/// ended.
#[derive(Clone, Copy, Debug, PartialEq, Eq)]
pub struct News {
    pub read_only: u64,
    pub head: u64,
    pub ended: u64,
}
