use hl::Fault;
use thiserror::Error;

/// Why a job has no digest.
#[derive(Clone, Copy, Debug, Error)]
pub(crate) enum Failure {
    /// A call was refused.
    #[error("{0}")]
    Refused(#[from] Fault),
    /// A script ended with this status, which isn't 0.
    #[error("status {0}")]
    Status(u8),
    /// So many words weren't what was due.
    #[error("{words} words unlike what is due")]
    Unequal { words: u64 },
}
