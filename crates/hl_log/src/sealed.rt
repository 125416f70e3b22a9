/// Up to where a log is sealed, and the settle on which that waits.
#[derive(Clone, Copy, Drop)]
pub struct Sealed {
    /// The tail: the address at which a page begins.
    pub address: u64,
    /// The ticket of the settle that was stored. None if all below the address was sealed before.
    pub ticket: Option<u64>,
}
