/// A record: where it lies, and its bytes.
#[derive(Drop)]
pub struct Entry {
    pub address: u64,
    pub bytes: Vec<u8>,
}
