// An entry of a journal.

/// A file that a change replaces, and its new bytes.
#[derive(Drop)]
pub struct Entry {
    /// The name of a file that a desktop keeps, at most 255 bytes.
    pub name: String,
    /// All of its bytes, fewer than 2^32.
    pub bytes: Vec<u8>,
}
