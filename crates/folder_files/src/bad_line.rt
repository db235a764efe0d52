// Where bytes are no information file.

/// Bytes are no information file: a line is not in its form, or is missing, or is one too many.
#[derive(Clone, Copy)]
pub struct BadLine {
    /// The place of the first byte of the first such line, or the end of the bytes where it is missing.
    pub place: u64,
}
