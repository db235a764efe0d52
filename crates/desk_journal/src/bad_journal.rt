// Where bytes are no journal.

/// Bytes are no journal.
#[derive(Clone, Copy)]
pub struct BadJournal {
    /// 0 where the mark or the number of entries is bad, the first byte of the first bad entry, or the first byte behind
    /// the last entry.
    pub place: u64,
}
