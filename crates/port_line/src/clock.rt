//! The clock of a handheld in memory.

/// Counts the reads of a port between packets, and ticks before some of them.
#[derive(Drop)]
pub(crate) struct Clock {
    reads: u32,
    ticks: Vec<u32>,
}

impl Clock {
    /// A clock that ticks before the reads of these numbers.
    pub(crate) fn new(ticks: Vec<u32>) -> Self {
        Clock { reads: 0, ticks }
    }

    /// Counts a read, if it is one between packets, and answers whether the clock ticks before it.
    pub(crate) fn is_due(&mut self, is_between: bool) -> bool {
        if !is_between {
            return false;
        }
        let is_due = self.ticks.iter().any(|read| *read == self.reads);
        self.reads = self.reads.saturating_add(1);
        is_due
    }
}
