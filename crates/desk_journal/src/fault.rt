// Why no journal was read.
ghost use Rattle.std.specs.Prelude.{◌≡◌};
ghost use Rattle.desk_journal.specs.declared.fault.JournalFault.TheVariants.{NoMemory};

use crate::bad_journal::BadJournal;
use std::alloc::{AllocError, AllocFailed};

/// Why no journal was read.
#[derive(Clone, Copy)]
pub enum JournalFault {
    /// The bytes are no journal.
    Bad(BadJournal),
    /// Memory ran out.
    NoMemory,
}

impl From<AllocError> for JournalFault {
    ghost from_gives = { λ _ fault. fault ≡ NoMemory };

    fn from(_: AllocError) -> Self {
        JournalFault::NoMemory
    }
}

impl<T: Drop> From<AllocFailed<T>> for JournalFault {
    ghost from_gives = { λ _ fault. fault ≡ NoMemory };

    fn from(_: AllocFailed<T>) -> Self {
        JournalFault::NoMemory
    }
}
