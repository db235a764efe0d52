// Why a database was not merged.
ghost use Rattle.std.specs.Prelude.{◌≡◌};
ghost use Rattle.database_merge.specs.declared.fault.MergeFault.TheVariants as merge;
ghost use Rattle.database_merge.specs.declared.fault.WriteFault.TheVariants as write;

use session_parts::Skip;
use std::alloc::{AllocError, AllocFailed};

/// Why a database was not merged. Nothing of it changes on either side.
#[derive(Clone, Copy, PartialEq, Eq)]
pub enum MergeFault {
    /// A session skips it.
    Skipped(Skip),
    /// A side would pass a limit: more than 65,535 records on the handheld, rows, base rows or entries of the archive.
    Full,
    /// There was no memory.
    NoMemory,
}

impl From<AllocError> for MergeFault {
    ghost from_gives = { λ _ fault. fault ≡ merge.NoMemory };

    fn from(_refused: AllocError) -> MergeFault {
        MergeFault::NoMemory
    }
}

/// Why a plan was not carried out.
#[derive(Clone, Copy)]
pub(crate) enum WriteFault {
    /// The handheld would have more than 65,535 records.
    Full,
    /// There was no memory.
    NoMemory,
}

impl From<AllocError> for WriteFault {
    ghost from_gives = { λ _ fault. fault ≡ write.NoMemory };

    fn from(_refused: AllocError) -> WriteFault {
        WriteFault::NoMemory
    }
}

impl<T: Drop> From<AllocFailed<T>> for WriteFault {
    ghost from_gives = { λ _ fault. fault ≡ write.NoMemory };

    fn from(_refused: AllocFailed<T>) -> WriteFault {
        WriteFault::NoMemory
    }
}
