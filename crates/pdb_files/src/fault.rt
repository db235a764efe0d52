//! Why bytes are no database file.

ghost use Rattle.std.specs.Prelude.{◌≡◌};
ghost use Rattle.pdb_files.specs.BadKinds.{bad_file};
ghost use Rattle.pdb_files.specs.declared.fault.FileFault.TheVariants.{NoMemory};

use crate::bad_kind::BadKind;
use crate::header::NEXT_LIST;
use std::alloc::{AllocError, AllocFailed};
use thiserror::Error;

/// The first rule of the format that bytes break, in the order of the variants, or that there was no memory.
#[derive(Clone, Copy, Debug, Error)]
pub enum FileFault {
    /// The header or the entries pass the end. Here is the length of the bytes.
    #[error("{0} bytes are too few")]
    Short(u64),
    /// The name is empty (place 0), or no zero ends it in its 32 bytes (place 32).
    #[error("the name is bad at place {0}")]
    BadName(u64),
    /// The header names a second list of entries, at place 72.
    #[error("there is a second list of entries")]
    Chained,
    /// A block begins before the end of the entries, before the block in front of it, or after the end of the
    /// file. Here is the number of the first such block, counted from 0.
    #[error("block {0} is out of place")]
    BadOffset(u32),
    /// A block has more than 65,500 bytes. Here is the number of the first such block, counted from 0.
    #[error("block {0} is too large")]
    TooLarge(u32),
    /// There was no memory for the database.
    #[error("out of memory")]
    NoMemory,
}

impl FileFault {
    /// The kind of bad file that this makes, and the place that messages name: a byte, a length or a block. None
    /// where nothing is wrong with the file.
    pub fn bad_file(self) -> Option<(BadKind, u64)>
        ensures { result ≡ bad_file self }
    {
        match self {
            FileFault::Short(length) => Some((BadKind::Short, length)),
            FileFault::BadName(place) => Some((BadKind::Name, place)),
            FileFault::Chained => Some((BadKind::Chained, NEXT_LIST as u64)),
            FileFault::BadOffset(block) => Some((BadKind::Offset, u64::from(block))),
            FileFault::TooLarge(block) => Some((BadKind::Large, u64::from(block))),
            FileFault::NoMemory => None,
        }
    }
}

impl From<AllocError> for FileFault {
    ghost from_gives = { λ _ fault. fault ≡ NoMemory };

    fn from(_refused: AllocError) -> FileFault {
        FileFault::NoMemory
    }
}

impl<T: Drop> From<AllocFailed<T>> for FileFault {
    ghost from_gives = { λ _ fault. fault ≡ NoMemory };

    fn from(_refused: AllocFailed<T>) -> FileFault {
        FileFault::NoMemory
    }
}
