// Why an information file of a desktop was not read.
ghost use Rattle.std.specs.Prelude.{◌≡◌};
ghost use Rattle.folder_files.specs.declared.fault.LineFault.TheVariants.{Left, OutOfMemory};

use crate::bad_line::BadLine;
use crate::unread::Unread;
use std::alloc::{AllocError, AllocFailed};

/// Why an information file of a desktop was not read.
#[derive(Clone, Copy)]
pub enum InfoFault {
    /// The bytes are no information file.
    Bad(BadLine),
    /// Memory ran out.
    NoMemory,
}

// Why lines were not read.
#[derive(Clone, Copy)]
pub(crate) enum LineFault {
    Left(Unread),
    OutOfMemory,
}

impl From<Unread> for LineFault {
    ghost from_gives = { λ unread fault. fault ≡ Left unread };

    fn from(unread: Unread) -> Self {
        LineFault::Left(unread)
    }
}

impl From<AllocError> for LineFault {
    ghost from_gives = { λ _ fault. fault ≡ OutOfMemory };

    fn from(_: AllocError) -> Self {
        LineFault::OutOfMemory
    }
}

impl<T: Drop> From<AllocFailed<T>> for LineFault {
    ghost from_gives = { λ _ fault. fault ≡ OutOfMemory };

    fn from(_: AllocFailed<T>) -> Self {
        LineFault::OutOfMemory
    }
}
