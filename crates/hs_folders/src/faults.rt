// What the outside refuses.
ghost use Rattle.std.specs.Prelude.{◌≡◌};
ghost use Rattle.hs_folders.specs.declared.faults.FolderFault.TheVariants.{NoMemory};
ghost use Rattle.hs_folders.specs.declared.faults.FolderOpenFault.TheVariants.{NoMemory as OpenNoMemory};
ghost use Rattle.hs_folders.specs.declared.faults.SinkFault.TheVariants.{NoMemory as SinkNoMemory};
ghost use Rattle.hs_folders.specs.declared.faults.SourceFault.TheVariants.{NoMemory as SourceNoMemory};

use std::alloc::{AllocError, AllocFailed};

/// Why a folder did not do what it was asked.
#[derive(Clone, Copy)]
pub enum FolderFault {
    /// The folder failed, and counted the fault.
    Failed,
    /// There is no file of this name.
    Missing,
    /// Memory was refused.
    NoMemory,
}

/// Why a folder was not opened.
#[derive(Clone, Copy)]
pub enum FolderOpenFault {
    /// Somebody else has the folder open. This is counted as a fault.
    InUse,
    /// The folder failed, and counted the fault.
    Failed,
    /// Memory was refused.
    NoMemory,
}

/// Why a source gave no bytes.
#[derive(Clone, Copy)]
pub enum SourceFault {
    /// The source failed, and counted the fault.
    Failed,
    /// Memory was refused.
    NoMemory,
}

/// Why a sink did not take all bytes.
#[derive(Clone, Copy)]
pub enum SinkFault {
    /// The sink failed, and counted the fault.
    Failed,
    /// Memory was refused.
    NoMemory,
}

impl From<AllocError> for FolderFault {
    ghost from_gives = { λ _ fault. fault ≡ NoMemory };

    fn from(_: AllocError) -> Self {
        FolderFault::NoMemory
    }
}

impl<T: Drop> From<AllocFailed<T>> for FolderFault {
    ghost from_gives = { λ _ fault. fault ≡ NoMemory };

    fn from(_: AllocFailed<T>) -> Self {
        FolderFault::NoMemory
    }
}

impl From<AllocError> for FolderOpenFault {
    ghost from_gives = { λ _ fault. fault ≡ OpenNoMemory };

    fn from(_: AllocError) -> Self {
        FolderOpenFault::NoMemory
    }
}

impl<T: Drop> From<AllocFailed<T>> for FolderOpenFault {
    ghost from_gives = { λ _ fault. fault ≡ OpenNoMemory };

    fn from(_: AllocFailed<T>) -> Self {
        FolderOpenFault::NoMemory
    }
}

impl From<AllocError> for SourceFault {
    ghost from_gives = { λ _ fault. fault ≡ SourceNoMemory };

    fn from(_: AllocError) -> Self {
        SourceFault::NoMemory
    }
}

impl<T: Drop> From<AllocFailed<T>> for SourceFault {
    ghost from_gives = { λ _ fault. fault ≡ SourceNoMemory };

    fn from(_: AllocFailed<T>) -> Self {
        SourceFault::NoMemory
    }
}

impl From<AllocError> for SinkFault {
    ghost from_gives = { λ _ fault. fault ≡ SinkNoMemory };

    fn from(_: AllocError) -> Self {
        SinkFault::NoMemory
    }
}

impl<T: Drop> From<AllocFailed<T>> for SinkFault {
    ghost from_gives = { λ _ fault. fault ≡ SinkNoMemory };

    fn from(_: AllocFailed<T>) -> Self {
        SinkFault::NoMemory
    }
}
