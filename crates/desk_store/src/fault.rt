// Why a folder was not opened, or a change not carried out.
ghost use Rattle.std.specs.Prelude.{◌≡◌};
ghost use Rattle.desk_store.specs.declared.fault.CommitFault.TheVariants as commit_faults;
ghost use Rattle.desk_store.specs.declared.fault.DeskOpenFault.TheVariants.{NoMemory};
ghost use Rattle.desk_store.specs.Faults.{commit_fault_of, open_fault_of};

use hs_folders::FolderFault;
use pdb_files::BadKind;
use std::alloc::{AllocError, AllocFailed};

/// Why a folder was not opened as a desktop.
#[derive(Drop)]
pub enum DeskOpenFault {
    /// The folder failed.
    DeskFault,
    /// It has more than 200 files of rows.
    TooMany,
    /// A file is bad.
    BadFile {
        /// The name of the first bad file in byte order.
        name: String,
        /// The first test that it fails.
        kind: BadKind,
        /// The place that messages name: a byte, a length or a block.
        place: u64,
    },
    /// Memory ran out.
    NoMemory,
}

impl From<AllocError> for DeskOpenFault {
    ghost from_gives = { λ _ fault. fault ≡ NoMemory };

    fn from(_: AllocError) -> Self {
        DeskOpenFault::NoMemory
    }
}

impl<T: Drop> From<AllocFailed<T>> for DeskOpenFault {
    ghost from_gives = { λ _ fault. fault ≡ NoMemory };

    fn from(_: AllocFailed<T>) -> Self {
        DeskOpenFault::NoMemory
    }
}

/// Why a change was not carried out, or not to its end.
#[derive(Clone, Copy)]
pub enum CommitFault {
    /// The folder failed.
    DeskFault,
    /// Memory ran out.
    NoMemory,
}

impl From<AllocError> for CommitFault {
    ghost from_gives = { λ _ fault. fault ≡ commit_faults.NoMemory };

    fn from(_: AllocError) -> Self {
        CommitFault::NoMemory
    }
}

impl From<FolderFault> for DeskOpenFault {
    ghost from_gives = { λ fault made. made ≡ open_fault_of fault };

    fn from(fault: FolderFault) -> Self {
        match fault {
            FolderFault::Failed => DeskOpenFault::DeskFault,
            FolderFault::Missing | FolderFault::NoMemory => DeskOpenFault::NoMemory,
        }
    }
}

impl From<FolderFault> for CommitFault {
    ghost from_gives = { λ fault made. made ≡ commit_fault_of fault };

    fn from(fault: FolderFault) -> Self {
        match fault {
            FolderFault::Failed => CommitFault::DeskFault,
            FolderFault::Missing | FolderFault::NoMemory => CommitFault::NoMemory,
        }
    }
}
