// Why a handheld's folder was not opened.
ghost use Rattle.std.specs.Prelude.{◌≡◌};
ghost use Rattle.handheld_files.specs.Openings.{open_fault};
ghost use Rattle.handheld_files.specs.declared.fault.OpenFault.TheVariants.{NoMemory};

use hs_folders::FolderFault;
use pdb_files::BadKind;
use std::alloc::{AllocError, AllocFailed};

/// Why a handheld's folder was not opened.
#[derive(Drop)]
pub enum OpenFault {
    /// The folder failed.
    Keeper,
    /// It has files of more than 200 databases.
    TooMany,
    /// Its first bad file in byte order of file names, what is wrong with it, and where.
    BadFile {
        /// The name of the file.
        name: String,
        /// What is wrong with it.
        kind: BadKind,
        /// A byte, a length or the number of a block.
        place: u64,
    },
    /// There was no memory.
    NoMemory,
}

impl From<FolderFault> for OpenFault {
    ghost from_gives = { λ refused fault. fault ≡ open_fault refused };

    fn from(refused: FolderFault) -> OpenFault {
        match refused {
            FolderFault::Failed => OpenFault::Keeper,
            FolderFault::Missing => OpenFault::NoMemory,
            FolderFault::NoMemory => OpenFault::NoMemory,
        }
    }
}

impl From<AllocError> for OpenFault {
    ghost from_gives = { λ _ fault. fault ≡ NoMemory };

    fn from(_refused: AllocError) -> OpenFault {
        OpenFault::NoMemory
    }
}

impl<T: Drop> From<AllocFailed<T>> for OpenFault {
    ghost from_gives = { λ _ fault. fault ≡ NoMemory };

    fn from(_refused: AllocFailed<T>) -> OpenFault {
        OpenFault::NoMemory
    }
}
