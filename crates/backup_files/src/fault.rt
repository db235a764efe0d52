// Why the databases of a folder of backups were not read.
ghost use Rattle.std.specs.Prelude.{◌≡◌};
ghost use Rattle.backup_files.specs.BackupFolders.{backup_fault};
ghost use Rattle.backup_files.specs.declared.fault.BackupFault.TheVariants.{NoMemory};

use hs_folders::FolderFault;
use pdb_files::BadKind;
use std::alloc::{AllocError, AllocFailed};

/// Why the databases of a folder of backups were not read.
#[derive(Drop)]
pub enum BackupFault {
    /// The folder failed.
    Failed,
    /// It has more than 200 files of databases.
    TooMany,
    /// The bytes of a file of this name break a rule of the format: what is wrong, and where.
    BadFile {
        /// The name of the file.
        name: String,
        /// What is wrong with it.
        kind: BadKind,
        /// A byte, a length or the number of a block.
        place: u64,
    },
    /// The files of these names, in their byte order, hold databases of one name.
    SameDatabase {
        /// The one in front.
        first: String,
        /// The one behind it.
        second: String,
    },
    /// There was no memory.
    NoMemory,
}

impl From<FolderFault> for BackupFault {
    ghost from_gives = { λ refused fault. fault ≡ backup_fault refused };

    fn from(refused: FolderFault) -> BackupFault {
        match refused {
            FolderFault::Failed => BackupFault::Failed,
            FolderFault::Missing => BackupFault::NoMemory,
            FolderFault::NoMemory => BackupFault::NoMemory,
        }
    }
}

impl From<AllocError> for BackupFault {
    ghost from_gives = { λ _ fault. fault ≡ NoMemory };

    fn from(_refused: AllocError) -> BackupFault {
        BackupFault::NoMemory
    }
}

impl<T: Drop> From<AllocFailed<T>> for BackupFault {
    ghost from_gives = { λ _ fault. fault ≡ NoMemory };

    fn from(_refused: AllocFailed<T>) -> BackupFault {
        BackupFault::NoMemory
    }
}
