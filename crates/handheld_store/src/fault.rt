// Why a call on a store was not done.
ghost use Rattle.std.specs.Prelude.{◌≡◌};
ghost use Rattle.handheld_store.specs.Refusals.{store_fault};
ghost use Rattle.handheld_store.specs.declared.fault.StoreFault.TheVariants.{NoMemory};

use hs_folders::FolderFault;
use std::alloc::{AllocError, AllocFailed};

/// Why a call on a store was not done.
#[derive(Clone, Copy)]
pub enum StoreFault {
    /// No database has the name.
    NotFound,
    /// A database has the name already.
    Exists,
    /// The database may only be read.
    ReadOnly,
    /// There are as many databases or entries as there can be.
    Limit,
    /// The folder failed.
    KeeperFault,
    /// There was no memory.
    NoMemory,
}

impl From<FolderFault> for StoreFault {
    ghost from_gives = { λ refused fault. fault ≡ store_fault refused };

    fn from(refused: FolderFault) -> StoreFault {
        match refused {
            FolderFault::Failed => StoreFault::KeeperFault,
            FolderFault::Missing => StoreFault::NoMemory,
            FolderFault::NoMemory => StoreFault::NoMemory,
        }
    }
}

impl From<AllocError> for StoreFault {
    ghost from_gives = { λ _ fault. fault ≡ NoMemory };

    fn from(_refused: AllocError) -> StoreFault {
        StoreFault::NoMemory
    }
}

impl<T: Drop> From<AllocFailed<T>> for StoreFault {
    ghost from_gives = { λ _ fault. fault ≡ NoMemory };

    fn from(_refused: AllocFailed<T>) -> StoreFault {
        StoreFault::NoMemory
    }
}
