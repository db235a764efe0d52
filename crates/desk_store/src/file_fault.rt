// Why a file of a desktop was not read.
ghost use Rattle.std.specs.Prelude.{◌≡◌};
ghost use Rattle.desk_store.specs.declared.file_fault.DeskFileFault.TheVariants.{NoMemory};

use pdb_files::BadKind;
use std::alloc::AllocError;

/// A file breaks a rule of its format, or stands under a name that is not its own.
#[derive(Clone, Copy)]
pub struct BadDeskFile {
    /// The first test that fails.
    pub kind: BadKind,
    /// The place that messages name: a byte, a length or a block.
    pub place: u64,
}

/// Why a file of a desktop was not read.
#[derive(Clone, Copy)]
pub enum DeskFileFault {
    /// The file is bad.
    Bad(BadDeskFile),
    /// Memory ran out.
    NoMemory,
}

impl From<AllocError> for DeskFileFault {
    ghost from_gives = { λ _ fault. fault ≡ NoMemory };

    fn from(_: AllocError) -> Self {
        DeskFileFault::NoMemory
    }
}
