// Why there is no text.
ghost use Rattle.std.specs.Prelude.{◌≡◌};
ghost use Rattle.palm_records.specs.declared.fault.ExportFault.TheVariants.{NoMemory};

use std::alloc::AllocError;

/// Why there is no text.
#[derive(Clone, Copy)]
pub enum ExportFault {
    /// The database is none of the kind that the text is for.
    CannotExport,
    /// An exported record, with this number among all records of the database, is out of its form at this place.
    BadRecord { index: usize, place: usize },
    /// Memory ran out.
    NoMemory,
}

impl From<AllocError> for ExportFault {
    ghost from_gives = { λ _ fault. fault ≡ NoMemory };

    fn from(_: AllocError) -> Self {
        ExportFault::NoMemory
    }
}
