// Why a database is not filed like another one.
ghost use Rattle.std.specs.Prelude.{◌≡◌};
ghost use Rattle.category_tables.specs.declared.like_fault.LikeFault.TheVariants as like_fault;

use std::alloc::{AllocError, AllocFailed};

/// Why a database doesn't get the categories of another file.
#[derive(Clone, Copy)]
pub enum LikeFault {
    /// One of both app blocks begins with no table of categories.
    BadTable,
    /// A label finds no number, since none is free.
    TooMany,
    /// Memory ran out.
    NoMemory,
}

impl From<AllocError> for LikeFault {
    ghost from_gives = { λ _ fault. fault ≡ like_fault.NoMemory };

    fn from(_: AllocError) -> Self {
        LikeFault::NoMemory
    }
}

impl<T: Drop> From<AllocFailed<T>> for LikeFault {
    ghost from_gives = { λ _ fault. fault ≡ like_fault.NoMemory };

    fn from(_: AllocFailed<T>) -> Self {
        LikeFault::NoMemory
    }
}
