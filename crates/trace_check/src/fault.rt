// Why no trace was read.
ghost use Rattle.std.specs.Prelude.{◌≡◌};
ghost use Rattle.trace_check.specs.declared.fault.TraceFault.TheVariants.{NoMemory};

use std::alloc::{AllocError, AllocFailed};

/// Why no trace was read.
#[derive(Clone, Copy)]
pub enum TraceFault {
    /// The first line that is none of a trace, counted from 1.
    BadLine(u32),
    /// Memory ran out.
    NoMemory,
}

impl From<AllocError> for TraceFault {
    ghost from_gives = { λ _ fault. fault ≡ NoMemory };

    fn from(_: AllocError) -> Self {
        TraceFault::NoMemory
    }
}

impl<T: Drop> From<AllocFailed<T>> for TraceFault {
    ghost from_gives = { λ _ fault. fault ≡ NoMemory };

    fn from(_: AllocFailed<T>) -> Self {
        TraceFault::NoMemory
    }
}
