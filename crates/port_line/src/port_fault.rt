//! What a port refuses.
ghost use Rattle.std.specs.Prelude.{◌≡◌};
ghost use Rattle.port_line.specs.declared.port_fault.PortFault.TheVariants.{NoMemory};

use std::alloc::{AllocError, AllocFailed};

/// Why a port did not do what it was asked.
#[derive(Clone, Copy, Debug)]
pub enum PortFault {
    /// The port failed, and counted the fault.
    Failed,
    /// Memory was refused.
    NoMemory,
}

impl From<AllocError> for PortFault {
    ghost from_gives = { λ _ fault. fault ≡ NoMemory };

    fn from(_: AllocError) -> Self {
        PortFault::NoMemory
    }
}

impl<T: Drop> From<AllocFailed<T>> for PortFault {
    ghost from_gives = { λ _ fault. fault ≡ NoMemory };

    fn from(_: AllocFailed<T>) -> Self {
        PortFault::NoMemory
    }
}
