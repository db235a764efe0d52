//! Why nothing is made of bytes.
ghost use Rattle.std.specs.Prelude.{◌≡◌};
ghost use Rattle.device_state.specs.Refusals.{of_list, of_parts};
ghost use Rattle.device_state.specs.declared.fault.StateFault.TheVariants.{NoMemory};

use crate::files::ListFault;
use padp_end::PartsFault;
use std::alloc::AllocError;

/// Why nothing is made of bytes.
#[derive(Clone, Copy, Debug)]
pub enum StateFault {
    /// They are out of the form that is read.
    Form,
    /// They hold files that no handheld has: more than 200 databases, or a bad one.
    BadFiles,
    /// There was no memory.
    NoMemory,
}

impl From<AllocError> for StateFault {
    ghost from_gives = { λ _ fault. fault ≡ NoMemory };

    fn from(_: AllocError) -> StateFault {
        StateFault::NoMemory
    }
}

impl From<PartsFault> for StateFault {
    ghost from_gives = { λ parts fault. fault ≡ of_parts parts };

    fn from(fault: PartsFault) -> StateFault {
        match fault {
            PartsFault::Form => StateFault::Form,
            PartsFault::NoMemory => StateFault::NoMemory,
        }
    }
}

impl From<ListFault> for StateFault {
    ghost from_gives = { λ list fault. fault ≡ of_list list };

    fn from(fault: ListFault) -> StateFault {
        match fault {
            ListFault::Form => StateFault::Form,
            ListFault::NoMemory => StateFault::NoMemory,
        }
    }
}
