// Why no script was read.
ghost use Rattle.std.specs.Prelude.{◌≡◌};
ghost use Rattle.line_script.specs.declared.fault.ScriptFault.TheVariants.{NoMemory};

use std::alloc::AllocFailed;

/// Why no script was read.
#[derive(Clone, Copy)]
pub enum ScriptFault {
    /// There are more than 100,000 lines.
    TooLong,
    /// The first line out of the form, counted from 1.
    BadLine(u32),
    /// Memory ran out.
    NoMemory,
}

impl<T: Drop> From<AllocFailed<T>> for ScriptFault {
    ghost from_gives = { λ _ fault. fault ≡ NoMemory };

    fn from(_: AllocFailed<T>) -> Self {
        ScriptFault::NoMemory
    }
}
