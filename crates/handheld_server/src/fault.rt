// Why a request was not served.
ghost use Rattle.std.specs.Prelude.{◌≡◌};
ghost use Rattle.handheld_server.specs.Faults.{serve_fault};

use handheld_store::StoreFault;

/// Why a request was not served.
#[derive(Clone, Copy)]
pub enum ServeFault {
    /// The folder failed.
    Keeper,
    /// There was no memory.
    NoMemory,
}

impl From<StoreFault> for ServeFault {
    ghost from_gives = { λ refused fault. fault ≡ serve_fault refused };

    // What is refused otherwise is replied and no fault.
    fn from(refused: StoreFault) -> ServeFault {
        match refused {
            StoreFault::KeeperFault => ServeFault::Keeper,
            _ => ServeFault::NoMemory,
        }
    }
}
