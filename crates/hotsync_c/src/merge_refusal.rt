//! Why a database was not merged.

ghost use Rattle.std.specs.Prelude.{◌≡◌, pos};
ghost use Rattle.database_merge.specs.declared.fault.MergeFault.TheVariants as faults;
ghost use Rattle.hotsync_c.specs.Merges.{fault_answer, merge_answer, skip_number};
ghost use Rattle.hotsync_c.specs.declared.merge_refusal.MergeRefusal.TheVariants.{Fault};

use database_merge::MergeFault;
use session_parts::Skip;
use std::alloc::{AllocError, AllocFailed};

/// Why a database was not merged.
#[derive(Clone, Copy)]
pub enum MergeRefusal {
    /// The bytes are not the files of one database, or nothing of that kind is asked.
    Form,
    /// A session leaves it as it is, or memory was refused.
    Fault(MergeFault),
}

impl MergeRefusal {
    /// The number that C gets.
    pub fn answer(self) -> i64
        ensures { result ≡ merge_answer self }
    {
        match self {
            MergeRefusal::Form => -2,
            MergeRefusal::Fault(fault) => fault_answer(fault),
        }
    }
}

// The number that C gets for a merge that was refused.
fn fault_answer(fault: MergeFault) -> i64
    ensures { result ≡ fault_answer fault }
{
    match fault {
        MergeFault::Skipped(skip) => -5 - skip_number(skip),
        MergeFault::Full => -4,
        MergeFault::NoMemory => -1,
    }
}

// A number for each reason to skip a database.
fn skip_number(skip: Skip) -> i64
    ensures { result ≡ pos (skip_number skip) }
{
    match skip {
        Skip::Resource => 0,
        Skip::ReadOnly => 1,
        Skip::Stream => 2,
        Skip::Differs => 3,
        Skip::Missing => 4,
        Skip::Nothing => 5,
        Skip::Blocks => 6,
    }
}

impl From<AllocError> for MergeRefusal {
    ghost from_gives = { λ _ refusal. refusal ≡ Fault faults.NoMemory };

    fn from(_: AllocError) -> MergeRefusal {
        MergeRefusal::Fault(MergeFault::NoMemory)
    }
}

impl<T: Drop> From<AllocFailed<T>> for MergeRefusal {
    ghost from_gives = { λ _ refusal. refusal ≡ Fault faults.NoMemory };

    fn from(_: AllocFailed<T>) -> MergeRefusal {
        MergeRefusal::Fault(MergeFault::NoMemory)
    }
}
