//! Why a call answers with no result.

ghost use Rattle.std.specs.Prelude.{◌≡◌};
ghost use Rattle.hotsync_c.specs.Answers.{answer_of, refusal_of};
ghost use Rattle.hotsync_c.specs.declared.refusal.Refusal.TheVariants.{Memory};

use pdb_files::FileFault;
use std::alloc::AllocError;

/// Why there is no result.
#[derive(Clone, Copy)]
pub enum Refusal {
    /// Memory was refused.
    Memory,
    /// The bytes aren't of the form that the call reads.
    Form,
    /// They have a first line that is none of the form, counted from 1.
    BadLine(u32),
    /// There is no such part of them.
    Absent,
    /// The database holds nothing of the form.
    Nothing,
    /// The record of this index is out of its form, at this place in it.
    BadRecord { index: u64, place: u64 },
    /// The text has more than 15 labels.
    Labels,
    /// The text has more than 65,535 memos.
    Memos,
}

impl Refusal {
    /// The number that C gets.
    pub fn answer(self) -> i64
        ensures { result ≡ answer_of self }
    {
        match self {
            Refusal::Memory => -1,
            Refusal::Form => -2,
            Refusal::BadLine(line) => -100 - i64::from(line),
            Refusal::Absent => -3,
            Refusal::Nothing => -11,
            Refusal::BadRecord { index: _, place: _ } => -12,
            Refusal::Labels => -13,
            Refusal::Memos => -14,
        }
    }

    /// The refusal of a file.
    pub fn of(fault: FileFault) -> Refusal
        ensures { result ≡ refusal_of fault }
    {
        match fault {
            FileFault::NoMemory => Refusal::Memory,
            FileFault::Short(_)
            | FileFault::BadName(_)
            | FileFault::Chained
            | FileFault::BadOffset(_)
            | FileFault::TooLarge(_) => Refusal::Form,
        }
    }
}

impl From<AllocError> for Refusal {
    ghost from_gives = { λ _ refusal. refusal ≡ Memory };

    fn from(_: AllocError) -> Refusal {
        Refusal::Memory
    }
}
