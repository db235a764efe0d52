// What may be wrong with a text.
ghost use Rattle.std.specs.Prelude.{◌≡◌};
ghost use Rattle.memo_texts.specs.Faults.{fault_at};
ghost use Rattle.memo_texts.specs.declared.fault.ImportFault.TheVariants as import_fault;
ghost use Rattle.memo_texts.specs.declared.fault.LineFault.TheVariants as line_fault;

use std::alloc::{AllocError, AllocFailed};

/// Why a text gives no database.
#[derive(Clone, Copy)]
pub enum ImportFault {
    /// The line with this number, from 1, is the first that is out of its form, and this is its first flaw.
    BadText(usize, LineFlaw),
    /// The memos have more than 15 labels.
    TooManyCategories,
    /// There are more than 65,535 memos.
    TooManyRecords,
    /// Memory ran out.
    NoMemory,
}

impl From<AllocError> for ImportFault {
    ghost from_gives = { λ _ fault. fault ≡ import_fault.NoMemory };

    fn from(_: AllocError) -> Self {
        ImportFault::NoMemory
    }
}

impl<T: Drop> From<AllocFailed<T>> for ImportFault {
    ghost from_gives = { λ _ fault. fault ≡ import_fault.NoMemory };

    fn from(_: AllocFailed<T>) -> Self {
        ImportFault::NoMemory
    }
}

/// What is wrong with a line.
#[derive(Clone, Copy)]
pub enum Flaw {
    /// Its bytes are not UTF-8.
    NotUtf8,
    /// A Palm has no byte for this character.
    NoByte(char),
    /// It begins as a head line, and goes on as none.
    BadHead,
    /// The label of the head has more than 15 bytes.
    LongLabel,
    /// No head line stands above it.
    NoHead,
    /// With it the memo has more than 65,499 bytes.
    LongMemo,
}

/// What is wrong with a line, and the first of its characters, from 1, at which it is.
#[derive(Clone, Copy)]
pub struct LineFlaw {
    pub column: usize,
    pub flaw: Flaw,
}

/// Why a line isn't read.
#[derive(Clone, Copy)]
pub enum LineFault {
    /// It is out of its form.
    BadForm(LineFlaw),
    /// Memory ran out.
    NoMemory,
}

impl From<AllocError> for LineFault {
    ghost from_gives = { λ _ fault. fault ≡ line_fault.NoMemory };

    fn from(_: AllocError) -> Self {
        LineFault::NoMemory
    }
}

impl<T: Drop> From<AllocFailed<T>> for LineFault {
    ghost from_gives = { λ _ fault. fault ≡ line_fault.NoMemory };

    fn from(_: AllocFailed<T>) -> Self {
        LineFault::NoMemory
    }
}

impl LineFault {
    /// The fault of a text whose line with this number has this one.
    pub fn at(self, line: usize) -> ImportFault
        ensures { result ≡ fault_at self line }
    {
        match self {
            LineFault::BadForm(flaw) => ImportFault::BadText(line, flaw),
            LineFault::NoMemory => ImportFault::NoMemory,
        }
    }
}
