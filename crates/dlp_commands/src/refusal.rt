// Why a request is refused.
ghost use Rattle.std.specs.Prelude.{◌≡◌, ◌<◌};
ghost use Rattle.dlp_commands.specs.Refusals.{code_of};

use dlp_replies::ErrorCode;

/// Why a request is refused.
#[derive(Clone, Copy)]
pub enum Refusal {
    /// A value that is none: another card, a bad name, date or category, an offset past the end.
    Parameter,
    /// No such database, record, resource or block.
    NotFound,
    /// Nothing is open under the handle.
    NoneOpen,
    /// The database is open.
    AlreadyOpen,
    /// Eight databases are open.
    TooManyOpen,
    /// A database of this name is there.
    Exists,
    /// A function of records on resources, or of resources on records.
    NotSupported,
    /// The database can't be written.
    ReadOnly,
    /// No room for a further database or entry.
    Limit,
}

impl Refusal {
    /// The error that is replied.
    pub fn code(self) -> ErrorCode
        ensures code { result.0 ≡ code_of self }
        ensures some { 0 < result.0 }
    {
        ErrorCode(match self {
            Refusal::Parameter => 4,
            Refusal::NotFound => 5,
            Refusal::NoneOpen => 6,
            Refusal::AlreadyOpen => 7,
            Refusal::TooManyOpen => 8,
            Refusal::Exists => 9,
            Refusal::NotSupported => 13,
            Refusal::ReadOnly => 15,
            Refusal::Limit => 17,
        })
    }
}
