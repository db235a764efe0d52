// Which records are exported.
ghost use Rattle.std.specs.Prelude.{◌≡◌};
ghost use Rattle.palm_records.specs.Choices as choices;

use pdb_values::Record;

/// Which records are exported.
#[derive(Clone, Copy)]
pub enum Privacy {
    /// All that the user has not deleted. Private ones are marked.
    All,
    /// Those of them that are not private.
    WithoutPrivate,
}

/// What becomes of a record that is out of its form.
#[derive(Clone, Copy)]
pub enum BrokenRecords {
    /// There is no text.
    Refused,
    /// It stands in the text with its bytes.
    Kept,
}

/// Whether a record is exported.
pub fn is_exported(privacy: Privacy, item: &Record) -> bool
    ensures { result ≡ choices.is_exported privacy item.now }
{
    match privacy {
        Privacy::All => !item.deleted,
        Privacy::WithoutPrivate => !item.deleted && !item.content.secret(),
    }
}
