//! The kinds of bad files in a folder.

ghost use Rattle.std.specs.Prelude.{◌≡◌};
ghost use Rattle.pdb_files.specs.BadKinds.{word_of};

/// What is wrong with a file of a folder, in the order of the tests on it.
#[derive(Clone, Copy, PartialEq, Eq)]
pub enum BadKind {
    /// A database file that is too short.
    Short,
    /// A database file with a bad name.
    Name,
    /// A database file with a second list of entries.
    Chained,
    /// A database file with a block out of place.
    Offset,
    /// A database file with a block that is too large.
    Large,
    /// A file whose name isn't the one that its header asks for.
    FileName,
    /// A database whose name an earlier one has.
    Twice,
    /// An information file with a bad line.
    Info,
    /// A journal out of its form.
    Journal,
}

impl BadKind {
    /// The word that messages name the kind by.
    pub fn word(self) -> &'static str
        ensures { result.now ≡ word_of self }
    {
        match self {
            BadKind::Short => "short",
            BadKind::Name => "name",
            BadKind::Chained => "chained",
            BadKind::Offset => "offset",
            BadKind::Large => "large",
            BadKind::FileName => "filename",
            BadKind::Twice => "twice",
            BadKind::Info => "info",
            BadKind::Journal => "journal",
        }
    }
}
