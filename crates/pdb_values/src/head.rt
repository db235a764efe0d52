// Heads of databases.
ghost use Rattle.std.specs.Prelude.{◌≡◌};
ghost use Rattle.pdb_values.specs.Heads.{holds_resources, is_read_only, is_stream};

use crate::date::PalmDate;
use crate::four_cc::FourCc;
use crate::name::DbName;

/// What the header of a database says, without its blocks and entries.
#[derive(Drop)]
pub struct DbHead {
    /// The name, which no other database of a handheld has.
    pub name: DbName,
    /// The attribute bits.
    pub attributes: u16,
    /// The version of the application's own format.
    pub version: u16,
    /// When it was made.
    pub created: PalmDate,
    /// When it was changed last.
    pub modified: PalmDate,
    /// When it was backed up last.
    pub backup: PalmDate,
    /// The modification number, which counts changes.
    pub modnum: u32,
    /// The seed of record ids.
    pub seed: u32,
    /// The type.
    pub kind: FourCc,
    /// The application that it belongs to.
    pub creator: FourCc,
}

impl DbHead {
    /// The attribute of a database that holds resources.
    pub const RESOURCES: u16 = 0x0001;

    /// The attribute of a database that is not to be changed.
    pub const READ_ONLY: u16 = 0x0002;

    /// The attribute of a database that is a stream of bytes.
    pub const STREAM: u16 = 0x0080;

    /// Whether the database holds resources, and not records.
    pub fn holds_resources(&self) -> bool
        ensures { result ≡ holds_resources self.now.attributes }
    {
        self.attributes & Self::RESOURCES == Self::RESOURCES
    }

    /// Whether the database is not to be changed.
    pub fn is_read_only(&self) -> bool
        ensures { result ≡ is_read_only self.now.attributes }
    {
        self.attributes & Self::READ_ONLY != 0
    }

    /// Whether the database is a stream of bytes.
    pub fn is_stream(&self) -> bool
        ensures { result ≡ is_stream self.now.attributes }
    {
        self.attributes & Self::STREAM != 0
    }

    /// The same head once more. It takes no memory.
    pub fn copy(&self) -> DbHead
        ensures { result ≡ self.now }
    {
        DbHead {
            name: self.name.copy(),
            attributes: self.attributes,
            version: self.version,
            created: self.created,
            modified: self.modified,
            backup: self.backup,
            modnum: self.modnum,
            seed: self.seed,
            kind: self.kind,
            creator: self.creator,
        }
    }
}
