// Records of databases.
ghost use Rattle.std.specs.Prelude.{◌≡◌};
ghost use Rattle.pdb_values.specs.Records.{kind_of};

use crate::content::Content;
use crate::record_id::RecordId;

/// What a record stands for.
#[derive(Clone, Copy, PartialEq, Eq)]
pub enum Kind {
    /// It is there for the user.
    Live,
    /// The user deleted it and wants it kept in an archive.
    Archived,
    /// The user deleted it.
    Deleted,
}

/// One record of a database.
#[derive(Drop)]
pub struct Record {
    /// The number that names it over its life.
    pub id: RecordId,
    /// Attribute 0x80: the user deleted it.
    pub deleted: bool,
    /// Attribute 0x40: it changed since the last HotSync.
    pub dirty: bool,
    /// Attribute 0x20: an application is at work on it.
    pub busy: bool,
    /// Its bytes, with category and secrecy.
    pub content: Content,
}

impl Record {
    /// What the record stands for. A deleted one that still has bytes is an archived one.
    pub fn kind(&self) -> Kind
        ensures { result ≡ kind_of self.now }
    {
        if !self.deleted {
            Kind::Live
        } else if self.content.bytes().is_empty() {
            Kind::Deleted
        } else {
            Kind::Archived
        }
    }
}
