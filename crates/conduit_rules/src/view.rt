// What a reading of a handheld's database shows.
use pdb_values::{Content, RecordId};

/// What an entry of a view says of its record.
#[derive(Clone, Copy)]
pub enum SeenState {
    /// It is there, and was read.
    Live,
    /// It is deleted and wants to be archived.
    Archived,
    /// It is deleted, as if it were not there.
    Deleted,
    /// It wasn't read: the handheld says that it is as the last synchronisation left it.
    Unread,
}

/// One record of the handheld as it was read.
#[derive(Drop)]
pub struct Seen {
    /// Its id.
    pub id: RecordId,
    /// What it is to the handheld.
    pub state: SeenState,
    /// Its content; that of its base row where it wasn't read.
    pub content: Content,
}

/// A handheld's database as it was read, in rising ids. Of entries with one id the first counts, and an id that
/// no entry bears is an id that no record has.
#[derive(Drop)]
pub struct View {
    /// Its records.
    pub seen: Vec<Seen>,
}
