// What is planned for one database.
use pdb_values::{Content, RecordId};

/// What a synchronisation does with one database. All lists but `adds` are in rising ids.
#[derive(Drop)]
pub struct Plan {
    /// The rows that both sides have under ids that are known.
    pub kept: Vec<(RecordId, Content)>,
    /// Those of them that are written over the handheld's record or put in its place.
    pub replace: Vec<(RecordId, Content)>,
    /// What goes into the archive. Rows without an id that counts come first, under id 0; of two contents under
    /// one id the handheld's comes first.
    pub archive: Vec<(RecordId, Content)>,
    /// The handheld's records that are not kept, which the base remembers until the handheld has lost them.
    pub gone: Vec<(RecordId, Content)>,
    /// The contents that the handheld gets as new records, in the desktop's order.
    pub adds: Vec<Content>,
    /// The live records of the handheld that are not kept.
    pub purge: Vec<RecordId>,
    /// How many records both sides changed, each its own way, so that both contents stay.
    pub twice: usize,
}
