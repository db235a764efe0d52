// What is told of each database of a session.
use pdb_values::DbName;
use session_parts::Stop;

/// What was done with one database.
#[derive(Drop)]
pub struct Moved {
    /// Its name.
    pub name: DbName,
    /// How many entries were written or read. Nothing is told of a read-only database of a file, which was passed over.
    pub entries: Option<u32>,
}

/// What a session leaves: its link and the folder come back however it ended.
#[derive(Drop)]
pub struct MoveOutcome<L, D> {
    /// The link.
    pub link: L,
    /// The folder.
    pub folder: D,
    /// What was done with each database, in order, once both sides ended the session; else why it stopped.
    pub end: Result<Vec<Moved>, Stop>,
}
