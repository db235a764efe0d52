// What a session leaves.
use crate::report::DbReport;
use crate::stop::Stop;

/// What a session leaves: its link and the desktop's folder come back however it ended.
#[derive(Drop)]
pub struct Outcome<L, D> {
    /// The link.
    pub link: L,
    /// The desktop's folder.
    pub folder: D,
    /// What was done with each database, in byte order of their names, once both sides ended the session; else why it stopped.
    pub end: Result<Vec<DbReport>, Stop>,
}
