// One database of a session, before it is read.
use conduit_rules::Action;
use pdb_values::{DbHead, DbName};
use session_parts::Skip;

/// One database of a session, as both sides show it before it is read.
#[derive(Drop)]
pub struct Job {
    /// Its name.
    pub name: DbName,
    /// Its head on the handheld, where the handheld has it.
    pub handheld: Option<DbHead>,
    /// Its head on the desktop, where the desktop has rows of it.
    pub rows: Option<DbHead>,
    /// What is done with it; none where nothing is.
    pub action: Option<Action>,
    /// Why it is skipped, if it is.
    pub skip: Option<Skip>,
    /// Whether only what changed is read.
    pub fast: bool,
}
