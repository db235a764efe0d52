// What is asked of a merge.

use conduit_rules::Action;
use pdb_values::PalmDate;

/// What is asked of the merge of one database.
#[derive(Clone, Copy)]
pub struct MergeWishes {
    /// Which side it goes by.
    pub action: Action,
    /// Whether both sides agree that their last session was with each other. Where they don't, base rows that are gone
    /// count: a record of the handheld that an earlier session took away is not taken for a new one.
    pub agree: bool,
    /// The date of the session.
    pub date: PalmDate,
}
