// One database of a session, once it is read.
use crate::job::Job;
use conduit_rules::{Plan, View};

/// One database of a session, as it was read, and what is planned for it.
#[derive(Drop)]
pub struct Planned {
    /// The database, as both sides showed it before.
    pub job: Job,
    /// What was seen of its records.
    pub view: View,
    /// What is done with it.
    pub plan: Plan,
}
