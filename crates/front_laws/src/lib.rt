//! Where a handheld stands after a session, and after any beginning of it, as laws over what the session
//! says; what holds of a session that is run again after one that stopped; and what a database keeps over its
//! life, of edits and sessions. There is no code.
#![tactic(auto)]

pub mod laws;
pub mod life_laws;
pub mod meetings;
pub mod part_laws;
pub mod repeat_laws;
