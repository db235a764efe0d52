//! What a session of both sides leaves of one database, as a function of what both sides hold of it: the handheld's
//! database, and the desktop's rows, base rows and archive. There is no link and no folder. All of the handheld's
//! records are looked at, as a session does that reads slowly.
//!
//! What is chosen is that of `conduit_rules` and `record_merge`; the handheld's records are written as a session
//! writes them, and its new records get ids as the handheld of `handheld_store` draws them. What a desktop takes is
//! made by the calls of `session_plan`.
//!
//! ```text
//! let after = merge_database(alloc, both, &wishes)?;
//! ```
#![tactic(auto)]

mod both_sides;
mod fault;
mod finishing;
mod free_id;
pub mod laws;
mod merging;
mod places;
mod planning;
mod seeing;
mod wishes;
mod writing;

pub use both_sides::BothSides;
pub use fault::MergeFault;
pub use merging::merge_database;
pub use wishes::MergeWishes;
