//! A session that brings the categories of both sides together, over any link: the tables at the head of the app blocks are merged, the
//! handheld gets each merged table, and then the desktop's rows get their numbers in it, all at once (Palm File Format Specification;
//! pilot-link's `pi-appinfo.h`).
#![tactic(auto)]

mod blocks;
mod changing;
mod committing;
mod filing;
mod job;
mod laws;
mod merge;
mod refiling;
mod session;
mod telling;

pub use filing::{file_all, file_one};
pub use job::{FilingJob, filing_jobs};
pub use laws::{
    a_second_session_changes_nothing, a_session_behind_another_changes_nothing,
    a_stopped_session_is_made_up_for, a_swap_is_undone, blocks_are_written_in_turn, filings_arrive,
    no_record_counts_as_edited, sessions_that_stopped_are_made_up_for, what_does_not_change_stays,
    what_moved_is_read_whole,
};
pub use merge::Merge;
pub use refiling::{is_refiled, refiled, refiled_base};
pub use session::file_session;
