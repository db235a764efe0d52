//! The commands with a session between a handheld's folder and a desktop's, each as one call: a run, which synchronises
//! both sides; a dry run, which does so with copies in memory; categories, which are brought together; and a session between
//! folders that are made in memory.
//!
//! A run judges the line's script, the handheld's folder and the desktop's, in this order, and opens the
//! trace. Then both sides have a whole session over a line that does with each frame what the script says.
#![tactic(auto)]

mod categories;
mod categories_talk;
mod dry_run;
mod make;
mod run;
mod steady;
mod talk;
mod wishes;

pub use categories::file_categories;
pub use dry_run::dry_run_folders;
pub use make::run_made_folders;
pub use run::run_folders;
