//! A synchronisation as one call: the words of a command line, a handheld's folder, a desktop's
//! folder and the streams beside them go in; the status, a report and both folders come out.
//!
//! The words say which command it is. What `cmd_session` has brings a handheld's folder and a desktop's together; what
//! `cmd_files` has moves databases between a handheld and files, or is a handheld alone; what `hotsync_looks` has only looks, or
//! helps. Above the call stands the program, which makes it over the system. What is promised of calls follows from what the
//! contract says, and stands in `run_promises`.
#![tactic(auto)]

mod command;
mod counted_folder;
mod first_day;
mod hints;
mod path_hints;
mod program;

pub use call_parts::{Answer, Report, SessionEnd};
pub use cmd_status::{FileSide, Status};
pub use command::hotsync;
pub use program::{Ended, arguments, run_on_system, run_program};
pub use session_parts::{Counts, DbReport, Did, FiledCounts, Skip};
