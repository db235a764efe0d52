//! How a call of the program ends: its status, the exit status and the line of each, and how a line or a text is printed; and how
//! the bytes of a source are read, which ends a call where it fails.
//!
//! A status has one line and one exit status. Names of files are printed one to one and without control characters, so
//! that no name makes a line of its own. The lines and the statuses are this program's own; docs/FORMATS.md lists them.
#![tactic(auto)]

mod commands;
mod fault_lines;
mod flaw_line;
mod printed_name;
mod printing;
mod reasons;
mod refusal_line;
mod source;
mod status;
mod stderr_sink;
mod usage;

pub use commands::{COMMANDS, summary};
pub use printed_name::push_name;
pub use printing::{print_no_memory, print_refusal, print_text};
pub use source::read_source;
pub use status::{FileSide, Status, Surplus};
pub use stderr_sink::StderrSink;
pub use usage::synopsis;
