//! The commands between a handheld at a port and a folder of files, as one call each: the words of a command line, a
//! port, a folder and the sinks beside them go in; the status, a report, the port and the folder come out.
//!
//! The port is opened, the folder is judged, the trace is opened, in this order. Then the session is had with whatever
//! stands behind the port: nothing is taken for granted of that.
#![tactic(auto)]

mod backup;
mod backup_talk;
mod program;

pub use backup::backup_at_port;
pub use program::{asks_ported, backup_on_system};
