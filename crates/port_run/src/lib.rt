//! A session over a cable, and a handheld at a port, as one call each: the words of a command line, a port, a folder and the
//! sinks beside them go in; the status, a report, the port and the folder come out.
//!
//! In `sync` the port is opened, the desktop's folder is judged, the trace is opened, in this order. Then the desktop has a session
//! with whatever stands behind the port. Nothing is taken for granted of that: whatever it says, the desktop's folder is at
//! each moment what it was, or what one session makes of it, and the status says why a session came to no end.
//!
//! In `serve_port` the handheld's folder is judged, the port is opened, and the trace. Then the handheld of that folder says
//! its wake and serves whatever comes: each request is one step of it, and the folder stands for it at each moment.
#![tactic(auto)]

mod closing;
mod dock_program;
mod dock_report;
mod docking;
mod hints;
mod laws;
mod log_text;
mod opening;
mod program;
mod synced;
mod syncing;
mod talk;
mod tracing;
mod wishes;

pub use closing::{Closed, close_session};
pub use dock_program::{asks_docking, serve_on_system};
pub use dock_report::{DockReport, Docked};
pub use docking::serve_port;
pub use laws::{
    a_session_over_a_cable_names_no_other_database,
    an_ended_session_over_a_cable_leaves_both_sides_equal,
};
pub use opening::open_port;
pub use program::{asks_sync, sync_on_system, words_of};
pub use synced::{CableReport, Synced};
pub use syncing::sync;
pub use tracing::trace_log;
