// What a call over a cable hands back.
ghost use Rattle.std.specs.Prelude.{◌≡◌};
ghost use Rattle.port_run.specs.Reports.{IsSilent};

use call_parts::SessionEnd;
use cmd_status::Status;
use port_link::{Entry, PortCause};
use session_parts::DbReport;
use std::alloc::Global;

/// What a call over a cable did, beside its status.
#[derive(Drop)]
pub struct CableReport {
    /// How far the session came.
    pub end: SessionEnd,
    /// What was done with each database, in byte order of names, by a session that ended.
    pub databases: Vec<DbReport>,
    /// Why the link answered no more, if it didn't.
    pub cause: Option<PortCause>,
    /// All that was said and heard over the port, in order.
    pub log: Vec<Entry>,
}

/// The status, the report, the port and the desktop's folder, which come back with every status.
#[derive(Drop)]
pub struct Synced<P, D> {
    pub status: Status,
    pub report: CableReport,
    pub port: P,
    pub desk: D,
}

impl<P, D> Synced<P, D> {
    /// What a call hands back that had no session.
    pub fn not_started(alloc: Global, status: Status, port: P, desk: D) -> Synced<P, D>
        ensures status { result.status ≡ status }
        ensures report { IsSilent result.report }
        ensures port { result.port ≡ port }
        ensures desk { result.desk ≡ desk }
    {
        Synced {
            status,
            report: CableReport {
                end: SessionEnd::NotStarted,
                databases: Vec::new(alloc),
                cause: None,
                log: Vec::new(alloc),
            },
            port,
            desk,
        }
    }
}
