// What a call with a handheld at a port hands back.
ghost use Rattle.std.specs.Prelude.{◌≡◌};
ghost use Rattle.port_run.specs.Docks.{IsIdle};

use cmd_status::Status;
use dlp_args::MessageText;
use port_link::Entry;
use std::alloc::Global;

/// What a handheld at a port did.
#[derive(Drop)]
pub struct DockReport {
    /// The requests that were performed, each once and in order, and the reply to each.
    pub performed: Vec<MessageText>,
    pub replies: Vec<MessageText>,
    /// All that was said and heard over the port, in order.
    pub log: Vec<Entry>,
}

/// The status, the report, the port and the handheld's folder, which come back with every status.
#[derive(Drop)]
pub struct Docked<H, P> {
    pub status: Status,
    pub report: DockReport,
    pub device: H,
    pub port: P,
}

impl<H, P> Docked<H, P> {
    /// What a call hands back that had no talk.
    pub fn not_started(alloc: Global, status: Status, device: H, port: P) -> Docked<H, P>
        ensures status { result.status ≡ status }
        ensures report { IsIdle result.report }
        ensures device { result.device ≡ device }
        ensures port { result.port ≡ port }
    {
        Docked {
            status,
            report: DockReport {
                performed: Vec::new(alloc),
                replies: Vec::new(alloc),
                log: Vec::new(alloc),
            },
            device,
            port,
        }
    }
}
