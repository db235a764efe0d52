// How a session over a cable ended.
ghost use Rattle.std.specs.Prelude.{◌≡◌};
ghost use Rattle.port_run.specs.Causes.{down_status as status_of_down, fault_status as status_of_fault, stop_status as status_of_stop};
ghost use Rattle.port_run.specs.Reports.{IsClosed};

use call_parts::SessionEnd;
use cmd_status::Status;
use desktop_session::SessionFault;
use port_link::PortCause;
use session_parts::{DbReport, Stop};
use std::alloc::Global;
use trace_text::End;

/// How a session ended, and what it made of each database.
#[derive(Drop)]
pub struct Closed {
    pub status: Status,
    pub end: SessionEnd,
    pub databases: Vec<DbReport>,
}

/// How a session ended over a link that answers no more for this cause, if it doesn't.
pub fn close_session(
    alloc: Global,
    end: Result<Vec<DbReport>, Stop>,
    cause: Option<PortCause>,
) -> Closed
    ensures { IsClosed cause end result }
{
    match end {
        Ok(databases) => Closed {
            status: Status::Done,
            end: SessionEnd::Ended,
            databases,
        },
        Err(stop) => Closed {
            status: stop_status(cause, stop),
            end: SessionEnd::Stopped,
            databases: Vec::new(alloc),
        },
    }
}

// The status of a session that stopped.
fn stop_status(cause: Option<PortCause>, stop: Stop) -> Status
    ensures { result ≡ status_of_stop cause stop }
{
    match stop {
        Stop::Session(fault) => fault_status(cause, fault),
        Stop::Limit(name) => Status::Limit(name),
        Stop::NewHandheld(name) => Status::NewHandheld(name),
        Stop::DeskFault => Status::DesktopFolder,
    }
}

// The status of one that stopped for what a call of it answered.
fn fault_status(cause: Option<PortCause>, fault: SessionFault) -> Status
    ensures { result ≡ status_of_fault cause fault }
{
    match fault {
        SessionFault::Down => down_status(cause),
        SessionFault::OtherUser { handheld, desktop } => Status::OtherUser { handheld, desktop },
        SessionFault::TooManyUsers => Status::TooManyUsers,
        SessionFault::Refused { function, code } => Status::Refused { function, code },
        SessionFault::BadReply { function, .. } => Status::BadReply(function),
        SessionFault::NoMemory => Status::NoMemory,
    }
}

// The status of one whose link answers no more.
fn down_status(cause: Option<PortCause>) -> Status
    ensures { result ≡ status_of_down cause }
{
    match cause {
        Some(PortCause::PortFailed) => Status::PortFailed,
        Some(PortCause::NoHandheld) => Status::NoHandheld,
        Some(PortCause::LineDown) => Status::LineDown(End::Desktop),
        Some(PortCause::LineSilent) => Status::LineSilent,
        Some(PortCause::Aborted) => Status::PeerAborted,
        Some(PortCause::BeganAnew) => Status::PeerBeganAnew,
        Some(PortCause::TooLong) => Status::LineEndless,
        Some(PortCause::NoMemory) | None => Status::NoMemory,
    }
}
