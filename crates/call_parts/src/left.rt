// How a session ended, for its report.
ghost use Rattle.std.specs.Prelude.{◌≡◌, ◌⊎◌, [], IfOk, option_copied};
ghost use Rattle.call_parts.specs.Causes.{down_status as status_of_down, fault_status as status_of_fault, numbers_by, numbers_in, stop_status as status_of_stop};
ghost use Rattle.call_parts.specs.Closings.{IsLeft};

use crate::report::SessionEnd;
use cmd_status::Status;
use desktop_session::SessionFault;
use line_world::Down;
use session_parts::{DbReport, Stop};
use std::alloc::{AllocError, Global};

/// How a session ended, and what it made of each database.
#[derive(Drop)]
pub struct Left {
    pub status: Status,
    pub end: SessionEnd,
    pub databases: Vec<DbReport>,
    pub faulted: Vec<u64>,
}

/// How a session ended over a line that is down for this cause, if it is.
pub fn left_of(alloc: Global, end: Result<Vec<DbReport>, Stop>, cause: Option<&Down>) -> Left
    ensures { IsLeft end (option_copied cause.entry) result }
{
    match end {
        Ok(databases) => Left {
            status: Status::Done,
            end: SessionEnd::Ended,
            databases,
            faulted: Vec::new(alloc),
        },
        Err(stop) => stopped(alloc, stop_status(stop, cause), cause),
    }
}

// A session that stopped with this status, or with want of memory for the numbers of frames.
fn stopped(alloc: Global, status: Status, cause: Option<&Down>) -> Left
    ensures status { (result.status ≡ status) ⊎ (result.status ≡ Status.NoMemory) }
    ensures end { result.end ≡ SessionEnd.Stopped }
    ensures databases { result.databases.items ≡ [] }
    ensures faulted { result.faulted.items ≡ numbers_by result.status (option_copied cause.entry) }
{
    match numbers_of(alloc, &status, cause) {
        Ok(faulted) => Left {
            status,
            end: SessionEnd::Stopped,
            databases: Vec::new(alloc),
            faulted,
        },
        Err(AllocError) => Left {
            status: Status::NoMemory,
            end: SessionEnd::Stopped,
            databases: Vec::new(alloc),
            faulted: Vec::new(alloc),
        },
    }
}

// The numbers of the frames that a report names beside a status.
fn numbers_of(alloc: Global, status: &Status, cause: Option<&Down>) -> Result<Vec<u64>, AllocError>
    ensures { IfOk result (λ numbers. numbers.items
        ≡ numbers_by status.now (option_copied cause.entry)) }
{
    match status {
        Status::LineDown(_) => faults_in(alloc, cause),
        _ => Ok(Vec::new(alloc)),
    }
}

// The numbers of the frames that a cause names.
fn faults_in(alloc: Global, cause: Option<&Down>) -> Result<Vec<u64>, AllocError>
    ensures { IfOk result (λ numbers. numbers.items ≡ numbers_in (option_copied cause.entry)) }
{
    match cause {
        Some(Down::LineDown { frames, .. }) => Vec::from_slice(alloc, frames),
        _ => Ok(Vec::new(alloc)),
    }
}

// The status of a session that stopped.
fn stop_status(stop: Stop, cause: Option<&Down>) -> Status
    ensures { result ≡ status_of_stop (option_copied cause.entry) stop }
{
    match stop {
        Stop::Session(fault) => fault_status(fault, cause),
        Stop::Limit(name) => Status::Limit(name),
        Stop::NewHandheld(name) => Status::NewHandheld(name),
        Stop::DeskFault => Status::DesktopFolder,
    }
}

// The status of one that stopped for what a call of it answered.
fn fault_status(fault: SessionFault, cause: Option<&Down>) -> Status
    ensures { result ≡ status_of_fault (option_copied cause.entry) fault }
{
    match fault {
        SessionFault::Down => down_status(cause),
        SessionFault::OtherUser { handheld, desktop } => Status::OtherUser { handheld, desktop },
        SessionFault::TooManyUsers => Status::TooManyUsers,
        SessionFault::Refused { function, code } => Status::Refused { function, code },
        SessionFault::BadReply { function, .. } => Status::BadReply(function),
        SessionFault::NoMemory => Status::NoMemory,
    }
}

// The status of one whose line is down.
fn down_status(cause: Option<&Down>) -> Status
    ensures { result ≡ status_of_down (option_copied cause.entry) }
{
    let Some(cause) = cause else {
        return Status::NoMemory;
    };
    match cause {
        Down::LineDown { end, .. } => Status::LineDown(*end),
        Down::Unplugged(number) => Status::Unplugged(*number),
        Down::Aborted(number) => Status::Aborted(*number),
        Down::Undetected(number) => Status::Undetected(*number),
        Down::Keeper => Status::HandheldFolder,
    }
}
