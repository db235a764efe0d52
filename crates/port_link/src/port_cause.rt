//! Why a link over a port answers no more.
ghost use Rattle.std.specs.Prelude.{◌≡◌};
ghost use Rattle.std.specs.Result.{result_err};
ghost use Rattle.port_link.specs.Causes.{cause_of, link_fault, waking_cause};

use crate::turn::Turn;
use dlp_commands::LinkFault;
use port_line::PortFault;

/// Why a link over a port answers no more.
#[derive(Clone, Copy, Debug)]
pub enum PortCause {
    /// The port failed.
    PortFailed,
    /// No handheld woke it: thirty ticks in a row brought nothing, what came first is no wake, or it wasn't there behind 65,536
    /// packets, bytes and ticks.
    NoHandheld,
    /// A piece was said ten times, with a tick of silence behind each, and never acknowledged.
    LineDown,
    /// All was acknowledged, and thirty ticks in a row brought nothing.
    LineSilent,
    /// The other end ended the connection.
    Aborted,
    /// The other end greeted once more while a reply was awaited: it began anew.
    BeganAnew,
    /// What was awaited wasn't there behind 1,048,576 packets, bytes and ticks.
    TooLong,
    /// There was no memory.
    NoMemory,
}

/// What a link answers for this cause.
pub(crate) fn fault_of(cause: PortCause) -> LinkFault
    ensures { result ≡ link_fault cause }
{
    match cause {
        PortCause::NoMemory => LinkFault::NoMemory,
        PortCause::PortFailed
        | PortCause::NoHandheld
        | PortCause::LineDown
        | PortCause::LineSilent
        | PortCause::Aborted
        | PortCause::BeganAnew
        | PortCause::TooLong => LinkFault::Down,
    }
}

/// Whether what was awaited came, or why it didn't.
pub(crate) fn outcome(answer: Result<Turn, PortFault>) -> Result<(), PortCause>
    ensures { result_err result ≡ cause_of answer }
{
    match answer {
        Ok(Turn::Delivered | Turn::Whole) => Ok(()),
        Ok(Turn::GoesOn | Turn::Quiet) => Err(PortCause::TooLong),
        Ok(Turn::Spent) => Err(PortCause::LineDown),
        Ok(Turn::Silent) => Err(PortCause::LineSilent),
        Ok(Turn::Aborted) => Err(PortCause::Aborted),
        Ok(Turn::Greeted) => Err(PortCause::BeganAnew),
        Err(PortFault::Failed) => Err(PortCause::PortFailed),
        Err(PortFault::NoMemory) => Err(PortCause::NoMemory),
    }
}

/// The same of a wake.
pub(crate) fn waking_outcome(answer: Result<Turn, PortFault>) -> Result<(), PortCause>
    ensures { result_err result ≡ waking_cause answer }
{
    match answer {
        Ok(Turn::Silent | Turn::GoesOn) => Err(PortCause::NoHandheld),
        answer => outcome(answer),
    }
}
