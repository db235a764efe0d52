// The trace of a run.
ghost use Rattle.std.specs.Prelude.{◌≡◌, ◌≤◌, [], IfErr, IsErrOf, None, OnOk, map, option_copied};
ghost use Rattle.hs_folders.specs.Causes.{Rose};
ghost use Rattle.trace_text.specs.TraceLines.{frame_value, trace_text};
ghost use Rattle.call_parts.specs.Causes.{IsUnsaid, untold as untold_status};
ghost use Rattle.cmd_status.specs.Opening.{Opens, OpensAtMost, OpensGiven, OpensGivenAtMost};
ghost use Rattle.call_parts.specs.Refusals.{IsTraceRefusal, TraceRefuses};
ghost use Rattle.cmd_status.specs.Told.{sink_told};
ghost use Rattle.call_parts.specs.Traces.{TracesFrames, TracesText};

use cmd_status::Status;
use hs_folders::{Sink, SinkFault};
use std::alloc::{AllocError, Global};
use trace_text::{FrameLog, write_trace};

/// Opens the trace where the words name one.
pub fn open_trace<T: Sink>(trace: &mut T, path: Option<&str>) -> Result<(), Status>
    ensures refused { IfErr result (TraceRefuses (option_copied path.entry)) }
    ensures failed { IsErrOf result Status.TraceWrite → Rose (T.faults trace.old)
        (T.faults trace.new) }
    ensures untouched { path.entry ≡ None → trace.new ≡ trace.old }

    ensures taken { T.taken trace.new ≡ T.taken trace.old }
    ensures later { T.faults trace.old ≤ T.faults trace.new }
    ensures opened { OnOk result (OpensGiven (option_copied path.entry) (T.paths trace.old)
        (T.paths trace.new)) }
    ensures path { OpensGivenAtMost (option_copied path.entry) (T.paths trace.old)
        (T.paths trace.new) }
{
    match path {
        Some(path) => open_named(trace, path),
        None => Ok(()),
    }
}

/// Opens the trace at this path.
pub fn open_named<T: Sink>(trace: &mut T, path: &str) -> Result<(), Status>
    ensures refused { IfErr result IsTraceRefusal }
    ensures failed { IsErrOf result Status.TraceWrite → Rose (T.faults trace.old)
        (T.faults trace.new) }

    ensures taken { T.taken trace.new ≡ T.taken trace.old }
    ensures later { T.faults trace.old ≤ T.faults trace.new }
    ensures opened { OnOk result (Opens path.now (T.paths trace.old) (T.paths trace.new)) }
    ensures path { OpensAtMost path.now (T.paths trace.old) (T.paths trace.new) }
{
    match trace.open(path) {
        Ok(()) => Ok(()),
        Err(SinkFault::Failed) => Err(Status::TraceWrite),
        Err(SinkFault::NoMemory) => Err(Status::NoMemory),
    }
}

/// Writes the text of the frames where the words name a trace, and says which status stands then: a session that ended and
/// whose trace failed was not done whole.
pub fn write_frames<T: Sink>(
    alloc: Global,
    path: Option<&str>,
    status: Status,
    frames: &FrameLog,
    trace: &mut T,
) -> Status
    requires { IsUnsaid status }
    ensures traces { TracesFrames (option_copied path.entry)
        (trace_text (map frame_value frames.now.items))
        (sink_told T.Sink trace.old) (sink_told T.Sink trace.new) status result }
    ensures untouched { path.entry ≡ None → trace.new ≡ trace.old }
    ensures silent { frames.now.items ≡ [] → trace.new ≡ trace.old }
{
    if path.is_none() || frames.len() == 0 {
        return status;
    }
    match write_trace(alloc, frames) {
        Ok(text) => write_text(status, &text, trace),
        Err(AllocError) => Status::NoMemory,
    }
}

/// Writes the text of a trace, and says which status stands then.
pub fn write_text<T: Sink>(status: Status, text: &[u8], trace: &mut T) -> Status
    requires { IsUnsaid status }
    ensures { TracesText text.now
        (sink_told T.Sink trace.old) (sink_told T.Sink trace.new) status result }
{
    match trace.write_all(text) {
        Ok(()) => status,
        Err(SinkFault::Failed) => untold(status),
        Err(SinkFault::NoMemory) => Status::NoMemory,
    }
}

// The status of a run whose trace failed: a stop stands.
fn untold(status: Status) -> Status
    ensures { result ≡ untold_status status }
{
    match status {
        Status::Done => Status::TraceWrite,
        stop => stop,
    }
}
