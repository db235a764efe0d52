// The trace of a session over a cable.
ghost use Rattle.std.specs.Prelude.{◌≡◌, [], None, map, option_copied};
ghost use Rattle.cmd_status.specs.Told.{sink_told};
ghost use Rattle.call_parts.specs.Causes.{IsUnsaid};
ghost use Rattle.call_parts.specs.Traces.{TracesFrames};
ghost use Rattle.port_link.specs.Logs.{entry_value};
ghost use Rattle.port_run.specs.LogTexts.{log_text};

use crate::log_text::write_log;
use call_parts::write_text;
use cmd_status::Status;
use hs_folders::Sink;
use port_link::Entry;
use std::alloc::{AllocError, Global};

/// Writes the text of what was said and heard, by the letters of the end that kept it and of the other one, where the words
/// name a trace, and says which status stands then.
pub fn trace_log<T: Sink>(
    alloc: Global,
    path: Option<&str>,
    own: &str,
    other: &str,
    status: Status,
    log: &[Entry],
    trace: &mut T,
) -> Status
    requires { IsUnsaid status }
    ensures traces { TracesFrames (option_copied path.entry)
        (log_text own.now other.now (map entry_value log.now))
        (sink_told T.Sink trace.old) (sink_told T.Sink trace.new) status result }
    ensures untouched { path.entry ≡ None → trace.new ≡ trace.old }
    ensures silent { log.now ≡ [] → trace.new ≡ trace.old }
{
    if path.is_none() || log.is_empty() {
        return status;
    }
    match write_log(alloc, own, other, log) {
        Ok(text) => write_text(status, &text, trace),
        Err(AllocError) => Status::NoMemory,
    }
}
