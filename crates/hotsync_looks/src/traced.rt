// The verdict on a trace, and its page.
ghost use Rattle.std.specs.Prelude.{◌≡◌, ◌≤◌, IfErr, IfOk, length, map, string_bytes, Ok as OkValue};
ghost use Rattle.trace_check.specs.Readings.{IsTraceReading};
ghost use Rattle.trace_text.specs.TraceLines.{frame_value};
ghost use Rattle.hotsync_looks.specs.LookTexts.{IsPageText, IsProperText, RefusesReading, RefusesTrace, proper_line as line_of_proper};
ghost use Rattle.cmd_status.specs.Sources.{source_limit};

use cmd_status::Status;
use std::alloc::{AllocError, Global};
use std::fmt::Write;
use trace_check::{TraceFault, Verdict, read_trace, verdict};
use trace_page::page_text;
use trace_text::Frame;

/// The line that says that these bytes are a proper trace, with its requests and replies.
pub fn verdict_text(alloc: Global, bytes: &[u8]) -> Result<String, Status>
    requires { length bytes.now ≤ source_limit }
    ensures text { IfOk result (λ text. IsProperText bytes.now (string_bytes text)) }
    ensures refused { IfErr result (λ refusal. RefusesTrace bytes.now refusal) }
{
    let frames = frames_in(alloc, bytes)?;
    match verdict(alloc, &frames)? {
        Verdict::Proper { requests, replies } => Ok(proper_line(alloc, requests, replies)?),
        Verdict::Not(rule) => Err(Status::NotProper(rule)),
    }
}

/// The page of the trace that these bytes are the text of.
pub fn picture_text(alloc: Global, bytes: &[u8]) -> Result<String, Status>
    requires { length bytes.now ≤ source_limit }
    ensures text { IfOk result (λ text. IsPageText bytes.now (string_bytes text)) }
    ensures refused { IfErr result (λ refusal. RefusesReading bytes.now refusal) }
{
    let frames = frames_in(alloc, bytes)?;
    Ok(page_text(alloc, &frames)?)
}

// The frames of the trace that these bytes are the text of.
fn frames_in(alloc: Global, bytes: &[u8]) -> Result<Vec<Frame>, Status>
    requires { length bytes.now ≤ source_limit }
    ensures read { IfOk result (λ frames.
        IsTraceReading bytes.now (OkValue (map frame_value frames.items))) }
    ensures few { IfOk result (λ frames. length frames.items ≤ length bytes.now) }
    ensures refused { IfErr result (λ refusal. RefusesReading bytes.now refusal) }
{
    match read_trace(alloc, bytes) {
        Ok(frames) => Ok(frames),
        Err(TraceFault::BadLine(line)) => Err(Status::BadTrace(line)),
        Err(TraceFault::NoMemory) => Err(Status::NoMemory),
    }
}

// `proper requests N replies M`.
#[tactic(auto, unfolding(crate::specs::LookTexts::proper_line))]
fn proper_line(alloc: Global, requests: u32, replies: u32) -> Result<String, AllocError>
    ensures { IfOk result (λ line. string_bytes line ≡ line_of_proper requests replies) }
{
    let mut line = String::from_str(alloc, "proper requests ")?;
    write!(line, "{requests} replies {replies}\n")?;
    Ok(line)
}
