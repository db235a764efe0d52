// Reading a trace.
ghost use Rattle.std.specs.Prelude.{◌≡◌, ◌≤◌, IfErr, IfOk, Ok, Err, length, map};
ghost use Rattle.trace_text.specs.TraceLines.{frame_value};
ghost use Rattle.trace_check.specs.Readings.{IsTraceReading};

use crate::fault::TraceFault;
use crate::frame::frame_in;
use crate::word::split_line;
use std::alloc::Global;
use trace_text::Frame;

/// How many bytes a trace has at most that is read.
pub const MOST_BYTES: usize = 67_108_864;

/// Reads a trace, which is all of the bytes, or finds its first bad line.
pub fn read_trace(alloc: Global, bytes: &[u8]) -> Result<Vec<Frame>, TraceFault>
    requires { length bytes.now ≤ 67108864 }
    ensures read { IfOk result (λ frames.
        IsTraceReading bytes.now (Ok (map frame_value frames.items))) }
    ensures few { IfOk result (λ frames. length frames.items ≤ length bytes.now) }
    ensures refused { IfErr result (λ fault. IsTraceReading bytes.now (Err fault)) }
{
    let mut frames = Vec::new(alloc);
    let mut rest = bytes;
    while !rest.is_empty() {
        let number = frames.len() as u32 + 1;
        let Some((line, behind)) = split_line(rest) else {
            return Err(TraceFault::BadLine(number));
        };
        let Some(frame) = frame_in(alloc, u64::from(number), line)? else {
            return Err(TraceFault::BadLine(number));
        };
        frames.push(frame)?;
        rest = behind;
    }
    Ok(frames)
}
