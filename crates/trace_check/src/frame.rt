// A line of a trace.
ghost use Rattle.std.specs.Prelude.{◌≡◌, false, IfOk, IfErr, IfSome, IfNone};
ghost use Rattle.std.specs.List.{AllByRecursion};
ghost use Rattle.trace_text.specs.TraceLines.{FrameValue, frame_value};
ghost use Rattle.trace_check.specs.Words.{is_feed};
ghost use Rattle.trace_check.specs.declared.fault.TraceFault.TheVariants.{NoMemory};
ghost use Rattle.trace_check.specs.Readings.{IsTraceLine};

use crate::fate::fate_in;
use crate::fault::TraceFault;
use crate::word::{behind_number, bytes_in, split_end, split_mark};
use std::alloc::Global;
use trace_text::Frame;

// The frame of this number that a line says, which holds no line feed.
pub(crate) fn frame_in(alloc: Global, number: u64, line: &[u8]) -> Result<Option<Frame>, TraceFault>
    requires { AllByRecursion (λ byte. is_feed byte ≡ false) line.now }
    ensures some { IfOk result (λ found. IfSome found (λ frame.
        IsTraceLine number (frame_value frame) line.now)) }
    ensures none { IfOk result (λ found. IfNone found ((frame : FrameValue) →
        ¬ (IsTraceLine number frame line.now))) }
    ensures refused { IfErr result (λ fault. fault ≡ NoMemory) }
{
    let Some(words) = behind_number(alloc, number, line)? else {
        return Ok(None);
    };
    let Some((from, words)) = split_end(words) else {
        return Ok(None);
    };
    let Some((words, came, digits)) = split_mark(words) else {
        return Ok(None);
    };
    let Some(fate) = fate_in(alloc, words)? else {
        return Ok(None);
    };
    let Some(bytes) = bytes_in(digits) else {
        return Ok(None);
    };
    Ok(Some(Frame {
        number,
        from,
        fate,
        came,
        bytes,
    }))
}
