// A trace as text.
ghost use Rattle.std.specs.Prelude.{◌≡◌, ◌++◌, IfOk, map, string_bytes, codes};
ghost use Rattle.std.specs.List.{flat_map};
ghost use Rattle.trace_text.specs.Fates.{fate_words as words_of};
ghost use Rattle.trace_text.specs.Lent.{lent_fate, lent_frame};
ghost use Rattle.trace_text.specs.TraceLines as lines;
ghost use Rattle.trace_text.specs.TraceLines.{frame_value, trace_text};

use crate::fate::{FateKind, FateLent};
use crate::frame::{End, FrameLent};
use crate::frame_log::FrameLog;
use std::alloc::{AllocError, Global};

/// The frames as text, a line for each of them.
pub fn write_trace(alloc: Global, frames: &FrameLog) -> Result<Vec<u8>, AllocError>
    ensures { IfOk result (λ text. text.items ≡ trace_text (map frame_value frames.now.items)) }
{
    let mut text = Vec::new(alloc);
    for place in 0..frames.len() {
        let line = write_frame(alloc, frames.get(place))?;
        text.extend_from_slice(line.as_bytes())?;
    }
    Ok(text)
}

/// The line of a frame, with its end: its number, `H` or `D` for the sender, its fate, `+` where it came and `-` otherwise,
/// and its bytes in hexadecimal of lower case. The words of a fate are those of a script, or `ok`.
pub fn write_frame(alloc: Global, frame: FrameLent<'_>) -> Result<String, AllocError>
    ensures { IfOk result (λ line. string_bytes line ≡ lines.frame_line (lent_frame frame.entry)) }
{
    let number = frame.number;
    let from = end_word(frame.from);
    let fate = fate_words(alloc, frame.fate)?;
    let mark = if frame.came { "+" } else { "-" };
    let bytes = hex::encode(alloc, frame.bytes)?;
    format!(in alloc; "{number} {from} {fate} {mark} {bytes}\n")
}

fn end_word(end: End) -> &'static str
    ensures { result.now ≡ lines.end_word end }
{
    match end {
        End::Handheld => "H",
        End::Desktop => "D",
    }
}

// The words of a fate.
fn fate_words(alloc: Global, fate: FateLent<'_>) -> Result<String, AllocError>
    ensures { IfOk result (λ words. string_bytes words ≡ words_of (lent_fate fate.entry)) }
{
    match fate.kind {
        FateKind::Ok => String::from_str(alloc, "ok"),
        FateKind::Lost => String::from_str(alloc, "lost"),
        FateKind::Late => String::from_str(alloc, "late"),
        FateKind::Unplug => String::from_str(alloc, "unplug"),
        FateKind::Abort => String::from_str(alloc, "abort"),
        FateKind::Cut(length) => format!(in alloc; "cut {length}"),
        FateKind::Hit(place) => {
            let bytes = hex::encode(alloc, fate.bytes)?;
            format!(in alloc; "hit {place} {bytes}")
        }
        FateKind::Noise => {
            let bytes = hex::encode(alloc, fate.bytes)?;
            format!(in alloc; "noise {bytes}")
        }
    }
}
