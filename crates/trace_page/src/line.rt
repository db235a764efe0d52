// The line of a frame, and the words of its fate.
ghost use Rattle.std.specs.Prelude.{◌≡◌, ◌++◌, OnOk, string_bytes};
ghost use Rattle.trace_text.specs.Fates as fates;
ghost use Rattle.trace_text.specs.Fates.{fate_value, fate_words};
ghost use Rattle.trace_text.specs.TraceLines as lines;
ghost use Rattle.trace_text.specs.TraceLines.{frame_value};
ghost use Rattle.trace_page.specs.Rows.{line_of};

use std::alloc::{AllocError, Global};
use std::fmt::Write;
use trace_text::{End, Fate, Frame};

/// Appends the line of a frame, without its end.
#[tactic(auto, unfolding(crate::specs::Rows::line_of))]
pub(crate) fn push_line(alloc: Global, text: &mut String, frame: &Frame) -> Result<(), AllocError>
    ensures { OnOk result (string_bytes text.new
        ≡ string_bytes text.old ++ line_of (frame_value frame.now)) }
{
    let number = frame.number;
    let bytes = hex::encode(alloc, frame.bytes.as_slice())?;
    write!(text, "{number} ")?;
    text.push_str(end_word(frame.from))?;
    text.push_str(" ")?;
    push_fate(alloc, text, &frame.fate)?;
    text.push_str(" ")?;
    text.push_str(mark_word(frame.came))?;
    text.push_str(" ")?;
    text.push_str(bytes.as_str())?;
    Ok(())
}

/// The word of an end.
pub(crate) fn end_word(end: End) -> &'static str
    ensures { result.now ≡ lines.end_word end }
{
    match end {
        End::Handheld => "H",
        End::Desktop => "D",
    }
}

// The mark of a frame that came, and of one that didn't.
fn mark_word(came: bool) -> &'static str
    ensures { result.now ≡ lines.mark_word came }
{
    if came { "+" } else { "-" }
}

/// Appends the words of a fate.
pub(crate) fn push_fate(alloc: Global, text: &mut String, fate: &Fate) -> Result<(), AllocError>
    ensures { OnOk result (string_bytes text.new
        ≡ string_bytes text.old ++ fate_words (fate_value fate.now)) }
{
    match fate {
        Fate::Ok => text.push_str("ok"),
        Fate::Lost => text.push_str("lost"),
        Fate::Late => text.push_str("late"),
        Fate::Unplug => text.push_str("unplug"),
        Fate::Abort => text.push_str("abort"),
        Fate::Cut(length) => push_cut(text, *length),
        Fate::Hit(place, bytes) => push_hit(alloc, text, *place, bytes.as_slice()),
        Fate::Noise(bytes) => push_noise(alloc, text, bytes.as_slice()),
    }
}

fn push_cut(text: &mut String, length: u16) -> Result<(), AllocError>
    ensures { OnOk result (string_bytes text.new
        ≡ string_bytes text.old ++ fate_words (fates.Cut length)) }
{
    write!(text, "cut {length}")?;
    Ok(())
}

fn push_hit(alloc: Global, text: &mut String, place: u16, bytes: &[u8]) -> Result<(), AllocError>
    ensures { OnOk result (string_bytes text.new
        ≡ string_bytes text.old ++ fate_words (fates.Hit place bytes.now)) }
{
    let digits = hex::encode(alloc, bytes)?;
    write!(text, "hit {place} ")?;
    text.push_str(digits.as_str())?;
    Ok(())
}

fn push_noise(alloc: Global, text: &mut String, bytes: &[u8]) -> Result<(), AllocError>
    ensures { OnOk result (string_bytes text.new
        ≡ string_bytes text.old ++ fate_words (fates.Noise bytes.now)) }
{
    let digits = hex::encode(alloc, bytes)?;
    text.push_str("noise ")?;
    text.push_str(digits.as_str())?;
    Ok(())
}
