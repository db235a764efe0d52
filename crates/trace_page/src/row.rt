// The row of a frame.
ghost use Rattle.std.specs.Prelude.{◌≡◌, ◌++◌, OnOk, string_bytes};
ghost use Rattle.trace_text.specs.Fates as fates;
ghost use Rattle.trace_text.specs.Fates.{fate_value};
ghost use Rattle.trace_text.specs.TraceLines.{frame_value};
ghost use Rattle.trace_page.specs.Rows as rows;

use crate::bearing::Bearing;
use crate::line::{end_word, push_fate, push_line};
use crate::name::push_name;
use crate::seen::Place;
use padp_link::PadpKind;
use std::alloc::{AllocError, Global};
use std::fmt::Write;
use trace_text::{Fate, Frame};

/// The tags of a row, each behind the part before it.
#[derive(Clone, Copy)]
pub(crate) enum Tag {
    Row,
    Number,
    Name,
    Notes,
    Line,
    End,
}

impl Tag {
    #[tactic(auto, unfolding(crate::specs::Rows::tag_text))]
    fn text(self) -> &'static str
        ensures { result.now ≡ rows.tag_text self }
    {
        match self {
            Tag::Row => "<li class=\"",
            Tag::Number => "\"><i>",
            Tag::Name => "</i><div><u></u></div><span><b>",
            Tag::Notes => "</b>",
            Tag::Line => "</span><code>",
            Tag::End => "</code></li>\n",
        }
    }
}

/// Appends the row of a frame that bears this.
#[tactic(auto, unfolding(crate::specs::Rows::row_text))]
pub(crate) fn push_row(
    alloc: Global,
    text: &mut String,
    place: Place,
    frame: &Frame,
    bearing: &Bearing,
) -> Result<(), AllocError>
    ensures { OnOk result (string_bytes text.new ≡ string_bytes text.old
        ++ rows.row_text place.times place.front (frame_value frame.now) bearing.now) }
{
    push_front(text, place, frame, bearing)?;
    push_back(alloc, text, place.times, frame, bearing)?;
    Ok(())
}

// Appends how a row looks, the number and the name.
#[tactic(auto, unfolding(crate::specs::Rows::row_front))]
fn push_front(
    text: &mut String,
    place: Place,
    frame: &Frame,
    bearing: &Bearing,
) -> Result<(), AllocError>
    ensures { OnOk result (string_bytes text.new ≡ string_bytes text.old
        ++ rows.row_front place.times place.front (frame_value frame.now) bearing.now) }
{
    let number = frame.number;
    text.push_str(Tag::Row.text())?;
    push_classes(text, place.times, frame, bearing)?;
    text.push_str(Tag::Number.text())?;
    write!(text, "{number}")?;
    text.push_str(Tag::Name.text())?;
    push_name(text, frame.from, bearing, place.front)?;
    Ok(())
}

// Appends the notes and the line.
#[tactic(auto, unfolding(crate::specs::Rows::row_back))]
fn push_back(
    alloc: Global,
    text: &mut String,
    times: u64,
    frame: &Frame,
    bearing: &Bearing,
) -> Result<(), AllocError>
    ensures { OnOk result (string_bytes text.new ≡ string_bytes text.old
        ++ rows.row_back times (frame_value frame.now) bearing.now) }
{
    text.push_str(Tag::Notes.text())?;
    push_notes(alloc, text, times, frame)?;
    push_small(alloc, text, bearing)?;
    text.push_str(Tag::Line.text())?;
    push_line(alloc, text, frame)?;
    text.push_str(Tag::End.text())?;
    Ok(())
}

// Appends how a frame looks.
#[tactic(auto, unfolding(crate::specs::Rows::classes))]
fn push_classes(
    text: &mut String,
    times: u64,
    frame: &Frame,
    bearing: &Bearing,
) -> Result<(), AllocError>
    ensures { OnOk result (string_bytes text.new ≡ string_bytes text.old
        ++ rows.classes times (frame_value frame.now) bearing.now) }
{
    text.push_str(end_word(frame.from))?;
    text.push_str(fate_class(&frame.fate))?;
    text.push_str(kind_class(bearing.kind))?;
    text.push_str(again_class(times))?;
    text.push_str(open_class(frame))?;
    text.push_str(band_class(bearing))?;
    Ok(())
}

// Appends what became of a frame, and how often it was sent.
#[tactic(auto, unfolding(crate::specs::Rows::notes))]
fn push_notes(alloc: Global, text: &mut String, times: u64, frame: &Frame) -> Result<(), AllocError>
    ensures { OnOk result (string_bytes text.new ≡ string_bytes text.old
        ++ rows.notes times (frame_value frame.now)) }
{
    push_fate_note(alloc, text, &frame.fate)?;
    text.push_str(open_note(frame))?;
    push_again_note(text, times)?;
    Ok(())
}

// Appends what the line did with a frame.
#[tactic(auto, unfolding(crate::specs::Rows::fate_note))]
fn push_fate_note(alloc: Global, text: &mut String, fate: &Fate) -> Result<(), AllocError>
    ensures { OnOk result (string_bytes text.new
        ≡ string_bytes text.old ++ rows.fate_note (fate_value fate.now)) }
{
    if is_untouched(fate) {
        return Ok(());
    }
    text.push_str("<em>")?;
    push_fate(alloc, text, fate)?;
    text.push_str("</em>")?;
    Ok(())
}

// Appends how often a repeat was sent.
#[tactic(auto, unfolding(crate::specs::Rows::again_note))]
fn push_again_note(text: &mut String, times: u64) -> Result<(), AllocError>
    ensures { OnOk result (string_bytes text.new
        ≡ string_bytes text.old ++ rows.again_note times) }
{
    if times == 0 {
        return Ok(());
    }
    write!(text, "<em class=\"r\">again, {times}. time</em>")?;
    Ok(())
}

// Appends how many bytes of a message a frame has, and its transaction.
#[tactic(auto, unfolding(crate::specs::Rows::small_note))]
fn push_small(alloc: Global, text: &mut String, bearing: &Bearing) -> Result<(), AllocError>
    ensures { OnOk result (string_bytes text.new
        ≡ string_bytes text.old ++ rows.small_note bearing.now) }
{
    let id = hex::encode(alloc, [bearing.key.id])?;
    text.push_str("<small>")?;
    push_length(text, bearing.kind, bearing.length)?;
    text.push_str("id ")?;
    text.push_str(id.as_str())?;
    text.push_str("</small>")?;
    Ok(())
}

fn push_length(text: &mut String, kind: PadpKind, length: usize) -> Result<(), AllocError>
    ensures { OnOk result (string_bytes text.new
        ≡ string_bytes text.old ++ rows.length_note kind length) }
{
    if let PadpKind::Data = kind {
        write!(text, "{length} bytes &middot; ")?;
    }
    Ok(())
}

/// Whether the line left the frame alone.
pub(crate) fn is_untouched(fate: &Fate) -> bool
    ensures { result ≡ rows.is_untouched (fate_value fate.now) }
{
    match fate {
        Fate::Ok => true,
        _ => false,
    }
}

// Whether the frame itself arrives.
fn arrives(fate: &Fate) -> bool
    ensures { result ≡ fates.arrives (fate_value fate.now) }
{
    match fate {
        Fate::Ok | Fate::Late | Fate::Noise(_) => true,
        _ => false,
    }
}

// Whether a frame that arrives wasn't taken before the end.
fn is_open(frame: &Frame) -> bool
    ensures { result ≡ rows.is_open (frame_value frame.now) }
{
    arrives(&frame.fate) && !frame.came
}

fn fate_class(fate: &Fate) -> &'static str
    ensures { result.now ≡ rows.fate_class (fate_value fate.now) }
{
    match fate {
        Fate::Ok => " ok",
        Fate::Lost | Fate::Unplug | Fate::Abort => " harm gone",
        Fate::Late => " harm late",
        Fate::Cut(_) => " harm gone cut",
        Fate::Hit(_, _) => " harm gone hit",
        Fate::Noise(_) => " harm noise",
    }
}

fn kind_class(kind: PadpKind) -> &'static str
    ensures { result.now ≡ rows.kind_class kind }
{
    match kind {
        PadpKind::Ack => " ack",
        _ => "",
    }
}

fn again_class(times: u64) -> &'static str
    ensures { result.now ≡ rows.again_class times }
{
    if times == 0 { "" } else { " again" }
}

fn open_class(frame: &Frame) -> &'static str
    ensures { result.now ≡ rows.open_class (frame_value frame.now) }
{
    if is_open(frame) { " open" } else { "" }
}

fn open_note(frame: &Frame) -> &'static str
    ensures { result.now ≡ rows.open_note (frame_value frame.now) }
{
    if is_open(frame) {
        "<em class=\"o\">not taken before the end</em>"
    } else {
        ""
    }
}

// The class of every other exchange.
fn band_class(bearing: &Bearing) -> &'static str
    ensures { result.now ≡ rows.band_class bearing.now }
{
    if !bearing.is_greeting() && bearing.key.id % 2 == 1 {
        " band"
    } else {
        ""
    }
}
