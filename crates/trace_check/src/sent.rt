// What was sent in a frame.
ghost use Rattle.std.specs.Prelude.{◌≡◌, List};
ghost use Rattle.trace_text.specs.Fates.{fate_value};
ghost use Rattle.trace_text.specs.Frames as frames;
ghost use Rattle.trace_text.specs.Frames.{BearsFragment, add_frame};
ghost use Rattle.trace_text.specs.Past.{PastFrame};
ghost use Rattle.trace_text.specs.TraceLines.{frame_value};
ghost use Rattle.trace_check.specs.Sending.{added, course_value};

use crate::bearing::borne_in;
use padp_link::{Key, PadpKind};
use trace_text::{End, Fate, Frame};

// What becomes of a frame: it comes, it doesn't or damaged, or it comes late.
#[derive(Clone, Copy)]
pub(crate) enum Course {
    Came,
    Gone,
    Late,
}

// What was sent in a frame: by whom, whether it is data, its key, its part of a message, and what became of it.
#[derive(Clone, Copy)]
pub(crate) struct SentFrame<'a> {
    pub(crate) from: End,
    pub(crate) is_data: bool,
    pub(crate) key: Key,
    pub(crate) bytes: &'a [u8],
    pub(crate) course: Course,
}

// What was sent in a frame; an abort says nothing.
pub(crate) fn sent_in(frame: &Frame) -> Option<SentFrame<'_>>
    requires { BearsFragment (frame_value frame.now) }
    ensures { (past : List PastFrame) → add_frame (frame_value frame.now) past ≡ added result past }
{
    let Some(borne) = borne_in(frame.bytes.as_slice()) else {
        return None;
    };
    if is_abort(borne.fragment.kind) {
        return None;
    }
    Some(SentFrame {
        from: frame.from,
        is_data: is_data(borne.fragment.kind),
        key: borne.fragment.key(borne.id),
        bytes: borne.fragment.bytes,
        course: course_of(&frame.fate),
    })
}

fn is_abort(kind: PadpKind) -> bool
    ensures { result ≡ frames.is_abort kind }
{
    matches!(kind, PadpKind::Abort)
}

fn is_data(kind: PadpKind) -> bool
    ensures { result ≡ frames.is_data_kind kind }
{
    matches!(kind, PadpKind::Data)
}

fn course_of(fate: &Fate) -> Course
    ensures { course_value result ≡ frames.course_of (fate_value fate.now) }
{
    match fate {
        Fate::Ok | Fate::Noise(_) => Course::Came,
        Fate::Late => Course::Late,
        Fate::Lost | Fate::Cut(_) | Fate::Hit(_, _) | Fate::Unplug | Fate::Abort => Course::Gone,
    }
}
