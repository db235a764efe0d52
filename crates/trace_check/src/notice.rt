// What a frame says, as far as turns are judged by it.
ghost use Rattle.std.specs.Prelude.{◌≡◌, true, false, IfSome, IfNone};
ghost use Rattle.trace_text.specs.Fates.{fate_value};
ghost use Rattle.trace_text.specs.Faults.{is_late as comes_late};
ghost use Rattle.trace_text.specs.Frames.{BearsFragment, course_of, fragment_in, is_abort};
ghost use Rattle.trace_text.specs.TraceLines.{frame_value};
ghost use Rattle.trace_check.specs.Notices.{IsNoticeOf};

use padp_link::{Key, PadpKind, read_fragment};
use slp_frames::{CRC_LEN, HEADER_LEN};
use trace_text::{End, Fate, Frame};

// The place of the transaction in a packet's header.
const ID: usize = 8;

// A frame that is no abort.
#[derive(Clone, Copy)]
pub(crate) struct Notice {
    // Its number, from 1 on.
    pub(crate) number: u32,
    // Who sent it.
    pub(crate) from: End,
    // Whether it bears a fragment of data, and not an acknowledgement.
    pub(crate) is_data: bool,
    // The key of that fragment.
    pub(crate) key: Key,
    // Whether it came late.
    pub(crate) late: bool,
    // Whether it came.
    pub(crate) came: bool,
}

// Whether this is the fate of a frame that comes late.
fn is_late(fate: &Fate) -> bool
    ensures { result ≡ comes_late (course_of (fate_value fate.now)) }
{
    matches!(fate, Fate::Late)
}

// What the frame of this number says; nothing where it is an abort.
pub(crate) fn notice_of(number: u32, frame: &Frame) -> Option<Notice>
    requires { BearsFragment (frame_value frame.now) }
    ensures some { IfSome result (λ notice. IsNoticeOf notice (frame_value frame.now) number) }
    ensures said { IfSome result (λ _.
        is_abort (fragment_in (frame_value frame.now)).kind ≡ false) }
    ensures none { IfNone result
        (is_abort (fragment_in (frame_value frame.now)).kind ≡ true) }
{
    let bytes = frame.bytes.as_slice();
    let Ok(fragment) = read_fragment(&bytes[HEADER_LEN..bytes.len() - CRC_LEN]) else {
        return None;
    };
    if fragment.kind == PadpKind::Abort {
        return None;
    }
    Some(Notice {
        number,
        from: frame.from,
        is_data: fragment.kind == PadpKind::Data,
        key: fragment.key(bytes[ID]),
        late: is_late(&frame.fate),
        came: frame.came,
    })
}
