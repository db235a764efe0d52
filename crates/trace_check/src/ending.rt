// Which frames end a run.
ghost use Rattle.std.specs.Prelude.{◌≡◌, ◌≤◌, ◌<◌, ◌+◌, ◌%◌, ◌↔◌, ◌++◌, IsTrue, length, map};
ghost use Rattle.arrayvec.specs.ArrayVec.{array_vec_len};
ghost use Rattle.trace_text.specs.Fates as fates;
ghost use Rattle.trace_text.specs.Fates.{fate_value, hit_at, xored};
ghost use Rattle.trace_text.specs.TraceLines.{frame_value};
ghost use Rattle.trace_check.specs.Judging.{Keeps};
ghost use Rattle.trace_check.specs.Readings.{AreTraced};
ghost use Rattle.trace_check.specs.declared.rule.Rule.TheVariants.{A};

use arrayvec::ArrayVec;
use slp_frames::{MAX_PACKET, SlpReader};
use trace_text::{Fate, Frame};

// Whether no frame stands behind one that ends the run.
pub(crate) fn end_at_last(frames: &[Frame]) -> bool
    requires { AreTraced 1 (map frame_value frames.now) }
    ensures { IsTrue result ↔ Keeps A (map frame_value frames.now) }
{
    let mut ended = false;
    for frame in frames {
        if ended {
            return false;
        }
        ended = ends_run(frame);
    }
    true
}

fn ends_run(frame: &Frame) -> bool
    requires { 0 < length frame.now.bytes.items }
    ensures { result ≡ fates.ends_run (fate_value frame.now.fate) frame.now.bytes.items }
{
    let bytes = frame.bytes.as_slice();
    match &frame.fate {
        Fate::Unplug | Fate::Abort => true,
        Fate::Ok | Fate::Lost | Fate::Late => false,
        Fate::Cut(count) => holds_packet(&bytes[..usize::from(*count) % bytes.len()]),
        Fate::Hit(place, mask) => holds_packet(hit(bytes, *place, mask.as_slice()).as_slice()),
        Fate::Noise(noise) => holds_packet(noise.as_slice()),
    }
}

// The bytes with the mask xored over those from this place on, modulo their number.
fn hit(bytes: &[u8], place: u16, mask: &[u8]) -> ArrayVec<u8, MAX_PACKET>
    requires some { 0 < length bytes.now }
    requires short { length bytes.now ≤ 1040 }
    ensures { result.items ≡ hit_at place mask.now bytes.now }
{
    let place = usize::from(place) % bytes.len();
    let mut out = ArrayVec::new();
    append_xored(&mut out, &[], &bytes[..place]);
    append_xored(&mut out, mask, &bytes[place..]);
    out
}

// Appends bytes with the mask xored over the first of them.
fn append_xored(out: &mut ArrayVec<u8, MAX_PACKET>, mask: &[u8], bytes: &[u8])
    requires { array_vec_len out.old + length bytes.now ≤ 1040 }
    ensures { out.new.items ≡ out.old.items ++ xored mask.now bytes.now }
{
    for place in 0..bytes.len() {
        let over = mask.get(place).copied().unwrap_or(0);
        out.push(bytes[place] ^ over);
    }
}

fn holds_packet(bytes: &[u8]) -> bool
    requires { length bytes.now ≤ 1040 }
    ensures { result ≡ fates.holds_packet bytes.now }
{
    let mut reader = SlpReader::new();
    reader.feed(bytes);
    reader.next().is_some()
}
