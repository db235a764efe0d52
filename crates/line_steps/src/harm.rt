//! What a line does to the bytes of a frame.
ghost use Rattle.std.specs.Prelude.{◌≡◌, ◌≤◌, ◌<◌, ◌+◌, ◌++◌, length};
ghost use Rattle.arrayvec.specs.ArrayVec.{array_vec_len};
ghost use Rattle.trace_text.specs.Fates as fates;
ghost use Rattle.trace_text.specs.Fates.{strange_bytes, xored};
ghost use Rattle.trace_text.specs.Lent.{lent_fate};
ghost use Rattle.line_steps.specs.Sending.{StopsBy};

use arrayvec::ArrayVec;
use slp_frames::{MAX_PACKET, SlpReader};
use trace_text::{FateKind, FateLent};

/// Why a run ends when a frame is to be sent.
#[derive(Clone, Copy)]
pub enum Stop {
    /// The cable was pulled.
    Unplugged,
    /// An abort packet stands in the frame's place.
    Aborted,
    /// What would arrive of it, or the noise in front of it, holds a packet.
    Undetected,
}

/// Why the run ends with a frame of this fate and these bytes, if it does.
pub(crate) fn stop_of(fate: FateLent<'_>, bytes: &[u8]) -> Option<Stop>
    requires some { 0 < length bytes.now }
    requires short { length bytes.now ≤ 1040 }
    ensures { StopsBy (lent_fate fate.entry) bytes.now result }
{
    match fate.kind {
        FateKind::Unplug => Some(Stop::Unplugged),
        FateKind::Abort => Some(Stop::Aborted),
        FateKind::Ok | FateKind::Lost | FateKind::Late => None,
        FateKind::Cut(_) | FateKind::Hit(_) | FateKind::Noise => {
            let mut harm = ArrayVec::new();
            write_strange(fate, bytes, &mut harm);
            if holds_packet(harm.as_slice()) {
                Some(Stop::Undetected)
            } else {
                None
            }
        }
    }
}

/// Replaces `out` by what arrives of a frame by itself and isn't the frame: what a cut or a hit leaves of it, or the noise in
/// front of it.
pub(crate) fn write_strange(fate: FateLent<'_>, bytes: &[u8], out: &mut ArrayVec<u8, MAX_PACKET>)
    requires some { 0 < length bytes.now }
    requires short { length bytes.now ≤ 1040 }
    ensures { out.new.items ≡ strange_bytes (lent_fate fate.entry) bytes.now }
{
    out.clear();
    match fate.kind {
        FateKind::Cut(count) => append(out, &bytes[..usize::from(count) % bytes.len()]),
        FateKind::Hit(place) => {
            let place = usize::from(place) % bytes.len();
            append(out, &bytes[..place]);
            append_xored(out, fate.bytes, &bytes[place..]);
        }
        FateKind::Noise => append(out, fate.bytes),
        FateKind::Ok | FateKind::Lost | FateKind::Late | FateKind::Unplug | FateKind::Abort => {}
    }
}

/// Appends bytes for which there is room.
fn append(out: &mut ArrayVec<u8, MAX_PACKET>, bytes: &[u8])
    requires { array_vec_len out.old + length bytes.now ≤ 1040 }
    ensures { out.new.items ≡ out.old.items ++ bytes.now }
{
    let _fits = out.try_extend_from_slice(bytes).is_ok();
}

/// Appends bytes with the mask xored over the first of them.
fn append_xored(out: &mut ArrayVec<u8, MAX_PACKET>, mask: &[u8], bytes: &[u8])
    requires { array_vec_len out.old + length bytes.now ≤ 1040 }
    ensures { out.new.items ≡ out.old.items ++ xored mask.now bytes.now }
{
    for place in 0..bytes.len() {
        let over = mask.get(place).copied().unwrap_or(0);
        out.push(bytes[place] ^ over);
    }
}

/// Whether these bytes hold a packet.
fn holds_packet(bytes: &[u8]) -> bool
    requires { length bytes.now ≤ 1040 }
    ensures { result ≡ fates.holds_packet bytes.now }
{
    let mut reader = SlpReader::new();
    reader.feed(bytes);
    reader.next().is_some()
}
