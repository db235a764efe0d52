// What a frame bears.
ghost use Rattle.std.specs.Prelude.{◌≡◌, ◌≤◌, ◌↔◌, IsTrue, IfSome, IfNone, ℕ, length, map};
ghost use Rattle.slp_frames.specs.PacketText.{PacketValue};
ghost use Rattle.slp_frames.specs.PacketValues.{lent_value};
ghost use Rattle.padp_link.specs.FragmentText.{FragmentValue};
ghost use Rattle.padp_link.specs.FragmentValues.{fragment_value};
ghost use Rattle.trace_text.specs.Fates.{fate_value};
ghost use Rattle.trace_text.specs.Frames.{BearsFragment, MayBear};
ghost use Rattle.trace_text.specs.TraceLines.{frame_value};
ghost use Rattle.trace_check.specs.Bearing.{IsPacket, Bears};
ghost use Rattle.trace_check.specs.Judging.{Keeps};
ghost use Rattle.trace_check.specs.declared.rule.Rule.TheVariants.{B};

use padp_link::{Fragment, PACKET_TYPE, PadpKind, SOCKET, read_fragment};
use slp_frames::{CRC_LEN, HEADER_LEN, PacketLent, SlpReader};
use trace_text::{Fate, Frame};

// The places of the fields in a packet's header.
const DEST: usize = 3;

const SOURCE: usize = 4;

const KIND: usize = 5;

const ID: usize = 8;

// The fragment in a packet, and the packet's transaction.
#[derive(Clone, Copy)]
pub(crate) struct Borne<'a> {
    pub(crate) id: u8,
    pub(crate) fragment: Fragment<'a>,
}

// Whether each frame bears a fragment in a packet.
pub(crate) fn bear_fragments(frames: &[Frame]) -> bool
    ensures { IsTrue result ↔ Keeps B (map frame_value frames.now) }
{
    for frame in frames {
        if !bears_fragment(frame) {
            return false;
        }
    }
    true
}

fn bears_fragment(frame: &Frame) -> bool
    ensures { IsTrue result ↔ BearsFragment (frame_value frame.now) }
{
    match borne_in(frame.bytes.as_slice()) {
        Some(borne) => may_bear(&frame.fate, borne.fragment.kind),
        None => false,
    }
}

// Whether a frame of this fate may bear a fragment of this kind.
fn may_bear(fate: &Fate, kind: PadpKind) -> bool
    ensures { IsTrue result ↔ MayBear (fate_value fate.now) kind }
{
    match kind {
        PadpKind::Data | PadpKind::Ack => true,
        PadpKind::Tickle => false,
        PadpKind::Abort => matches!(fate, Fate::Abort),
    }
}

// What these bytes bear, if they are a packet between the sockets of the link with a fragment.
pub(crate) fn borne_in(bytes: &[u8]) -> Option<Borne<'_>>
    requires { length bytes.now ≤ 1040 }
    ensures some { IfSome result (λ borne.
        Bears bytes.now borne.id (fragment_value borne.fragment)) }
    ensures none { IfNone result ((id : ℕ) (fragment : FragmentValue) →
        ¬ (Bears bytes.now id fragment)) }
{
    let packet = packet_in(bytes)?;
    if packet.dest != SOCKET || packet.source != SOCKET || packet.kind != PACKET_TYPE {
        return None;
    }
    let Ok(fragment) = read_fragment(packet.body) else {
        return None;
    };
    Some(Borne {
        id: packet.id,
        fragment,
    })
}

// The packet whose text these bytes are.
fn packet_in(bytes: &[u8]) -> Option<PacketLent<'_>>
    requires { length bytes.now ≤ 1040 }
    ensures some { IfSome result (λ packet. IsPacket bytes.now (lent_value packet)) }
    ensures none { IfNone result ((packet : PacketValue) → ¬ (IsPacket bytes.now packet)) }
{
    if !is_packet(bytes) {
        return None;
    }
    Some(PacketLent {
        dest: bytes[DEST],
        source: bytes[SOURCE],
        kind: bytes[KIND],
        id: bytes[ID],
        body: &bytes[HEADER_LEN..bytes.len() - CRC_LEN],
    })
}

// Whether these bytes are the text of a packet.
fn is_packet(bytes: &[u8]) -> bool
    requires { length bytes.now ≤ 1040 }
    ensures { IsTrue result ↔ ((packet : PacketValue) × IsPacket bytes.now packet) }
{
    let mut reader = SlpReader::new();
    reader.feed(bytes);
    match reader.next() {
        Some(packet) => HEADER_LEN + packet.body.len() + CRC_LEN == bytes.len(),
        None => false,
    }
}
