// What a frame bears.
ghost use Rattle.std.specs.Prelude.{◌≡◌, slice_index, drop};
ghost use Rattle.byteorder.specs.Endian.{big_number};
ghost use Rattle.slp_frames.specs.PacketScan.{packet_at};
ghost use Rattle.padp_link.specs.FragmentFaults.{kind_said};
ghost use Rattle.trace_page.specs.Bearings as bearings;

use padp_link::{FIRST, Key, LAST, PadpKind};

// The places of a packet's fields, and of those of the fragment in its body.
const BODY_SIZE: usize = 6;

const ID: usize = 8;

const BODY: usize = 10;

const KIND: usize = 0;

const FLAGS: usize = 1;

const SIZE: usize = 2;

const DATA: usize = 4;

// The place of the error in a reply.
const ERROR: usize = 2;

// The transaction of the greetings.
const GREETING: u8 = 0xFF;

/// What a frame bears: a fragment's key and kind, how many bytes of a message it has, the first of them,
/// and the error that they say where a reply begins with them.
#[derive(Clone, Copy)]
pub(crate) struct Bearing {
    pub key: Key,
    pub kind: PadpKind,
    pub length: usize,
    pub front: u8,
    pub error: u16,
}

impl Bearing {
    /// What these bytes of a frame bear.
    #[tactic(auto, unfolding(crate::specs::Bearings::borne, slp_frames::specs::PacketScan::fields_at))]
    pub(crate) fn of(bytes: &[u8]) -> Bearing
        ensures { result ≡ bearings.borne bytes.now }
    {
        let body = body_of(bytes);
        let data = behind(body, DATA);
        Bearing {
            key: Key {
                id: byte_at(bytes, ID),
                flags: byte_at(body, FLAGS),
                size: number_of(behind(body, SIZE)),
            },
            kind: kind_of(byte_at(body, KIND)),
            length: data.len(),
            front: byte_at(data, 0),
            error: number_of(behind(data, ERROR)),
        }
    }

    /// Whether it bears the first part of a message.
    pub(crate) fn begins_message(&self) -> bool
        ensures { result ≡ bearings.begins_message self.now }
    {
        self.key.flags & FIRST != 0
    }

    /// Whether it bears the last part of a message.
    pub(crate) fn ends_message(&self) -> bool
        ensures { result ≡ bearings.ends_message self.now }
    {
        self.key.flags & LAST != 0
    }

    /// Whether it belongs to a greeting.
    pub(crate) fn is_greeting(&self) -> bool
        ensures { result ≡ bearings.is_greeting self.now }
    {
        self.key.id == GREETING
    }
}

// The body of a packet, as far as it is there.
#[tactic(auto, unfolding(slp_frames::specs::PacketScan::fields_at))]
fn body_of(bytes: &[u8]) -> &[u8]
    ensures { result.now ≡ (packet_at bytes.now).body }
{
    let size = usize::from(number_of(behind(bytes, BODY_SIZE)));
    let rest = behind(bytes, BODY);
    &rest[..size.min(rest.len())]
}

// The bytes from a place on.
fn behind(bytes: &[u8], place: usize) -> &[u8]
    ensures { result.now ≡ drop place bytes.now }
{
    &bytes[place.min(bytes.len())..]
}

// The byte at a place, 0 where there is none.
fn byte_at(bytes: &[u8], place: usize) -> u8
    ensures { result ≡ slice_index bytes.now place }
{
    if place < bytes.len() { bytes[place] } else { 0 }
}

// The number in the first two bytes.
fn number_of(bytes: &[u8]) -> u16
    ensures { result ≡ big_number 2 bytes.now }
{
    u16::from(byte_at(bytes, 0)) * 256 + u16::from(byte_at(bytes, 1))
}

fn kind_of(code: u8) -> PadpKind
    ensures { result ≡ kind_said code }
{
    match code {
        1 => PadpKind::Data,
        2 => PadpKind::Ack,
        4 => PadpKind::Tickle,
        _ => PadpKind::Abort,
    }
}
