//! A packet and its bytes, as in pilot-link's `pi-slp.h`: BE EF ED, the destination and source sockets,
//! the type of the body, its size in two bytes, the transaction's id and the sum of these nine bytes,
//! then the body and the CRC of all before it in two bytes. Numbers have their higher byte first.
ghost use Rattle.std.specs.Prelude.{◌≡◌, ◌+◌, ◌≤◌, ◌++◌, ◌∷◌, [], length};
ghost use Rattle.arrayvec.specs.ArrayVec.{array_vec_len};
ghost use Rattle.slp_frames.specs.PacketText.{header_text, packet_text, HasText};
ghost use Rattle.slp_frames.specs.PacketScan.{scan};
ghost use Rattle.slp_frames.specs.PacketValues.{packet_value};

use crate::checksum::crc;
use arrayvec::ArrayVec;
use byteorder::{BigEndian, ByteOrder};

/// The bytes that each packet begins with.
pub const SYNC: [u8; 3] = [0xBE, 0xEF, 0xED];

/// How many bytes a header has.
pub const HEADER_LEN: usize = 10;

/// How many bytes the CRC behind the body has.
pub const CRC_LEN: usize = 2;

/// How many bytes a body has at most.
pub const MAX_BODY: usize = 1028;

/// How many bytes a packet has at most.
pub const MAX_PACKET: usize = 1040;

// The places of the fields in a header.
pub(crate) const DEST: usize = 3;

pub(crate) const SOURCE: usize = 4;

pub(crate) const KIND: usize = 5;

pub(crate) const SIZE: usize = 6;

pub(crate) const ID: usize = 8;

pub(crate) const SUM: usize = 9;

/// A packet: the sockets that it goes to and comes from, the type of its body, the transaction's id
/// and the body.
#[derive(Drop)]
pub struct Packet {
    pub dest: u8,
    pub source: u8,
    pub kind: u8,
    pub id: u8,
    pub body: ArrayVec<u8, MAX_BODY>,
}

/// A packet whose body lies in a buffer.
#[derive(Clone, Copy)]
pub struct PacketLent<'a> {
    pub dest: u8,
    pub source: u8,
    pub kind: u8,
    pub id: u8,
    pub body: &'a [u8],
}

/// Replaces `out` by the text of the packet.
#[tactic(auto, unfolding(crate::specs::PacketText::packet_text))]
pub fn write_packet(packet: &Packet, out: &mut ArrayVec<u8, MAX_PACKET>)
    ensures text { out.new.items ≡ packet_text (packet_value packet.now) }
    ensures read_back { scan out.new.items ≡ packet_value packet.now ∷ [] }
    ensures has_text { HasText (packet_value packet.now) }
{
    let body = packet.body.as_slice();
    let size = body.len() as u16;
    let header = write_header(packet.dest, packet.source, packet.kind, size, packet.id);
    out.clear();
    append(out, &header);
    append(out, body);
    let end = crc(out.as_slice()).to_be_bytes();
    append(out, &end);
}

/// The header with these fields.
#[tactic(auto, unfolding(crate::specs::PacketText::header_text))]
pub(crate) fn write_header(dest: u8, source: u8, kind: u8, size: u16, id: u8) -> [u8; HEADER_LEN]
    ensures { result ≡ header_text (record
        { dest = dest; source = source; kind = kind; size = size; id = id }) }
{
    let mut header = [SYNC[0], SYNC[1], SYNC[2], dest, source, kind, 0, 0, id, 0];
    BigEndian::write_u16(&mut header[SIZE..], size);
    let sum: u16 = header[..SUM].iter().map(|byte| u16::from(*byte)).sum();
    header[SUM] = (sum % 256) as u8;
    header
}

/// Appends bytes for which there is room.
pub(crate) fn append<const N: usize>(out: &mut ArrayVec<u8, N>, bytes: &[u8])
    requires { array_vec_len out.old + length bytes.now ≤ N }
    ensures { out.new.items ≡ out.old.items ++ bytes.now }
{
    let _fits = out.try_extend_from_slice(bytes).is_ok();
}
