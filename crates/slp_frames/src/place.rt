//! What stands at a place of a stream.
ghost use Rattle.std.specs.Prelude.{◌≡◌, ◌≤◌, ◌<◌, [], length, drop};
ghost use Rattle.slp_frames.specs.FoundPlaces.{IsPlace, FindsAt};
ghost use Rattle.slp_frames.specs.Histories.{Continues};
ghost use Rattle.slp_frames.specs.PacketScan.{has_header, fields_at};

use crate::checksum::crc;
use crate::packet::{
    CRC_LEN, DEST, HEADER_LEN, ID, KIND, MAX_BODY, SIZE, SOURCE, SYNC, write_header,
};
use byteorder::{BigEndian, ByteOrder};

/// What stands at the front of bytes.
#[derive(Clone, Copy)]
pub(crate) enum Place {
    /// A packet's text, whose body has this size.
    Whole(usize),
    /// What may become a packet's text.
    Open,
    /// Neither, whatever follows.
    Dead,
}

/// The first place that isn't dead.
#[derive(Clone, Copy)]
pub(crate) struct Found {
    pub(crate) place: usize,
    /// The size of the body of the packet that stands there, if one does.
    pub(crate) size: Option<usize>,
}

/// The first place that isn't dead.
#[tactic(auto, using(crate::proofs::ScanLaws::passing))]
pub(crate) fn find_packet(bytes: &[u8]) -> Found
    ensures inside { result.place ≤ length bytes.now }
    ensures passed { Continues bytes.now [] (drop result.place bytes.now) }
    ensures found { FindsAt (drop result.place bytes.now) result.size }
{
    for place in 0..bytes.len() {
        match place_of(&bytes[place..]) {
            Place::Whole(size) => {
                return Found {
                    place,
                    size: Some(size),
                }
            }
            Place::Open => return Found { place, size: None },
            Place::Dead => {}
        }
    }
    Found {
        place: bytes.len(),
        size: None,
    }
}

/// What stands at the front of these bytes.
#[tactic(auto, using(crate::proofs::PlaceTests::long_places))]
pub(crate) fn place_of(bytes: &[u8]) -> Place
    ensures { IsPlace bytes.now result }
{
    if bytes.len() < HEADER_LEN {
        return short_place(bytes);
    }
    if !has_header(bytes) {
        return Place::Dead;
    }
    let size = usize::from(size_at(bytes));
    let end = HEADER_LEN + size;
    if bytes.len() < end + CRC_LEN {
        return Place::Open;
    }
    if bytes[end..].starts_with(&crc(&bytes[..end]).to_be_bytes()) {
        Place::Whole(size)
    } else {
        Place::Dead
    }
}

/// What stands at the front of bytes that are too few for a header.
#[tactic(auto, using(crate::proofs::PlaceTests::short_places))]
fn short_place(bytes: &[u8]) -> Place
    requires { length bytes.now < 10 }
    ensures { IsPlace bytes.now result }
{
    let front = &bytes[..SYNC.len().min(bytes.len())];
    if SYNC.starts_with(front) {
        Place::Open
    } else {
        Place::Dead
    }
}

/// Whether a packet's header stands at the front.
#[tactic(auto, unfolding(crate::specs::PacketScan::has_header, crate::specs::PacketScan::fields_at))]
fn has_header(bytes: &[u8]) -> bool
    requires { 10 ≤ length bytes.now }
    ensures { result ≡ has_header bytes.now }
{
    let size = size_at(bytes);
    let header = write_header(bytes[DEST], bytes[SOURCE], bytes[KIND], size, bytes[ID]);
    usize::from(size) <= MAX_BODY && bytes.starts_with(&header)
}

/// The size that a header at the front announces.
#[tactic(auto, unfolding(crate::specs::PacketScan::fields_at))]
fn size_at(bytes: &[u8]) -> u16
    requires { 10 ≤ length bytes.now }
    ensures { result ≡ (fields_at bytes.now).size }
{
    BigEndian::read_u16(&bytes[SIZE..])
}
