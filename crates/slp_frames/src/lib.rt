//! Packets of the serial link protocol (SLP) of Palm handhelds, as pilot-link has it.
//!
//! A packet is a header of ten bytes with a check sum, a body of at most 1,028 bytes and a CRC of
//! both. `write_packet` gives its bytes. `SlpReader` finds the packets in a stream of bytes, whatever
//! noise stands between them and in whatever pieces the stream comes, from one buffer as long as the
//! longest packet. `read_pieces` hands the packets of a whole stream to a `PacketSink`.
//!
//! A reader is fed the bytes that come, and asked for packets until there is none (`part_cases` has these
//! lines); then it is fed those that it did not take, since `feed` answers how many it took:
//!
//! ```text
//! ends.reader = SlpReader::new();
//! ends.reader.feed(&bytes)
//! match reader.next() {
//!     Some(packet) => {
//!         let body = hex::encode(alloc, packet.body)?;
//! ```
//!
//! No call takes memory. Which packets a stream holds is said by `specs/Places.antt`.
#![tactic(auto)]

mod checksum;
mod laws;
mod packet;
mod place;
mod reader;
mod stream;
mod tally;

pub use checksum::crc;
pub use laws::{
    a_cut_text_holds_no_packet, dead_stays_dead, scan_begins_longer_scan, scan_is_by_places,
    text_determines_packet, text_is_scanned,
};
pub use packet::{
    CRC_LEN, HEADER_LEN, MAX_BODY, MAX_PACKET, Packet, PacketLent, SYNC, write_packet,
};
pub use reader::SlpReader;
pub use stream::{PacketSink, read_pieces};
pub use tally::Tally;
