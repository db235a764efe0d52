//! The reader of packets.
ghost use Rattle.std.specs.Prelude.{◌≡◌, ◌-◌, ◌≤◌, ◌++◌, min, List, [], ℕ, take, length};
ghost use Rattle.std.specs.Borrow.{sem};
ghost use Rattle.slp_frames.specs.PacketText.{PacketValue, text_len};
ghost use Rattle.slp_frames.specs.PacketScan.{fields_at, packet_at};
ghost use Rattle.slp_frames.specs.PacketValues.{lent_value};
ghost use Rattle.slp_frames.specs.Histories.{Continues, HandsOutNext, raised};

use crate::packet::{CRC_LEN, DEST, HEADER_LEN, ID, KIND, MAX_PACKET, PacketLent, SOURCE, append};
use crate::place::find_packet;
use crate::tally::Tally;
use arrayvec::ArrayVec;
use std::marker::Model;

/// Finds the packets in a stream of bytes that comes in any pieces, and keeps no more of it than the
/// longest packet has. A place of the stream that can't begin a packet is passed by one byte, so that
/// a packet inside a broken one is found.
#[derive(Drop)]
pub struct SlpReader {
    buffer: ArrayVec<u8, MAX_PACKET>,
    // How many bytes of the buffer are in packets that were handed out, or can't be in one.
    passed: usize,
    tally: Tally,
}

impl Model for SlpReader {
    ghost use Rattle.std.specs.Prelude.{◌≤◌, length, drop};
    ghost use Rattle.slp_frames.specs.Readers.{ReaderValue};

    ghost Value = { ReaderValue };

    ghost view = { λ reader. record {
      held = drop reader.passed reader.buffer.items;
      tally = reader.tally;
    } };

    ghost invariant = { λ reader. reader.passed ≤ length reader.buffer.items };
}

impl SlpReader {
    /// A reader that took nothing.
    pub fn new() -> Self
        ensures held { result.held ≡ [] }
        ensures begins { Continues [] [] result.held }
        ensures tally { result.tally ≡ record { bytes = 0; packets = 0 } }
    {
        SlpReader {
            buffer: ArrayVec::new(),
            passed: 0,
            tally: Tally::new(),
        }
    }

    /// Takes as many bytes of the piece as there is room for, and answers how many. That is at least
    /// one of a piece that isn't empty where `next` answered None last.
    pub fn feed(&mut self, piece: &[u8]) -> usize
        ensures count { result ≡ min (length piece.now) (1040 - length self.old.held) }
        ensures held { self.new.held ≡ self.old.held ++ take result piece.now }
        ensures continues { (taken : List ℕ) (handed : List PacketValue) →
            Continues taken handed self.old.held
            → Continues (taken ++ take result piece.now) handed self.new.held }
        ensures tally { self.new.tally ≡ record self.old.tally
            { bytes = raised self.old.tally.bytes result } }
    {
        self.buffer.drain(..self.passed);
        self.passed = 0;
        let count = piece.len().min(self.buffer.remaining_capacity());
        append(&mut self.buffer, &piece[..count]);
        self.tally.add_bytes(count);
        count
    }

    /// Hands out the next packet. None comes exactly where the bytes that were taken since the last gap
    /// hold no further one; there is room for at least one byte then.
    pub fn next(&mut self) -> Option<PacketLent<'_>>
        ensures* hands_out { sem 𝓛 (HandsOutNext self.entry result) }
    {
        let held = &self.buffer.as_slice()[self.passed..];
        let found = find_packet(held);
        self.passed += found.place;
        let Some(size) = found.size else {
            return None;
        };
        self.passed += HEADER_LEN + size + CRC_LEN;
        self.tally.add_packet();
        Some(packet_at(&held[found.place..], size))
    }

    /// Drops all that was taken and not handed out.
    pub fn gap(&mut self)
        ensures held { self.new.held ≡ [] }
        ensures begins { Continues [] [] self.new.held }
        ensures tally { self.new.tally ≡ self.old.tally }
    {
        self.buffer.clear();
        self.passed = 0;
    }

    /// The bytes that were taken, and are neither in a packet that was handed out nor passed by. A new reader that is fed with
    /// them goes on as this one does.
    pub fn held(&self) -> &[u8]
        ensures { result.now ≡ self.now.held }
    {
        &self.buffer.as_slice()[self.passed..]
    }

    /// The bytes that were taken and the packets that were handed out since the reader was made.
    pub fn tally(&self) -> Tally
        ensures { result ≡ self.now.tally }
    {
        self.tally
    }
}

/// The packet whose text these bytes begin with, and whose body has this size.
#[tactic(auto, unfolding(crate::specs::PacketScan::fields_at))]
fn packet_at(text: &[u8], size: usize) -> PacketLent<'_>
    requires size { size ≡ (fields_at text.now).size }
    requires long { text_len size ≤ length text.now }
    ensures { lent_value result ≡ packet_at text.now }
{
    PacketLent {
        dest: text[DEST],
        source: text[SOURCE],
        kind: text[KIND],
        id: text[ID],
        body: &text[HEADER_LEN..HEADER_LEN + size],
    }
}
