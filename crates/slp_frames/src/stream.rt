//! A whole stream, read packet by packet.
ghost use Rattle.std.specs.Prelude.{◌≡◌, ◌<◌, ◌++◌, ◌∷◌, [], List, ℕ, length, OnOk, OnErr};
ghost use Rattle.std.specs.List.{flat_map};
ghost use Rattle.slp_frames.specs.PacketText.{PacketValue, HasText};
ghost use Rattle.slp_frames.specs.PacketScan.{scan};
ghost use Rattle.slp_frames.specs.PacketValues.{lent_value};
ghost use Rattle.slp_frames.specs.Streams.{Gains, GainsFront, IsDrained};

use crate::packet::PacketLent;
use crate::reader::SlpReader;

/// Takes packets, one after the other.
pub trait PacketSink {
    /// Why a packet isn't taken.
    type Fault;

    /// The packets that it took so far.
    ghost taken: { Self → List PacketValue };

    /// Takes one more packet, or refuses it and has what it had.
    fn take(&mut self, packet: PacketLent<'_>) -> Result<(), Self::Fault>
        requires { HasText (lent_value packet) }
        ensures ok { OnOk result (taken self.new ≡ taken self.old ++ lent_value packet.entry ∷ []) }
        ensures err { OnErr result (taken self.new ≡ taken self.old) };
}

/// Hands each packet of a stream that comes in these pieces to the sink, up to the sink's first
/// fault.
pub fn read_pieces<S: PacketSink>(pieces: &[Vec<u8>], sink: &mut S) -> Result<(), S::Fault>
    ensures ok { OnOk result (S.taken sink.new ≡ S.taken sink.old
        ++ scan (flat_map (λ piece. piece.items) pieces.now)) }
    ensures err { OnErr result (GainsFront (flat_map (λ piece. piece.items) pieces.now)
        (S.taken sink.old) (S.taken sink.new)) }
{
    let mut reader = SlpReader::new();
    for piece in pieces {
        read_piece(&mut reader, piece, sink)?;
    }
    Ok(())
}

/// Hands the packets that this piece completes to the sink.
fn read_piece<S: PacketSink>(
    reader: &mut SlpReader,
    piece: &[u8],
    sink: &mut S,
) -> Result<(), S::Fault>
    requires { IsDrained reader.old.held }
    ensures ok { OnOk result (Gains (reader.old.held ++ piece.now) (S.taken sink.old)
        (S.taken sink.new) reader.new.held) }
    ensures drained { OnOk result (IsDrained reader.new.held) }
    ensures err { OnErr result (GainsFront (reader.old.held ++ piece.now) (S.taken sink.old)
        (S.taken sink.new)) }
{
    let mut rest = piece;
    while !rest.is_empty() {
        let count = reader.feed(rest);
        rest = &rest[count..];
        drain(reader, sink)?;
    }
    Ok(())
}

/// Hands the packets that the reader holds to the sink.
fn drain<S: PacketSink>(reader: &mut SlpReader, sink: &mut S) -> Result<(), S::Fault>
    ensures ok { OnOk result (Gains reader.old.held (S.taken sink.old)
        (S.taken sink.new) reader.new.held) }
    ensures drained { OnOk result (IsDrained reader.new.held) }
    ensures err { OnErr result (GainsFront reader.old.held (S.taken sink.old) (S.taken sink.new)) }
{
    while let Some(packet) = reader.next() {
        sink.take(packet)?;
    }
    Ok(())
}
