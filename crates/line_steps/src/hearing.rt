//! What an end makes of bytes that arrive.
ghost use Rattle.std.specs.Prelude.{◌≡◌, ◌≤◌, ◌<◌, ℕ, [], length, false};
ghost use Rattle.slp_frames.specs.PacketScan.{scan};
ghost use Rattle.padp_link.specs.Arrivals.{Bears};
ghost use Rattle.padp_link.specs.FragmentText.{FragmentValue, FragmentText, fragment_text};
ghost use Rattle.trace_text.specs.Fates.{ends_run, strange_bytes};
ghost use Rattle.trace_text.specs.Frames.{padp_packet};
ghost use Rattle.trace_text.specs.Lent.{lent_frame};
ghost use Rattle.line_steps.specs.Hearing.{Hears, Silent, tally_after};
ghost use Rattle.line_steps.specs.Running.{MovesReader};

use crate::half::Half;
use crate::harm::write_strange;
use arrayvec::ArrayVec;
use padp_link::{Arrived, Key, Receiver, Taken, arrived};
use slp_frames::{PacketLent, SlpReader};
use trace_text::FrameLent;

/// What an end heard.
#[derive(Clone, Copy)]
pub enum Heard {
    /// No packet, or one that bears neither data nor an acknowledgement.
    Nothing,
    /// The acknowledgement of the data fragment with this key.
    Ack(Key),
    /// The data fragment with this key, and what its receiver made of it.
    Data(Key, Taken),
}

/// Gives bytes that hold at most one packet to an end, with a gap behind them.
pub fn hear(reader: &mut SlpReader, receiver: &mut Receiver, bytes: &[u8]) -> Heard
    requires gap { reader.old.held ≡ [] }
    requires short { length bytes.now ≤ 1040 }
    ensures silent { scan bytes.now ≡ [] → Silent receiver.old result receiver.new }
    ensures hears { (id : ℕ) (fragment : FragmentValue) → bytes.now ≡ padp_packet id fragment →
        FragmentText fragment (fragment_text fragment)
        → Hears receiver.old id fragment result receiver.new }
    ensures gap { reader.new.held ≡ [] }
    ensures tally { reader.new.tally ≡ tally_after reader.old.tally bytes.now }
{
    reader.feed(bytes);
    let heard = match reader.next() {
        Some(packet) => take_packet(receiver, packet),
        None => Heard::Nothing,
    };
    reader.gap();
    heard
}

/// Gives an end what the line left of a frame of the other end, or the noise in front of it.
pub(crate) fn hear_harm(frame: FrameLent<'_>, half: &mut Half)
    requires gap { half.old.reader.held ≡ [] }
    requires goes { ends_run (lent_frame frame).fate (lent_frame frame).bytes ≡ false }
    requires some { 0 < length (lent_frame frame).bytes }
    ensures read { MovesReader half.old half.new }
    ensures gap { half.new.reader.held ≡ [] }
    ensures tally { half.new.reader.tally ≡
        tally_after half.old.reader.tally (strange_bytes
        (lent_frame frame.entry).fate (lent_frame frame.entry).bytes) }
{
    let mut harm = ArrayVec::new();
    write_strange(frame.fate, frame.bytes, &mut harm);
    hear(&mut half.reader, &mut half.receiver, harm.as_slice());
}

/// Takes a packet.
fn take_packet(receiver: &mut Receiver, packet: PacketLent<'_>) -> Heard
    ensures { (fragment : FragmentValue) → Bears packet.entry.dest packet.entry.kind
        packet.entry.body.now fragment →
        Hears receiver.old packet.entry.id fragment result receiver.new }
{
    match arrived(packet.dest, packet.kind, packet.id, packet.body) {
        Arrived::Ack(key) => Heard::Ack(key),
        Arrived::Data(id, fragment) => {
            let key = fragment.key(id);
            Heard::Data(key, receiver.on_data(id, &fragment))
        }
        Arrived::Drop | Arrived::Tickle | Arrived::Stop => Heard::Nothing,
    }
}
