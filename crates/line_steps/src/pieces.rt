//! The frames that an end sends.
ghost use Rattle.std.specs.Prelude.{◌≡◌, ◌<◌, [], OnOk, IfErr, None, Some};
ghost use Rattle.padp_link.specs.declared.fragment.PadpKind.TheVariants.{Ack};
ghost use Rattle.padp_link.specs.FragmentText.{IsFragment};
ghost use Rattle.padp_link.specs.FragmentValues.{fragment_value};
ghost use Rattle.padp_link.specs.Senders.{Waits, waiting};
ghost use Rattle.trace_text.specs.Fates.{fate_value};
ghost use Rattle.line_laws.specs.Core.{part_now};
ghost use Rattle.line_steps.specs.Rooms.{WantsRoom};
ghost use Rattle.line_steps.specs.Running.{IsHalf, side_of};
ghost use Rattle.line_steps.specs.Sending.{Sends, Halts, ack_fragment};

use crate::half::{Half, Wire};
use crate::sending::{Halt, send};
use padp_link::{Fragment, Key, PadpKind, Piece};
use trace_text::{End, Fate};

/// Sends the waiting piece of an end's message.
pub(crate) fn send_piece(wire: &mut Wire, half: &Half, fate: &Fate) -> Result<(), Halt>
    requires waits { Waits half.now.sender }
    requires half { IsHalf half.now }
    ensures ok { OnOk result
        (Sends wire.old.frames.items half.now.end half.now.sender.id (part_now (side_of half.now))
        (fate_value fate.now) None wire.new.frames.items) }
    ensures halt { IfErr result
        (λ halt. Halts wire.old.frames.items half.now.end half.now.sender.id (part_now
        (side_of half.now)) (fate_value fate.now) halt wire.new.frames.items) }
    ensures released { wire.new.released ≡ wire.old.released }
    ensures room { WantsRoom result wire.old.frames wire.new.frames }
{
    let Some(piece) = half.sender.current() else {
        return Ok(());
    };
    send(
        &mut wire.frames,
        half.end,
        piece.key.id,
        &fragment_with(half, piece),
        fate,
    )
}

/// The fragment of the waiting piece.
fn fragment_with(half: &Half, piece: Piece) -> Fragment<'_>
    requires waits { waiting half.now.sender ≡ Some piece }
    requires half { IsHalf half.now }
    ensures part { fragment_value result ≡ part_now (side_of half.now) }
    ensures fragment { IsFragment (fragment_value result) }
    ensures id { piece.key.id ≡ half.now.sender.id }
{
    let place = usize::from(piece.place);
    let end = place + usize::from(piece.length);
    Fragment {
        kind: PadpKind::Data,
        flags: piece.key.flags,
        size: piece.key.size,
        bytes: &half.message.bytes()[place..end],
    }
}

/// Sends the acknowledgement of the data fragment with this key.
pub(crate) fn send_ack(wire: &mut Wire, from: End, key: Key, fate: &Fate) -> Result<(), Halt>
    requires { key.flags < 256 → IsFragment (ack_fragment key) }
    ensures ok { OnOk result
        (Sends wire.old.frames.items from key.id (ack_fragment key)
        (fate_value fate.now) None wire.new.frames.items) }
    ensures halt { IfErr result (λ halt. Halts wire.old.frames.items from key.id
        (ack_fragment key) (fate_value fate.now) halt wire.new.frames.items) }
    ensures released { wire.new.released ≡ wire.old.released }
    ensures room { WantsRoom result wire.old.frames wire.new.frames }
{
    let fragment = ack_with(key.flags, key.size);
    send(&mut wire.frames, from, key.id, &fragment, fate)
}

/// The acknowledgement with these flags and this size.
fn ack_with(flags: u8, size: u16) -> Fragment<'static>
    ensures value { fragment_value result ≡ record {
      kind = Ack;
      flags = flags;
      size = size;
      bytes
          = [];
    } }
    ensures fits { flags < 256 }
{
    Fragment {
        kind: PadpKind::Ack,
        flags,
        size,
        bytes: &[],
    }
}
