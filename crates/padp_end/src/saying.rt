//! Packets that an end says.
ghost use Rattle.std.specs.Prelude.{◌≡◌, ◌+◌, ◌≤◌, ◌<◌, ◌++◌, ◌∷◌, [], length};
ghost use Rattle.arrayvec.specs.ArrayVec.{array_vec_len};
ghost use Rattle.padp_link.specs.FragmentText.{IsFragment};
ghost use Rattle.padp_link.specs.FragmentValues.{fragment_value};
ghost use Rattle.padp_link.specs.Pieces.{fragment_of};
ghost use Rattle.trace_text.specs.Frames.{padp_packet};
ghost use Rattle.padp_end.specs.Outgoings.{abort, acknowledgement, said_text};

use arrayvec::ArrayVec;
use padp_link::{FIRST, Fragment, Key, LAST, PACKET_TYPE, PadpKind, Piece, SOCKET, write_fragment};
use slp_frames::{MAX_PACKET, Packet, write_packet};

/// How many bytes an end says at most before it is handed another packet: an acknowledgement of 16 and the longest packet.
pub const MAX_SAID: usize = 1056;

/// Appends the packet of this transaction with this fragment.
fn say(id: u8, fragment: &Fragment<'_>, out: &mut ArrayVec<u8, MAX_SAID>)
    requires fragment { IsFragment (fragment_value fragment.now) }
    requires room { array_vec_len out.old + length fragment.now.bytes.now + 16 ≤ 1056 }
    ensures { out.new.items
        ≡ out.old.items ++ padp_packet id (fragment_value fragment.now) }
{
    let mut body = ArrayVec::new();
    write_fragment(fragment, &mut body);
    let packet = Packet {
        dest: SOCKET,
        source: SOCKET,
        kind: PACKET_TYPE,
        id,
        body,
    };
    let mut bytes: ArrayVec<u8, MAX_PACKET> = ArrayVec::new();
    write_packet(&packet, &mut bytes);
    append(out, bytes.as_slice());
}

/// Appends bytes for which there is room.
fn append(out: &mut ArrayVec<u8, MAX_SAID>, bytes: &[u8])
    requires { array_vec_len out.old + length bytes.now ≤ 1056 }
    ensures { out.new.items ≡ out.old.items ++ bytes.now }
{
    let _fits = out.try_extend_from_slice(bytes).is_ok();
}

/// Appends a piece of this message.
pub(crate) fn say_piece(message: &[u8], piece: Piece, out: &mut ArrayVec<u8, MAX_SAID>)
    requires inside { piece.place + piece.length ≤ length message.now }
    requires fragment { IsFragment (fragment_of message.now piece) }
    requires short { piece.length ≤ 1024 }
    requires room { array_vec_len out.old ≤ 16 }
    ensures { out.new.items
        ≡ out.old.items ++ padp_packet piece.key.id (fragment_of message.now piece) }
{
    let fragment = fragment_with(message, piece);
    say(piece.key.id, &fragment, out);
}

/// The fragment of a piece of this message.
fn fragment_with(message: &[u8], piece: Piece) -> Fragment<'_>
    requires { piece.place + piece.length ≤ length message.now }
    ensures value { fragment_value result ≡ fragment_of message.now piece }
    ensures length { length result.bytes.now ≤ piece.length }
{
    let place = usize::from(piece.place);
    let end = place + usize::from(piece.length);
    Fragment {
        kind: PadpKind::Data,
        flags: piece.key.flags,
        size: piece.key.size,
        bytes: &message[place..end],
    }
}

/// Appends the acknowledgement of the data fragment with this key.
pub(crate) fn say_ack(key: Key, out: &mut ArrayVec<u8, MAX_SAID>)
    requires fragment { key.flags < 256 → IsFragment (acknowledgement key).fragment }
    requires room { array_vec_len out.old ≤ 16 }
    ensures { out.new.items
        ≡ out.old.items ++ said_text (acknowledgement key ∷ []) }
{
    let fragment = Fragment {
        kind: PadpKind::Ack,
        flags: key.flags,
        size: key.size,
        bytes: &[],
    };
    say(key.id, &fragment, out);
}

/// The packet that ends the connection, under this transaction.
pub fn abort_packet(id: u8) -> ArrayVec<u8, MAX_SAID>
    ensures { result.items ≡ said_text (abort id ∷ []) }
{
    let mut out = ArrayVec::new();
    let fragment = Fragment {
        kind: PadpKind::Abort,
        flags: FIRST + LAST,
        size: 0,
        bytes: &[],
    };
    say(id, &fragment, &mut out);
    out
}
