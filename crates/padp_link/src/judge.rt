//! The judge of the packets that arrive: both ends go by it alone.
ghost use Rattle.padp_link.specs.Arrivals.{HasArrived};

use crate::arrival::{Arrived, PACKET_TYPE, SOCKET};
use crate::fragment::{PadpKind, read_fragment};

/// What a packet to this socket, of this type and transaction and with this body is for an end.
pub fn arrived(dest: u8, kind: u8, id: u8, body: &[u8]) -> Arrived<'_>
    ensures { HasArrived dest kind id body.now result }
{
    if dest != SOCKET || kind != PACKET_TYPE {
        return Arrived::Drop;
    }
    let Ok(fragment) = read_fragment(body) else {
        return Arrived::Drop;
    };
    match fragment.kind {
        PadpKind::Data => Arrived::Data(id, fragment),
        PadpKind::Ack => Arrived::Ack(fragment.key(id)),
        PadpKind::Tickle => Arrived::Tickle,
        PadpKind::Abort => Arrived::Stop,
    }
}
