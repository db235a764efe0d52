//! What a packet is for the end that it arrived at.
use crate::fragment::Fragment;
use crate::piece::Key;

/// The socket that packets of this protocol go to, that of the desktop link protocol in pilot-link's `pi-slp.h`.
pub const SOCKET: u8 = 3;

/// The type of the packets that bear fragments, that of PADP in pilot-link's `pi-slp.h`.
pub const PACKET_TYPE: u8 = 2;

/// What a packet that arrived is for an end.
#[derive(Clone, Copy)]
pub enum Arrived<'a> {
    /// Nothing: it goes to another socket, it is of another type, or its body is no fragment.
    Drop,
    /// A sign of life.
    Tickle,
    /// The end of the connection.
    Stop,
    /// The acknowledgement of the data fragment with this key.
    Ack(Key),
    /// A data fragment in a packet of this transaction.
    Data(u8, Fragment<'a>),
}
