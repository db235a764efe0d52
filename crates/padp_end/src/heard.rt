//! What an end heard.

/// What an end heard in a packet.
#[derive(Clone, Copy, Debug)]
pub enum Heard {
    /// Nothing to act on.
    Nothing,
    /// A sign of life.
    Tickle,
    /// The acknowledgement of the last piece of its own message.
    Delivered,
    /// The last piece of the message that it awaited: the message is whole.
    Message,
    /// The end of the connection.
    Stop,
}
