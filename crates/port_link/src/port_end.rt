//! How a handheld's end at a port ends.

/// How a handheld's end at a port ends.
#[derive(Clone, Copy, Debug)]
pub enum PortEnd {
    /// The reply to EndOfSync was acknowledged.
    Ended,
    /// The port failed.
    PortFailed,
    /// The handheld's folder failed.
    Keeper,
    /// A piece was said ten times, with a tick of silence behind each, and never acknowledged.
    LineDown,
    /// Thirty ticks in a row brought nothing.
    LineSilent,
    /// The other end ended the connection.
    Aborted,
    /// The first message of the other end is no init.
    BadHello,
    /// The talk wasn't over behind 67,108,865 packets, bytes and ticks.
    TooLong,
    /// There was no memory.
    NoMemory,
}
