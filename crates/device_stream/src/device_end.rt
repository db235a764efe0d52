//! How a run over a stream ends.

/// How a run over a stream ends.
#[derive(Clone, Copy, Debug)]
pub enum DeviceEnd {
    /// The reply to EndOfSync was acknowledged.
    Ended,
    /// The source failed.
    SourceRead,
    /// The sink failed.
    SinkWrite,
    /// The handheld's folder failed.
    Keeper,
    /// The source ended before the talk was over.
    StreamEnded,
    /// The other end ended the connection.
    StreamAborted,
    /// The first message of the other end is no init.
    BadHello,
    /// The talk wasn't over behind 67,108,865 bytes.
    TooLong,
    /// There was no memory.
    NoMemory,
}
