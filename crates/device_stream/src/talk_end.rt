//! How a talk is over.

/// How a talk is over.
#[derive(Clone, Copy, Debug)]
pub enum TalkEnd {
    /// The reply to EndOfSync was acknowledged.
    Ended,
    /// The other end ended the connection.
    Aborted,
    /// The first message of the other end is no init.
    BadHello,
}
