//! What was sent over the line so far, and the two ends of it.
use dlp_args::Message;
use padp_link::{Receiver, Sender};
use slp_frames::SlpReader;
use trace_text::{End, FrameLog};

/// What was sent over the line so far.
#[derive(Drop)]
pub struct Wire {
    /// The frames of both ends, in the order of sending.
    pub frames: FrameLog,
    /// How many of them had been sent at the last tick. A late frame among these is held no more.
    pub released: usize,
}

/// An end of the line: what it sends, and what it takes.
#[derive(Drop)]
pub struct Half {
    pub end: End,
    /// Sends the message, in memory that was taken when the end was made.
    pub sender: Sender,
    pub message: Message,
    pub receiver: Receiver,
    /// Reads what arrives of the other end's frames.
    pub reader: SlpReader,
    /// All its own frames up to this number are taken off the line.
    pub taken: usize,
}
