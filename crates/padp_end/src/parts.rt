//! What an end holds, as plain parts that can be kept elsewhere.
use padp_link::{ReceiverParts, SenderParts};

/// What an end holds: its two halves, and the message that it sends, whose length the sender has too.
#[derive(Drop)]
pub struct EndParts {
    pub receiver: ReceiverParts,
    pub sender: SenderParts,
    pub message: Vec<u8>,
}
