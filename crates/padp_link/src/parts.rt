//! What a receiver and a sender hold, as plain parts that can be kept elsewhere.
ghost use Rattle.std.specs.Prelude.{◌≡◌};
ghost use Rattle.padp_link.specs.Parts.{are_receiver_parts, are_sender_parts};
ghost use Rattle.padp_link.specs.declared.parts.PartsFault.TheVariants.{NoMemory};

use crate::fragment::MAX_DATA;
use crate::piece::{Key, piece_count};
use crate::sender::MAX_TRIES;
use std::alloc::AllocError;

/// What a receiver holds.
#[derive(Drop)]
pub struct ReceiverParts {
    /// The transaction that it awaits.
    pub awaited: Option<u8>,
    /// The length of the message that comes, and 0 before its first piece was taken.
    pub length: u16,
    /// How many pieces of it were taken.
    pub taken: u8,
    /// The bytes of these pieces.
    pub received: Vec<u8>,
    /// The key of the last piece that it ever took.
    pub last: Option<Key>,
}

/// What a sender holds.
#[derive(Clone, Copy)]
pub struct SenderParts {
    /// The transaction of its message.
    pub id: u8,
    /// The length of its message.
    pub length: u16,
    /// How many pieces of it are acknowledged.
    pub acknowledged: u8,
    /// How often the next piece was sent.
    pub tries: u8,
}

/// Why nothing is made of parts.
#[derive(Clone, Copy, Debug)]
pub enum PartsFault {
    /// They are the parts of nothing.
    Form,
    /// There was no memory.
    NoMemory,
}

impl From<AllocError> for PartsFault {
    ghost from_gives = { λ _ fault. fault ≡ NoMemory };

    fn from(_: AllocError) -> Self {
        PartsFault::NoMemory
    }
}

/// Whether these are the parts of a receiver.
pub(crate) fn are_receiver_parts(parts: &ReceiverParts) -> bool
    ensures { result ≡ are_receiver_parts parts.now }
{
    let most = usize::from(parts.taken) * MAX_DATA;
    parts.taken <= piece_count(parts.length)
        && parts.received.len() == most.min(usize::from(parts.length))
        && (parts.taken != 0 || parts.length == 0)
}

/// Whether these are the parts of a sender.
pub(crate) fn are_sender_parts(parts: SenderParts) -> bool
    ensures { result ≡ are_sender_parts parts }
{
    parts.acknowledged <= piece_count(parts.length) && parts.tries <= MAX_TRIES
}
