// The bytes of a message, kept.
ghost use Rattle.std.specs.Prelude.{◌≡◌, ◌≤◌, [], length, IfOk};

use crate::message::Message;
use std::alloc::{AllocError, Global};
use std::marker::Model;

/// The bytes of a message, at most 65,535, kept for as long as they are wanted. Contracts see its room beside the
/// bytes: how many bytes it can be filled with and take no memory, 65,535 or 0.
#[derive(Drop)]
pub struct MessageText {
    bytes: Vec<u8>,
    room: usize,
}

impl Model for MessageText {
    ghost use Rattle.dlp_args.specs.Messages.{IsMessageText, MessageTextValue};

    ghost Value = { MessageTextValue };

    ghost view = { λ text. record { bytes = text.bytes.items; room = text.room } };

    ghost invariant = { λ text. IsMessageText text.bytes text.room };
}

impl MessageText {
    /// A copy of a message's bytes, with no room.
    pub fn of(alloc: Global, message: &Message) -> Result<MessageText, AllocError>
        ensures { IfOk result (λ text. text ≡ record { bytes = message.now; room = 0 }) }
    {
        Ok(MessageText {
            bytes: Vec::from_slice(alloc, message.bytes())?,
            room: 0,
        })
    }

    /// No bytes, and room for 65,535.
    pub fn with_room(alloc: Global) -> Result<MessageText, AllocError>
        ensures { IfOk result (λ text. text ≡ record { bytes = []; room = 65535 }) }
    {
        Ok(MessageText {
            bytes: Vec::with_capacity(alloc, Message::LIMIT)?,
            room: Message::LIMIT,
        })
    }

    /// Replaces the bytes by those of a message. It takes no memory.
    pub fn fill(&mut self, message: &Message)
        requires { self.old.room ≡ 65535 }
        ensures { self.new ≡ record { bytes = message.now; room = 65535 } }
    {
        self.bytes.clear();
        let _ = self.bytes.extend_from_slice(message.bytes());
    }

    /// Gives the room back where a smaller copy can be taken. The bytes stay.
    pub fn trim(&mut self)
        ensures { self.new ≡ record self.old { room = 0 } }
    {
        self.room = 0;
        self.bytes.shrink_to_fit();
    }

    /// The bytes.
    pub fn bytes(&self) -> &[u8]
        ensures bytes { result.now ≡ self.now.bytes }
        ensures bound { length result.now ≤ 65535 }
    {
        &self.bytes
    }
}
