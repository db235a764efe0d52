// A message under construction or received, in memory of a fixed size.
ghost use Rattle.std.specs.Prelude.{◌≡◌, ◌+◌, ◌≤◌, ◌++◌, ◌↔◌, [], true, false, length, IfOk, IsTrue};

use std::alloc::{AllocError, Global};
use std::marker::Model;

/// A message: at most 65,535 bytes. Memory for as many is taken when it is made, and none afterwards.
#[derive(Drop)]
pub struct Message {
    bytes: Vec<u8>,
}

impl Model for Message {
    ghost use Rattle.std.specs.Prelude.{ℕ, List};
    ghost use Rattle.dlp_args.specs.Messages.{IsMessage};

    ghost Value = { List ℕ };

    ghost view = { λ message. message.bytes.items };

    ghost invariant = { λ message. IsMessage message.bytes };
}

impl Message {
    /// The greatest length of a message.
    pub const LIMIT: usize = 65_535;

    /// An empty message.
    pub fn new(alloc: Global) -> Result<Message, AllocError>
        ensures { IfOk result (λ message. message ≡ []) }
    {
        Ok(Message {
            bytes: Vec::with_capacity(alloc, Self::LIMIT)?,
        })
    }

    /// Takes all bytes out.
    pub fn clear(&mut self)
        ensures { self.new ≡ [] }
    {
        self.bytes.clear();
    }

    /// The bytes.
    pub fn bytes(&self) -> &[u8]
        ensures bytes { result.now ≡ self.now }
        ensures bound { length result.now ≤ 65535 }
    {
        &self.bytes
    }

    /// Appends the bytes, and answers whether they fit. Where they don't, the message stays as it is.
    pub fn push(&mut self, bytes: &[u8]) -> bool
        ensures fits { IsTrue result ↔ (length self.old + length bytes.now ≤ 65535) }
        ensures pushed { result ≡ true → self.new ≡ self.old ++ bytes.now }
        ensures stays { result ≡ false → self.new ≡ self.old }
    {
        if bytes.len() > Self::LIMIT - self.bytes.len() {
            return false;
        }
        self.bytes.extend_from_slice(bytes).is_ok()
    }
}
