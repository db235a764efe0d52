//! The end that sends the pieces of a message.
ghost use Rattle.std.specs.Prelude.{◌≡◌, ◌↔◌, ◌+◌, ◌<◌, ◌≤◌, IfSome, IsTrue, IsErr, OnOk, OnErr, IsSome, Some, is_some, true, false};
ghost use Rattle.padp_link.specs.Parts.{are_sender_parts as are_parts, sender_of};
ghost use Rattle.padp_link.specs.Pieces.{piece_count};
ghost use Rattle.padp_link.specs.Senders.{SenderValue, waiting, waiting_key, Waits, WaitsOnLast};

use crate::parts::{SenderParts, are_sender_parts};
use crate::piece::{Key, Piece, piece_at, piece_count};
use std::marker::Model;

/// How often a piece is sent at most.
pub const MAX_TRIES: u8 = 10;

/// The waiting piece was sent as often as a piece is.
#[derive(Clone, Copy)]
pub struct TriesSpent;

/// Sends a message piece by piece: the next one goes once the one before it is acknowledged.
#[derive(Drop)]
pub struct Sender {
    id: u8,
    length: u16,
    // How many pieces of the message are acknowledged, and how often the next one was sent.
    acknowledged: u8,
    tries: u8,
}

impl Model for Sender {
    ghost use Rattle.std.specs.Prelude.{◌≤◌};
    ghost use Rattle.padp_link.specs.Pieces.{piece_count};
    ghost use Rattle.padp_link.specs.Senders.{SenderValue};

    ghost Value = { SenderValue };

    ghost view = { λ sender. record {
      id = sender.id;
      length = sender.length;
      acknowledged = sender.acknowledged;
      tries = sender.tries;
    } };

    ghost invariant = { λ sender. (sender.acknowledged ≤ piece_count sender.length)
        × (sender.tries ≤ 10) };
}

impl Sender {
    /// A sender for which nothing waits.
    pub fn new() -> Self
        ensures { result ≡ record { id = 0; length = 0; acknowledged = 1; tries = 0 } }
    {
        Sender {
            id: 0,
            length: 0,
            acknowledged: 1,
            tries: 0,
        }
    }

    /// What it holds.
    pub fn parts(&self) -> SenderParts
        ensures sender { sender_of result ≡ self.now }
        ensures parts { are_parts result ≡ true }
    {
        SenderParts {
            id: self.id,
            length: self.length,
            acknowledged: self.acknowledged,
            tries: self.tries,
        }
    }

    /// The sender of these parts. There is one exactly where no more pieces are acknowledged than the message has, and the
    /// next one had at most ten tries.
    pub fn of_parts(parts: SenderParts) -> Option<Sender>
        ensures made { IfSome result (λ sender. sender ≡ sender_of parts) }
        ensures form { is_some result ≡ are_parts parts }
    {
        if !are_sender_parts(parts) {
            return None;
        }
        Some(Sender {
            id: parts.id,
            length: parts.length,
            acknowledged: parts.acknowledged,
            tries: parts.tries,
        })
    }

    /// Begins a message of so many bytes. Its first piece waits, and is sent once.
    pub fn start(&mut self, id: u8, length: u16)
        ensures { self.new ≡ record { id = id; length = length; acknowledged = 0; tries = 1 } }
    {
        self.id = id;
        self.length = length;
        self.acknowledged = 0;
        self.tries = 1;
    }

    /// The piece that waits for its acknowledgement: the one behind those that are acknowledged.
    #[tactic(auto, using(crate::proofs::SenderLaws::waiting_is, crate::proofs::SenderLaws::waiting_none))]
    pub fn current(&self) -> Option<Piece>
        ensures piece { result ≡ waiting self.now }
        ensures waits { IsSome result ↔ Waits self.now }
    {
        if self.acknowledged < piece_count(self.length) {
            Some(piece_at(self.id, self.length, self.acknowledged))
        } else {
            None
        }
    }

    /// Takes an acknowledgement. It counts exactly where it bears the key of the waiting piece: then the
    /// next piece waits, and is sent once, or nothing waits.
    #[tactic(auto, using(crate::proofs::SenderLaws::waits_with))]
    pub fn on_ack(&mut self, key: Key) -> bool
        ensures taken { IsTrue result ↔ (waiting_key self.old ≡ Some key) }
        ensures next { result ≡ true → self.new
            ≡ record self.old { acknowledged = self.old.acknowledged + 1; tries = 1 } }
        ensures stays { result ≡ false → self.new ≡ self.old }
    {
        match self.current() {
            Some(piece) if piece.key == key => {
                self.acknowledged += 1;
                self.tries = 1;
                true
            }
            _ => false,
        }
    }

    /// Takes the answer to the message as the acknowledgement of its last piece.
    pub fn on_answer(&mut self)
        requires { WaitsOnLast self.old }
        ensures { self.new ≡ record self.old { acknowledged = piece_count self.old.length } }
    {
        self.acknowledged += 1;
    }

    /// Counts one more try of the waiting piece. Refused exactly where it had ten.
    pub fn on_timer(&mut self) -> Result<(), TriesSpent>
        requires { Waits self.old }
        ensures spent { IsErr result ↔ (self.old.tries ≡ 10) }
        ensures counted { OnOk result (self.new ≡ record self.old { tries = self.old.tries + 1 }) }
        ensures bound { self.new.tries ≤ 10 }
        ensures stays { OnErr result (self.new ≡ self.old) }
    {
        if self.tries == MAX_TRIES {
            return Err(TriesSpent);
        }
        self.tries += 1;
        Ok(())
    }
}
