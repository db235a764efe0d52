//! The end that puts a message together from its pieces.
ghost use Rattle.std.specs.Prelude.{◌≡◌, ◌↔◌, ℕ, [], IsErrOf, IfOk, IfSome, Some, None, false, true};
ghost use Rattle.std.specs.Option.{option_map};
ghost use Rattle.padp_link.specs.declared.fragment.PadpKind.TheVariants.{Data};
ghost use Rattle.padp_link.specs.FragmentText.{IsFragment};
ghost use Rattle.padp_link.specs.FragmentValues.{fragment_value};
ghost use Rattle.padp_link.specs.Pieces.{fragments};
ghost use Rattle.padp_link.specs.Collecting.{data_fragment};
ghost use Rattle.padp_link.specs.Parts.{are_receiver_parts as are_parts, receiver_of};
ghost use Rattle.padp_link.specs.Receivers.{ReceiverValue, Answers, after_answer, is_awaited, is_next_piece, is_next, with_piece, is_complete, whole_of};

use crate::fragment::Fragment;
use crate::parts::{PartsFault, ReceiverParts, are_receiver_parts};
use crate::piece::Key;
use std::alloc::{AllocError, Global};
use std::marker::Model;

/// What became of a data fragment.
#[derive(Clone, Copy, Debug)]
pub enum Taken {
    /// It was the next piece.
    Accepted,
    /// It was the last piece, and the message is whole.
    Whole,
    /// It is the last piece that was taken once more.
    Repeated,
    /// It is neither.
    Dropped,
}

/// Puts together one message after the other. The memory for the longest one is taken when it is made.
#[derive(Drop)]
pub struct Receiver {
    awaited: Option<u8>,
    // The length of the message, how many of its pieces were taken, and their bytes.
    length: u16,
    taken: u8,
    message: Vec<u8>,
    last: Option<Key>,
}

impl Model for Receiver {
    ghost use Rattle.padp_link.specs.Collecting.{data_fragment};
    ghost use Rattle.padp_link.specs.Receivers.{ReceiverValue};
    ghost use Rattle.padp_link.specs.Collecting.{taken_pieces, HoldsPieces};

    ghost Value = { ReceiverValue };

    ghost view = { λ receiver. record {
      awaited = receiver.awaited;
      pieces = taken_pieces receiver.length receiver.taken receiver.message.items;
      last = receiver.last;
    } };

    ghost invariant = { λ receiver. HoldsPieces receiver.length receiver.taken receiver.message };
}

impl Receiver {
    /// The length of the longest message.
    pub const LIMIT: usize = 65_535;

    /// A receiver that waits for nothing.
    pub fn new(alloc: Global) -> Result<Receiver, AllocError>
        ensures { IfOk result (λ receiver. receiver
            ≡ record { awaited = None; pieces = []; last = None }) }
    {
        Ok(Receiver {
            awaited: None,
            length: 0,
            taken: 0,
            message: Vec::with_capacity(alloc, Self::LIMIT)?,
            last: None,
        })
    }

    /// What it holds.
    pub fn parts(&self, alloc: Global) -> Result<ReceiverParts, AllocError>
        ensures receiver { IfOk result (λ parts. receiver_of parts ≡ self.now) }
        ensures parts { IfOk result (λ parts. are_parts parts ≡ true) }
    {
        Ok(ReceiverParts {
            awaited: self.awaited,
            length: if self.taken == 0 { 0 } else { self.length },
            taken: self.taken,
            received: Vec::from_slice(alloc, &self.message)?,
            last: self.last,
        })
    }

    /// The receiver of these parts. `Form` is answered exactly where there is none: where more pieces were taken than the
    /// message has, where their bytes are more or less than these, or where no piece was and a length is said.
    pub fn of_parts(alloc: Global, parts: &ReceiverParts) -> Result<Receiver, PartsFault>
        ensures made { IfOk result (λ receiver. receiver ≡ receiver_of parts.now) }
        ensures form { IsErrOf result PartsFault.Form ↔ (are_parts parts.now ≡ false) }
    {
        if !are_receiver_parts(parts) {
            return Err(PartsFault::Form);
        }
        let mut message = Vec::with_capacity(alloc, Self::LIMIT)?;
        message.extend_from_slice(&parts.received)?;
        Ok(Receiver {
            awaited: parts.awaited,
            length: parts.length,
            taken: parts.taken,
            message,
            last: parts.last,
        })
    }

    /// Waits for the first piece of a message of this transaction. What was taken before is dropped, but
    /// the key of the last piece stays.
    pub fn expect(&mut self, id: u8)
        ensures { self.new ≡ record { awaited = Some id; pieces = []; last = self.old.last } }
    {
        self.awaited = Some(id);
        self.length = 0;
        self.taken = 0;
        self.message.clear();
    }

    /// Takes a data fragment of a packet of this transaction, if it is the next piece.
    pub fn on_data(&mut self, id: u8, fragment: &Fragment<'_>) -> Taken
        requires fragment { IsFragment (fragment_value fragment.now) }
        requires kind { fragment.now.kind ≡ Data }
        ensures answer { Answers self.old id (fragment_value fragment.now) result }
        ensures after { self.new ≡ after_answer self.old id (fragment_value fragment.now) result }
    {
        let key = fragment.key(id);
        if self.last == Some(key) {
            return Taken::Repeated;
        }
        if !self.is_next(id, fragment) {
            return Taken::Dropped;
        }
        self.take_next(key, fragment.bytes);
        if self.is_complete() {
            Taken::Whole
        } else {
            Taken::Accepted
        }
    }

    /// The message, from its last piece on until another one is expected: it is the one whose pieces were
    /// taken.
    pub fn whole(&self) -> Option<&[u8]>
        ensures message { option_map (λ message. message.now) result ≡ whole_of self.now.pieces }
        ensures pieces { (id : ℕ) → IfSome result
            (λ message. self.now.pieces ≡ fragments id message.now) }
    {
        if !self.is_complete() {
            return None;
        }
        Some(self.message.as_slice())
    }

    fn is_next(&self, id: u8, fragment: &Fragment<'_>) -> bool
        ensures { result ≡ is_next self.now id (fragment_value fragment.now) }
    {
        self.awaits(id) && self.is_next_piece(fragment)
    }

    fn awaits(&self, id: u8) -> bool
        ensures { result ≡ is_awaited self.now.awaited id }
    {
        match self.awaited {
            Some(awaited) => awaited == id,
            None => false,
        }
    }

    fn is_next_piece(&self, fragment: &Fragment<'_>) -> bool
        ensures { result ≡ is_next_piece self.now.pieces (fragment_value fragment.now) }
    {
        if self.taken == 0 {
            return fragment.is_first();
        }
        fragment.goes_on(usize::from(self.length), self.message.len())
    }

    fn is_complete(&self) -> bool
        ensures { result ≡ is_complete self.now.pieces }
    {
        self.taken != 0 && self.message.len() == usize::from(self.length)
    }

    /// Takes the next piece.
    fn take_next(&mut self, key: Key, bytes: &[u8])
        requires fragment { IsFragment (data_fragment key bytes.now) }
        requires next { is_next self.old key.id (data_fragment key bytes.now) ≡ true }
        ensures { self.new ≡ with_piece self.old key.id (data_fragment key bytes.now) }
    {
        let length = if self.taken == 0 {
            key.size
        } else {
            self.length
        };
        let _fits = self.message.extend_from_slice(bytes).is_ok();
        self.length = length;
        self.taken += 1;
        self.last = Some(key);
    }
}
