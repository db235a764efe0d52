//! An end.
ghost use Rattle.std.specs.Prelude.{◌≡◌, ◌↔◌, ◌≤◌, ◌++◌, ℕ, List, IfOk, IfSome, IsErr, IsErrOf, IsTrue, OnOk, OnErr, true, false, is_some, length};
ghost use Rattle.std.specs.Option.{option_map};
ghost use Rattle.arrayvec.specs.ArrayVec.{array_vec_len};
ghost use Rattle.slp_frames.specs.PacketValues.{lent_value};
ghost use Rattle.padp_link.specs.declared.fragment.PadpKind.TheVariants.{Data};
ghost use Rattle.padp_link.specs.FragmentText.{IsFragment};
ghost use Rattle.padp_link.specs.FragmentValues.{fragment_value};
ghost use Rattle.padp_link.specs.Pieces.{key_of};
ghost use Rattle.padp_link.specs.Receivers.{whole_of};
ghost use Rattle.padp_link.specs.Senders.{waiting};
ghost use Rattle.padp_end.specs.Arrivals.{IsDataArrival, arrival_of, arrival_value};
ghost use Rattle.padp_end.specs.Ends.{ack_taken, data_taken, end_begins, end_expects, end_takes, end_waits, first_end, is_key, is_ready as may_be_taken, is_spent, new_taken};
ghost use Rattle.padp_end.specs.Outgoings.{pieces_said, said_text};
ghost use Rattle.padp_end.specs.Parts.{are_end_parts, end_of};

use crate::heard::Heard;
use crate::parts::EndParts;
use crate::saying::{MAX_SAID, say_ack, say_piece};
use crate::waiting::{counts_for, is_ready, stop_waiting};
use arrayvec::ArrayVec;
use dlp_args::Message;
use padp_link::{Arrived, Fragment, Key, PartsFault, Receiver, Sender, Taken, TriesSpent, arrived};
use slp_frames::PacketLent;
use std::alloc::{AllocError, Global};
use std::marker::Model;

/// An end that sends its messages piece by piece and puts together those of the other end.
#[derive(Drop)]
pub struct End {
    receiver: Receiver,
    // The key of the last piece that the receiver took.
    last: Option<Key>,
    sender: Sender,
    // The message that is sent.
    message: Message,
}

impl Model for End {
    ghost use Rattle.padp_end.specs.Ends.{EndValue};
    ghost use Rattle.padp_end.specs.Holding.{HoldsMessage};

    ghost Value = { EndValue };

    ghost view = { λ end. record {
      receiver = end.receiver;
      sender = end.sender;
      message = end.message;
    } };

    ghost invariant = { λ end. HoldsMessage end.receiver end.last end.sender end.message };
}

impl End {
    /// An end that awaits nothing and sends nothing.
    pub fn new(alloc: Global) -> Result<End, AllocError>
        ensures { IfOk result (λ end. end ≡ first_end) }
    {
        Ok(End {
            receiver: Receiver::new(alloc)?,
            last: None,
            sender: Sender::new(),
            message: Message::new(alloc)?,
        })
    }

    /// What it holds.
    pub fn parts(&self, alloc: Global) -> Result<EndParts, AllocError>
        ensures end { IfOk result (λ parts. end_of parts ≡ self.now) }
        ensures parts { IfOk result (λ parts. are_end_parts parts ≡ true) }
    {
        Ok(EndParts {
            receiver: self.receiver.parts(alloc)?,
            sender: self.sender.parts(),
            message: Vec::from_slice(alloc, self.message.bytes())?,
        })
    }

    /// The end of these parts. `Form` is answered exactly where there is none: where a half is none, or where the message has
    /// not the length that the sender has.
    pub fn of_parts(alloc: Global, parts: &EndParts) -> Result<End, PartsFault>
        ensures made { IfOk result (λ end. end ≡ end_of parts.now) }
        ensures form { IsErrOf result PartsFault.Form ↔ (are_end_parts parts.now ≡ false) }
    {
        let Some(sender) = Sender::of_parts(parts.sender) else {
            return Err(PartsFault::Form);
        };
        if parts.message.len() != usize::from(parts.sender.length) {
            return Err(PartsFault::Form);
        }
        let receiver = Receiver::of_parts(alloc, &parts.receiver)?;
        let mut message = Message::new(alloc)?;
        let _fits = message.push(&parts.message);
        Ok(End {
            receiver,
            last: parts.receiver.last,
            sender,
            message,
        })
    }

    /// Awaits a message of this transaction. What was taken before is dropped.
    pub fn expect(&mut self, id: u8)
        ensures { self.new ≡ end_expects self.old id }
    {
        self.receiver.expect(id);
    }

    /// Begins a message of this transaction, and says its first piece.
    pub fn begin(&mut self, id: u8, message: &[u8], out: &mut ArrayVec<u8, MAX_SAID>)
        requires short { length message.now ≤ 65535 }
        requires room { array_vec_len out.old ≤ 16 }
        ensures end { self.new ≡ (end_begins self.old id message.now).1 }
        ensures said { out.new.items ≡ out.old.items
            ++ said_text (end_begins self.old id message.now).0 }
    {
        self.message.clear();
        let _fits = self.message.push(message);
        self.sender.start(id, message.len() as u16);
        self.say_waiting(out);
    }

    /// Takes a packet, says what goes back, and tells what there is to do about it.
    pub fn take(&mut self, packet: PacketLent<'_>, out: &mut ArrayVec<u8, MAX_SAID>) -> Heard
        requires { array_vec_len out.old ≤ 16 }
        ensures end { self.new
            ≡ (end_takes self.old (lent_value packet.entry)).end }
        ensures said { out.new.items ≡ out.old.items
            ++ said_text (end_takes self.old (lent_value packet.entry)).said }
        ensures heard { result ≡ (end_takes self.old (lent_value packet.entry)).heard }
    {
        match arrival(packet.dest, packet.kind, packet.id, packet.body) {
            Arrived::Drop => Heard::Nothing,
            Arrived::Tickle => Heard::Tickle,
            Arrived::Stop => Heard::Stop,
            Arrived::Ack(key) => self.take_ack(key, out),
            Arrived::Data(id, fragment) => self.take_data(id, &fragment, out),
        }
    }

    /// Says the piece that waits once more. Refused exactly where it had its ten tries. Nothing is said
    /// where nothing waits.
    pub fn wait(&mut self, out: &mut ArrayVec<u8, MAX_SAID>) -> Result<(), TriesSpent>
        requires { array_vec_len out.old ≤ 16 }
        ensures spent { IsErr result ↔ (is_spent self.old ≡ true) }
        ensures end { self.new ≡ (end_waits self.old).1 }
        ensures said { out.new.items ≡ out.old.items
            ++ said_text (end_waits self.old).0 }
    {
        if self.sender.current().is_none() {
            return Ok(());
        }
        self.sender.on_timer()?;
        self.say_waiting(out);
        Ok(())
    }

    /// The message that it took whole, from its last piece on until another one is expected.
    pub fn message(&self) -> Option<&[u8]>
        ensures message { option_map (λ message. message.now) result
            ≡ whole_of self.now.receiver.pieces }
        ensures short { IfSome result (λ message. length message.now ≤ 65535) }
    {
        self.receiver.whole()
    }

    /// The message that it sends, or sent last.
    pub fn sent(&self) -> &[u8]
        ensures { result.now ≡ self.now.message }
    {
        self.message.bytes()
    }

    /// Whether a piece of its own message waits.
    pub fn waits(&self) -> bool
        ensures { result ≡ is_some (waiting self.now.sender) }
    {
        self.sender.current().is_some()
    }

    // Says the piece that waits, if there is one, and answers whether there is.
    #[tactic(auto, using(crate::proofs::WaitingLaws::waits_inside))]
    fn say_waiting(&self, out: &mut ArrayVec<u8, MAX_SAID>) -> bool
        requires { array_vec_len out.old ≤ 16 }
        ensures said { out.new.items ≡ out.old.items
            ++ said_text (pieces_said self.now.message (waiting self.now.sender)) }
        ensures waits { result ≡ is_some (waiting self.now.sender) }
    {
        match self.sender.current() {
            Some(piece) => {
                say_piece(self.message.bytes(), piece, out);
                true
            }
            None => false,
        }
    }

    // Takes an acknowledgement. Of a piece that is all of its message the transaction is enough.
    fn take_ack(&mut self, key: Key, out: &mut ArrayVec<u8, MAX_SAID>) -> Heard
        requires { array_vec_len out.old ≤ 16 }
        ensures end { self.new ≡ (ack_taken self.old key).end }
        ensures said { out.new.items ≡ out.old.items
            ++ said_text (ack_taken self.old key).said }
        ensures heard { result ≡ (ack_taken self.old key).heard }
    {
        let key = counts_for(&self.sender, key);
        if !self.sender.on_ack(key) {
            return Heard::Nothing;
        }
        if self.say_waiting(out) {
            Heard::Nothing
        } else {
            Heard::Delivered
        }
    }

    // Takes a data fragment.
    fn take_data(
        &mut self,
        id: u8,
        fragment: &Fragment<'_>,
        out: &mut ArrayVec<u8, MAX_SAID>,
    ) -> Heard
        requires fragment { IsFragment (fragment_value fragment.now) }
        requires kind { fragment.now.kind ≡ Data }
        requires room { array_vec_len out.old ≤ 16 }
        ensures end { self.new
            ≡ (data_taken self.old id (fragment_value fragment.now)).end }
        ensures said { out.new.items ≡ out.old.items
            ++ said_text (data_taken self.old id (fragment_value fragment.now)).said }
        ensures heard { result
            ≡ (data_taken self.old id (fragment_value fragment.now)).heard }
    {
        let key = fragment.key(id);
        if self.last == Some(key) {
            say_ack(key, out);
            return Heard::Nothing;
        }
        if !is_ready(&self.sender, fragment) {
            return Heard::Nothing;
        }
        self.take_new(key, fragment, out)
    }

    // Takes a data fragment that is no repeat and may be taken, if it is the next one.
    fn take_new(
        &mut self,
        key: Key,
        fragment: &Fragment<'_>,
        out: &mut ArrayVec<u8, MAX_SAID>,
    ) -> Heard
        requires fragment { IsFragment (fragment_value fragment.now) }
        requires kind { fragment.now.kind ≡ Data }
        requires key { key ≡ key_of key.id (fragment_value fragment.now) }
        requires ready { may_be_taken (waiting self.old.sender) (fragment_value fragment.now)
            ≡ true }
        requires new { is_key self.old.receiver.last key ≡ false }
        requires room { array_vec_len out.old ≤ 16 }
        ensures end { self.new
            ≡ (new_taken self.old key.id (fragment_value fragment.now)).end }
        ensures said { out.new.items ≡ out.old.items
            ++ said_text (new_taken self.old key.id (fragment_value fragment.now)).said }
        ensures heard { result
            ≡ (new_taken self.old key.id (fragment_value fragment.now)).heard }
    {
        let heard = match self.receiver.on_data(key.id, fragment) {
            Taken::Accepted => Heard::Nothing,
            Taken::Whole => Heard::Message,
            Taken::Repeated | Taken::Dropped => return Heard::Nothing,
        };
        self.last = Some(key);
        stop_waiting(&mut self.sender);
        say_ack(key, out);
        heard
    }
}

// What a packet with this destination, type, transaction and body is for an end.
fn arrival(dest: u8, kind: u8, id: u8, body: &[u8]) -> Arrived<'_>
    ensures value { (source : ℕ) → arrival_value result ≡ arrival_of
        (record { dest = dest; source = source; kind = kind; id = id; body = body.now }) }
    ensures fragment { IsDataArrival result }
{
    arrived(dest, kind, id, body)
}
