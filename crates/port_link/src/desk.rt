//! A desktop's end.
ghost use Rattle.std.specs.Prelude.{◌≡◌, ◌≤◌, ℕ, IfOk, length};
ghost use Rattle.slp_frames.specs.PacketText.{PacketValue};
ghost use Rattle.slp_frames.specs.PacketValues.{lent_value};
ghost use Rattle.padp_end.specs.Arrivals.{arrival_of};
ghost use Rattle.padp_end.specs.Outgoings.{said_text};
ghost use Rattle.port_link.specs.Desks.{Awaits, Begins, Came, first_desk, is_greeting, lingering, reacts, silence, turn_of};

use crate::greeting::GREETING_ID;
use crate::turn::Turn;
use arrayvec::ArrayVec;
use padp_end::{End, Heard, MAX_SAID};
use padp_link::{Arrived, arrived};
use slp_frames::PacketLent;
use std::alloc::{AllocError, Global};

/// How many ticks in a row it bears, while nothing of its own waits.
const PATIENCE: u8 = 30;

/// How many it bears when all was said.
const LINGER: u8 = 3;

/// A desktop's end: it sends and takes messages, and bears silence for a while.
#[derive(Drop)]
pub(crate) struct Desk {
    pub(crate) end: End,
    // How many silent ticks more it bears while nothing of its own waits, and how many behind a packet.
    pub(crate) patience: u8,
    pub(crate) calm: u8,
}

impl Desk {
    /// A desktop's end before its first message.
    pub(crate) fn new(alloc: Global) -> Result<Desk, AllocError>
        ensures { IfOk result (λ desk. desk ≡ first_desk) }
    {
        Ok(Desk {
            end: End::new(alloc)?,
            patience: PATIENCE,
            calm: PATIENCE,
        })
    }

    /// Awaits a message of this transaction.
    pub(crate) fn expect(&mut self, id: u8)
        ensures { self.new ≡ (reacts self.old (Awaits id)).desk }
    {
        self.end.expect(id);
    }

    /// Begins a message of this transaction, and says its first piece.
    pub(crate) fn begin(&mut self, id: u8, message: &[u8], out: &mut ArrayVec<u8, MAX_SAID>)
        requires { length message.now ≤ 65535 }
        ensures desk { self.new ≡ (reacts self.old (Begins id message.now)).desk }
        ensures said { out.new.items
            ≡ said_text (reacts self.old (Begins id message.now)).said }
    {
        out.clear();
        self.end.begin(id, message, out);
    }

    /// Takes a packet, and says what goes back.
    pub(crate) fn hear(&mut self, packet: PacketLent<'_>, out: &mut ArrayVec<u8, MAX_SAID>) -> Turn
        ensures desk { self.new ≡ (reacts self.old (Came (lent_value packet.entry))).desk }
        ensures said { out.new.items
            ≡ said_text (reacts self.old (Came (lent_value packet.entry))).said }
        ensures turn { result ≡ (reacts self.old (Came (lent_value packet.entry))).turn }
    {
        out.clear();
        self.patience = self.calm;
        let greets = greets(packet.dest, packet.kind, packet.id, packet.body);
        turn_behind(self.end.take(packet, out), greets)
    }

    /// A tick brought nothing: says the piece that waits once more, or loses patience.
    pub(crate) fn tick(&mut self, out: &mut ArrayVec<u8, MAX_SAID>) -> Turn
        ensures desk { self.new ≡ (silence self.old).desk }
        ensures said { out.new.items ≡ said_text (silence self.old).said }
        ensures turn { result ≡ (silence self.old).turn }
    {
        out.clear();
        if self.end.waits() {
            return match self.end.wait(out) {
                Ok(()) => Turn::GoesOn,
                Err(_) => Turn::Spent,
            };
        }
        self.patience = self.patience.saturating_sub(1);
        if self.patience == 0 {
            Turn::Silent
        } else {
            Turn::Quiet
        }
    }

    /// From now on it bears three ticks.
    pub(crate) fn linger(&mut self)
        ensures { self.new ≡ lingering self.old }
    {
        self.patience = LINGER;
        self.calm = LINGER;
    }
}

// Whether a packet with this destination, type, transaction and body is data under the transaction of greetings.
fn greets(dest: u8, kind: u8, id: u8, body: &[u8]) -> bool
    ensures { (source : ℕ) → result ≡ is_greeting (arrival_of (record {
      dest = dest;
      source = source;
      kind = kind;
      id = id;
      body = body.now;
    })) }
{
    match arrived(dest, kind, id, body) {
        Arrived::Data(id, _) => id == GREETING_ID,
        Arrived::Drop | Arrived::Tickle | Arrived::Stop | Arrived::Ack(_) => false,
    }
}

// What follows what an end heard of a packet, that greets or doesn't.
fn turn_behind(heard: Heard, greets: bool) -> Turn
    ensures { (packet : PacketValue) → greets ≡ is_greeting (arrival_of packet)
        → result ≡ turn_of heard packet }
{
    match heard {
        Heard::Nothing if greets => Turn::Greeted,
        Heard::Nothing | Heard::Tickle => Turn::GoesOn,
        Heard::Delivered => Turn::Delivered,
        Heard::Message => Turn::Whole,
        Heard::Stop => Turn::Aborted,
    }
}
