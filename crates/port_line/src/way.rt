//! One way of a cable.
ghost use Rattle.std.specs.Prelude.{◌≡◌, ◌≢◌, ◌++◌, ◌∷◌, [], List, drop, Err, OnOk, MatchOption};
ghost use Rattle.slp_frames.specs.PacketScan.{scan};
ghost use Rattle.slp_frames.specs.PacketText.{PacketValue};
ghost use Rattle.slp_frames.specs.PacketValues.{packet_value};
ghost use Rattle.port_line.specs.Ways.{LosesFront, PutsFront};

use crate::port_fault::PortFault;
use arrayvec::ArrayVec;
use slp_frames::{Packet, PacketLent, PacketSink, read_pieces};
use std::alloc::{AllocError, Global};
use std::collections::VecDeque;
use std::marker::Model;

/// The packets on one way of a cable, the oldest first, some of which will be lost.
#[derive(Drop)]
pub(crate) struct Way {
    alloc: Global,
    packets: VecDeque<Packet>,
    // The number of the oldest packet, and the numbers of those that are lost.
    number: u32,
    lost: Vec<u32>,
}

impl Model for Way {
    ghost use Rattle.std.specs.Prelude.{List, map};
    ghost use Rattle.slp_frames.specs.PacketText.{PacketValue};
    ghost use Rattle.slp_frames.specs.PacketValues.{packet_value};

    ghost Value = { List PacketValue };

    ghost view = { λ way. map packet_value way.packets.items };
}

impl Way {
    /// A way with no packet on it, on which the packets of these numbers are lost.
    pub(crate) fn new(alloc: Global, lost: Vec<u32>) -> Self
        ensures { result ≡ [] }
    {
        Way {
            alloc,
            packets: VecDeque::new(alloc),
            number: 0,
            lost,
        }
    }

    /// How many packets are on it.
    pub(crate) fn len(&self) -> usize {
        self.packets.len()
    }

    /// Whether the oldest packet is lost.
    pub(crate) fn is_lost(&self) -> bool {
        self.lost.iter().any(|number| *number == self.number)
    }

    /// The oldest packet.
    pub(crate) fn oldest(&self) -> Option<&Packet>
        ensures { MatchOption result (self.now ≡ []) (λ packet.
            (later : List PacketValue) × (self.now ≡ packet_value packet.now ∷ later)) }
    {
        self.packets.front()
    }

    /// Takes the oldest packet off.
    pub(crate) fn pop(&mut self) -> Option<Packet>
        ensures first { MatchOption result ((self.old ≡ []) × (self.new ≡ []))
            (λ packet. self.old ≡ packet_value packet ∷ self.new) }
        ensures rest { self.new ≡ drop 1 self.old }
    {
        self.number = self.number.saturating_add(1);
        self.packets.pop_front()
    }

    /// Drops the oldest packets that are lost.
    pub(crate) fn lose(&mut self)
        ensures { LosesFront self.old self.new }
    {
        'oldest: for _ in 0..self.packets.len() {
            if !self.is_lost() {
                return;
            }
            self.pop();
        }
    }

    /// Puts the packets in these bytes behind the others. For want of memory the first ones are put there.
    pub(crate) fn put(&mut self, bytes: &[u8]) -> Result<(), PortFault>
        ensures all { OnOk result (self.new ≡ self.old ++ scan bytes.now) }
        ensures front { PutsFront (scan bytes.now) self.old self.new }
        ensures fault { result ≢ Err PortFault.Failed }
    {
        let mut pieces = Vec::new(self.alloc);
        pieces.push(Vec::from_slice(self.alloc, bytes)?)?;
        read_pieces(&pieces, self)?;
        Ok(())
    }
}

impl PacketSink for Way {
    type Fault = AllocError;

    ghost taken = { λ way. way };

    fn take(&mut self, packet: PacketLent<'_>) -> Result<(), AllocError> {
        let Ok(body) = ArrayVec::try_from(packet.body) else {
            return Err(AllocError);
        };
        self.packets.push_back(Packet {
            dest: packet.dest,
            source: packet.source,
            kind: packet.kind,
            id: packet.id,
            body,
        })?;
        Ok(())
    }
}
