//! What comes from a handheld.
ghost use Rattle.std.specs.Prelude.{◌≡◌, ◌≢◌, ◌≤◌, ◌++◌, [], Err, take, length, OnOk};
ghost use Rattle.slp_frames.specs.PacketScan.{scan};
ghost use Rattle.port_line.specs.Comings.{GivesBytes};
ghost use Rattle.port_line.specs.Ways.{LosesFront, PutsFront};

use crate::port_fault::PortFault;
use crate::room::{behind, copy_front};
use crate::way::Way;
use arrayvec::ArrayVec;
use slp_frames::{MAX_PACKET, write_packet};
use std::marker::Model;

/// The packets that come from a handheld, and how much of the oldest one came.
#[derive(Drop)]
pub(crate) struct Coming {
    way: Way,
    given: usize,
}

impl Model for Coming {
    ghost use Rattle.port_line.specs.Comings.{ComingValue, IsGiven, front_of};

    ghost Value = { ComingValue };

    ghost view = { λ coming. record {
      packets = coming.way;
      part = front_of coming.given coming.way;
    } };

    ghost invariant = { λ coming. IsGiven coming.given coming.way };
}

impl Coming {
    /// Nothing comes on this way.
    pub(crate) fn new(way: Way) -> Self
        requires { way ≡ [] }
        ensures { result ≡ record { packets = []; part = [] } }
    {
        Coming { way, given: 0 }
    }

    /// Whether no packet comes.
    pub(crate) fn is_empty(&self) -> bool
        ensures part { scan self.now.part ≡ [] }
    {
        self.way.oldest().is_none()
    }

    /// Whether no packet has begun to come.
    pub(crate) fn is_between(&self) -> bool {
        self.given == 0
    }

    /// Puts the packets in these bytes behind the others. For want of memory the first ones are put there.
    pub(crate) fn put(&mut self, bytes: &[u8]) -> Result<(), PortFault>
        ensures all { OnOk result (self.new.packets ≡ self.old.packets ++ scan bytes.now) }
        ensures front { PutsFront (scan bytes.now) self.old.packets self.new.packets }
        ensures part { self.new.part ≡ self.old.part }
        ensures fault { result ≢ Err PortFault.Failed }
    {
        self.way.put(bytes)
    }

    /// Drops the oldest packets that are lost.
    pub(crate) fn lose(&mut self)
        ensures front { LosesFront self.old.packets self.new.packets }
        ensures part { self.new.part ≡ self.old.part }
    {
        if self.given == 0 {
            self.way.lose();
        }
    }

    /// Puts what comes next into the room: of the oldest packet what there is room for.
    pub(crate) fn give(&mut self, room: &mut [u8]) -> usize
        ensures bound { result ≤ length room.new }
        ensures gives { GivesBytes (take result room.new) self.old self.new }
    {
        let Some(packet) = self.way.oldest() else {
            return 0;
        };
        let mut text: ArrayVec<u8, MAX_PACKET> = ArrayVec::new();
        write_packet(packet, &mut text);
        let left = behind(text.as_slice(), self.given);
        let is_last = left.len() <= room.len();
        let count = copy_front(room, left);
        if is_last {
            self.way.pop();
            self.given = 0;
        } else {
            self.given += count;
        }
        count
    }
}
