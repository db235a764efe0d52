//! A handheld in its cradle.
ghost use Rattle.std.specs.Prelude.{◌≡◌, ◌≢◌, ◌≤◌, [], Err, Some, true, false, length, take, IfOk, IfErr, OnErr};
ghost use Rattle.device_stream.specs.Hands.{woken};
ghost use Rattle.handheld_files.specs.Openings.{Stands};
ghost use Rattle.line_world.specs.Logs.{texts};
ghost use Rattle.port_laws.specs.Palms.{Gives, HearsOf, IsTold, MovesOn};
ghost use Rattle.port_line.specs.Cradles.{palm_before, palm_of};
ghost use Rattle.slp_frames.specs.PacketScan.{scan};
ghost use Rattle.slp_frames.specs.PacketValues.{lent_value, packet_value};

use crate::coming::Coming;
use crate::handheld::Handheld;
use crate::port_fault::PortFault;
use crate::way::Way;
use arrayvec::ArrayVec;
use device_stream::DeviceReport;
use handheld_server::Server;
use hs_folders::Folder;
use slp_frames::{Packet, PacketLent};
use std::alloc::Global;
use std::marker::Model;

/// A handheld and both ways of its cable.
#[derive(Drop)]
pub(crate) struct Cradle<F: Folder> {
    handheld: Handheld<F>,
    toward: Way,
    coming: Coming,
}

impl<F: Folder> Model for Cradle<F> {
    ghost use Rattle.port_line.specs.Cradles.{CradleValue};

    ghost Value = { CradleValue F };

    ghost view = { λ cradle. record {
      handheld = cradle.handheld;
      toward = cradle.toward;
      coming = cradle.coming;
    } };
}

impl<F: Folder> Cradle<F> {
    /// A handheld that says its wake next. For want of memory the server comes back.
    pub(crate) fn new(
        alloc: Global,
        server: Server<F>,
        toward: Way,
        back: Way,
    ) -> Result<Self, Server<F>>
        requires sound { server.sound ≡ true }
        requires stands { Stands (F.contents server.folder) server.device.databases server.device.user }
        requires toward { toward ≡ [] }
        requires back { back ≡ [] }
        ensures palm { IfOk result (λ cradle. palm_of cradle ≡ palm_before (woken server.device)) }
        ensures up { IfOk result (λ cradle. cradle.handheld.is_down ≡ false) }
        ensures server { IfErr result (λ back. back ≡ server) }
    {
        let handheld = Handheld::new(alloc, server)?;
        Ok(Cradle {
            handheld,
            toward,
            coming: Coming::new(back),
        })
    }

    /// Says the packets in these bytes toward the handheld.
    pub(crate) fn say(&mut self, bytes: &[u8]) -> Result<(), PortFault>
        ensures palm { HearsOf (scan bytes.now) (palm_of self.old) (palm_of self.new) }
        ensures fault { result ≢ Err PortFault.Failed }
    {
        self.toward.put(bytes)
    }

    // The handheld's clock ticks.
    fn tick(&mut self) -> Result<(), PortFault>
        ensures palm { MovesOn (palm_of self.old) (palm_of self.new) }
        ensures part { self.new.coming.part ≡ self.old.coming.part }
        ensures fault { result ≢ Err PortFault.Failed }
    {
        let mut said = ArrayVec::new();
        self.handheld.tick(&mut said);
        self.coming.put(said.as_slice())
    }

    /// The clock ticks maybe, what was said toward the handheld comes to it, and what comes from it is
    /// given. Where nothing comes the clock ticks.
    pub(crate) fn read(&mut self, is_due: bool, room: &mut [u8]) -> Result<usize, PortFault>
        ensures bound { IfOk result (λ count. count ≤ length room.new) }
        ensures gives { IfOk result (λ count. IsTold (Gives (take count room.new))
            (Some (palm_of self.old)) (Some (palm_of self.new))) }
        ensures moves { OnErr result (IsTold MovesOn (Some (palm_of self.old))
            (Some (palm_of self.new))) }
        ensures fault { result ≢ Err PortFault.Failed }
    {
        self.pass(is_due)?;
        self.coming.lose();
        if self.coming.is_empty() {
            self.tick()?;
            return Ok(0);
        }
        Ok(self.coming.give(room))
    }

    /// Whether no packet has begun to come.
    pub(crate) fn is_between(&self) -> bool {
        self.coming.is_between()
    }

    /// Whether the handheld broke down.
    pub(crate) fn is_down(&self) -> bool
        ensures { result ≡ self.now.handheld.is_down }
    {
        self.handheld.is_down()
    }

    /// What the handheld performed, and its folder.
    pub(crate) fn into_parts(self) -> (DeviceReport, F)
        ensures performed { texts result.0.performed.items ≡ self.handheld.hand.performed }
        ensures replies { texts result.0.replies.items ≡ self.handheld.hand.replies }
        ensures folder { result.1 ≡ self.handheld.folder }
        ensures stands { self.handheld.is_down ≡ false → Stands (F.contents result.1)
            self.handheld.hand.device.databases self.handheld.hand.device.user }
    {
        let Cradle {
            handheld,
            toward: _,
            coming: _,
        } = self;
        handheld.into_parts()
    }

    // The clock ticks where it is due, and all that was said toward the handheld comes to it.
    fn pass(&mut self, is_due: bool) -> Result<(), PortFault>
        ensures palm { MovesOn (palm_of self.old) (palm_of self.new) }
        ensures fault { result ≢ Err PortFault.Failed }
    {
        if !is_due {
            return self.hear();
        }
        self.tick()?;
        self.hear()
    }

    // All that was said toward the handheld comes to it, but what is lost.
    fn hear(&mut self) -> Result<(), PortFault>
        ensures palm { MovesOn (palm_of self.old) (palm_of self.new) }
        ensures fault { result ≢ Err PortFault.Failed }
    {
        'packet: for _ in 0..self.toward.len() {
            self.hear_oldest()?;
        }
        Ok(())
    }

    // The oldest packet comes to the handheld, or is lost.
    fn hear_oldest(&mut self) -> Result<(), PortFault>
        ensures palm { MovesOn (palm_of self.old) (palm_of self.new) }
        ensures fault { result ≢ Err PortFault.Failed }
    {
        let is_lost = self.toward.is_lost();
        let Some(packet) = self.toward.pop() else {
            return Ok(());
        };
        if is_lost {
            return Ok(());
        }
        let mut said = ArrayVec::new();
        self.handheld.hear(lent(&packet), &mut said);
        self.coming.put(said.as_slice())
    }
}

// The packet, with its body lent.
fn lent(packet: &Packet) -> PacketLent<'_>
    ensures { lent_value result ≡ packet_value packet.now }
{
    PacketLent {
        dest: packet.dest,
        source: packet.source,
        kind: packet.kind,
        id: packet.id,
        body: packet.body.as_slice(),
    }
}
