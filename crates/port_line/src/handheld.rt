//! A handheld in memory.
ghost use Rattle.std.specs.Prelude.{◌≡◌, ◌↔◌, true, false, length, IfOk, IfErr, IsTrue};
ghost use Rattle.device_stream.specs.Hands.{woken};
ghost use Rattle.handheld_files.specs.Openings.{Stands};
ghost use Rattle.line_world.specs.Logs.{texts};
ghost use Rattle.port_line.specs.Cradles.{Hears, Ticks};
ghost use Rattle.slp_frames.specs.PacketScan.{scan};
ghost use Rattle.slp_frames.specs.PacketValues.{lent_value};

use arrayvec::ArrayVec;
use device_stream::{DeviceReport, MAX_SAID, Talk};
use handheld_server::Server;
use hs_folders::Folder;
use slp_frames::PacketLent;
use std::alloc::Global;
use std::marker::Model;

/// A handheld over a folder. It breaks down where a request can't be performed, by its folder's fault or
/// for want of memory, and hears and says nothing any more then.
#[derive(Drop)]
pub(crate) struct Handheld<F: Folder> {
    talk: Talk<F>,
    is_down: bool,
}

impl<F: Folder> Model for Handheld<F> {
    ghost use Rattle.std.specs.Prelude.{◌≡◌, ◌≤◌, false, length};
    ghost use Rattle.port_line.specs.Cradles.{HandheldValue, IsUp};

    ghost Value = { HandheldValue F };

    ghost view = { λ handheld. record {
      folder = handheld.talk.folder;
      hand = handheld.talk.hand;
      is_down = handheld.is_down;
    } };

    ghost invariant = { λ handheld.
        (handheld.is_down ≡ false
        → IsUp F.contents handheld.talk.folder handheld.talk.hand handheld.talk.sound)
        × (length handheld.talk.hand.end.message ≤ 65535) };
}

impl<F: Folder> Handheld<F> {
    /// A handheld that said its wake. For want of memory the server comes back.
    pub(crate) fn new(alloc: Global, server: Server<F>) -> Result<Self, Server<F>>
        requires sound { server.sound ≡ true }
        requires stands { Stands (F.contents server.folder) server.device.databases server.device.user }
        ensures handheld { IfOk result (λ handheld. handheld ≡ record {
          folder = server.folder;
          hand = woken server.device;
          is_down = false;
        }) }
        ensures server { IfErr result (λ back. back ≡ server) }
    {
        let mut wake = ArrayVec::new();
        let talk = Talk::new(alloc, server, &mut wake)?;
        Ok(Handheld {
            talk,
            is_down: false,
        })
    }

    /// Hears a packet, and replaces `out` by what goes back.
    pub(crate) fn hear(&mut self, packet: PacketLent<'_>, out: &mut ArrayVec<u8, MAX_SAID>)
        ensures { Hears self.old.hand (lent_value packet.entry) (scan out.new.items) self.new.hand }
    {
        out.clear();
        if self.is_down || self.talk.over().is_some() {
            return;
        }
        match self.talk.take(packet, out) {
            Ok(()) => {}
            Err(_) => {
                out.clear();
                self.is_down = true;
            }
        }
    }

    /// Says its piece that waits once more, unless that had its ten tries, and replaces `out` by it.
    pub(crate) fn tick(&mut self, out: &mut ArrayVec<u8, MAX_SAID>)
        ensures { Ticks self.old.hand (scan out.new.items) self.new.hand }
    {
        out.clear();
        if self.is_down {
            return;
        }
        let _is_spent = self.talk.wait(out).is_err();
    }

    /// Whether it broke down.
    pub(crate) fn is_down(&self) -> bool
        ensures { result ≡ self.now.is_down }
    {
        self.is_down
    }

    /// What it performed, and its folder.
    pub(crate) fn into_parts(self) -> (DeviceReport, F)
        ensures performed { texts result.0.performed.items ≡ self.hand.performed }
        ensures replies { texts result.0.replies.items ≡ self.hand.replies }
        ensures folder { result.1 ≡ self.folder }
        ensures stands { self.is_down ≡ false
            → Stands (F.contents result.1) self.hand.device.databases self.hand.device.user }
    {
        let Handheld { talk, is_down: _ } = self;
        talk.into_parts()
    }
}
