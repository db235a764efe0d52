//! A port with a handheld behind it, in memory. It tells what stands there.
ghost use Rattle.std.specs.Prelude.{◌≡◌, ◌≤◌, ◌↔◌, ◌++◌, ◌∷◌, [], Some, None, false, length, take, IfOk, IfErr, IfSome, IsErr, OnOk, OnErr, IsErrOf, true, MatchResult};
ghost use Rattle.std.specs.Option.{option_map};
ghost use Rattle.device_stream.specs.Hands.{woken};
ghost use Rattle.handheld_files.specs.Openings.{Stands};
ghost use Rattle.palm_device.specs.Bounds.{IsBounded};
ghost use Rattle.palm_device.specs.Soundness.{IsDevice};
ghost use Rattle.line_world.specs.Logs.{texts};
ghost use Rattle.hs_folders.specs.Causes.{HasCause};
ghost use Rattle.port_line.specs.Cradles.{palm_before};

use crate::clock::Clock;
use crate::cradle::Cradle;
use crate::losses::Losses;
use crate::port::Port;
use crate::port_fault::PortFault;
use crate::way::Way;
use device_stream::DeviceReport;
use handheld_server::Server;
use hs_folders::Folder;
use std::alloc::Global;
use std::marker::Model;

/// A port in memory with a handheld behind it, whose cable loses packets. It tells the handheld and what
/// is under way, and neither bytes nor paths.
///
/// What was said toward the handheld comes to it when the port is read, and what comes back is given
/// packet by packet. A read that finds nothing under way is a tick, for the handheld too. The handheld
/// breaks down where it can't perform a request, by its folder's fault or for want of memory.
///
/// It is opened once, at any path. A call before that, and opening it again, are faults.
#[derive(Drop)]
pub struct PalmPort<F: Folder> {
    cradle: Cradle<F>,
    clock: Clock,
    is_open: bool,
    faults: u64,
}

impl<F: Folder> Model for PalmPort<F> {
    ghost use Rattle.std.specs.Prelude.{◌≡◌, true, false};
    ghost use Rattle.std.specs.Prelude.{Some};
    ghost use Rattle.port_laws.specs.Palms.{IsFirstTold};
    ghost use Rattle.port_line.specs.Cradles.{PalmPortValue, palm_of};

    ghost Value = { PalmPortValue F };

    ghost view = { λ port. record { cradle = port.cradle; faults = port.faults } };

    ghost invariant = { λ port. port.is_open ≡ false → IsFirstTold (Some (palm_of port.cradle)) };
}

impl<F: Folder> PalmPort<F> {
    /// A port with the handheld over this server behind it, which was never opened. For want of memory the
    /// server comes back.
    pub fn new(alloc: Global, server: Server<F>, losses: Losses) -> Result<Self, Server<F>>
        requires sound { server.sound ≡ true }
        requires stands { Stands (F.contents server.folder) server.device.databases server.device.user }
        requires device { IsDevice server.device }
        requires bounded { IsBounded server.device }
        ensures palm { IfOk result (λ port. ⟦<Self as Port>⟧.palm port
            ≡ Some (palm_before (woken server.device))) }
        ensures up { IfOk result (λ port. port.cradle.handheld.is_down ≡ false) }
        ensures given { IfOk result (λ port. ⟦<Self as Port>⟧.given port ≡ None) }
        ensures taken { IfOk result (λ port. ⟦<Self as Port>⟧.taken port ≡ None) }
        ensures paths { IfOk result (λ port. ⟦<Self as Port>⟧.paths port ≡ None) }
        ensures faults { IfOk result (λ port. ⟦<Self as Port>⟧.faults port ≡ 0) }
        ensures server { IfErr result (λ back. back ≡ server) }
    {
        let Losses {
            toward,
            back,
            ticks,
        } = losses;
        let toward = Way::new(alloc, toward);
        let cradle = Cradle::new(alloc, server, toward, Way::new(alloc, back))?;
        Ok(PalmPort {
            cradle,
            clock: Clock::new(ticks),
            is_open: false,
            faults: 0,
        })
    }

    /// Whether the handheld broke down.
    pub fn is_down(&self) -> bool
        ensures { result ≡ self.now.cradle.handheld.is_down }
    {
        self.cradle.is_down()
    }

    /// What the handheld performed, and its folder, which stands for its device unless it broke down.
    pub fn into_parts(self) -> (DeviceReport, F)
        ensures performed { texts result.0.performed.items ≡ self.cradle.handheld.hand.performed }
        ensures replies { texts result.0.replies.items ≡ self.cradle.handheld.hand.replies }
        ensures folder { result.1 ≡ self.cradle.handheld.folder }
        ensures stands { self.cradle.handheld.is_down ≡ false → Stands (F.contents result.1)
            self.cradle.handheld.hand.device.databases self.cradle.handheld.hand.device.user }
    {
        let PalmPort {
            cradle,
            clock: _,
            is_open: _,
            faults: _,
        } = self;
        cradle.into_parts()
    }

    // Counts a fault.
    fn fail(&mut self) -> PortFault
        ensures fault { result ≡ PortFault.Failed }
        ensures cause { HasCause self.old.faults self.new.faults (result ≡ PortFault.Failed) }
        ensures cradle { self.new.cradle ≡ self.old.cradle }
    {
        self.faults = self.faults.saturating_add(1);
        PortFault::Failed
    }
}

impl<F: Folder> Port for PalmPort<F> {
    ghost use Rattle.port_line.specs.Cradles.{palm_of};

    ghost given = { λ _. None };

    ghost taken = { λ _. None };

    ghost palm = { λ port. Some (palm_of port.cradle) };

    ghost paths = { λ _. None };

    ghost faults = { λ port. port.faults };

    fn open(&mut self, _path: &str) -> Result<(), PortFault> {
        if self.is_open {
            return Err(self.fail());
        }
        self.is_open = true;
        Ok(())
    }

    fn write_all(&mut self, bytes: &[u8]) -> Result<(), PortFault> {
        if !self.is_open {
            return Err(self.fail());
        }
        self.cradle.say(bytes)
    }

    fn read(&mut self, room: &mut [u8]) -> Result<usize, PortFault> {
        if !self.is_open {
            return Err(self.fail());
        }
        let is_due = self.clock.is_due(self.cradle.is_between());
        self.cradle.read(is_due, room)
    }
}
