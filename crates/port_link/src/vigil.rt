//! A handheld's end that waits at a port.
ghost use Rattle.std.specs.Prelude.{◌≡◌, ◌≤◌, ◌<◌, ◌++◌, ◌∷◌, [], None, IfErr, IsErrOf, OnErr, OnOk};
ghost use Rattle.std.specs.Result.{result_err};
ghost use Rattle.hs_folders.specs.Causes.{HasCause};
ghost use Rattle.slp_frames.specs.PacketValues.{lent_value};
ghost use Rattle.device_stream.specs.Courses.{IsReady, PerformsAny};
ghost use Rattle.port_link.specs.Courses.{Tells};
ghost use Rattle.port_link.specs.Desks.{Came, Read};
ghost use Rattle.port_link.specs.Logs.{log_entries, speech};
ghost use Rattle.port_link.specs.VigilScenes.{StepsBy, StopsBy};

use crate::ends::{port_end, serving_end, talking_end};
use crate::port_end::PortEnd;
use crate::vigil_log::Log;
use arrayvec::ArrayVec;
use device_stream::{MAX_SAID, Talk};
use hs_folders::Folder;
use port_line::{Port, PortFault};
use slp_frames::PacketLent;

/// How many ticks in a row it bears.
pub(crate) const PATIENCE: u8 = 30;

/// A handheld's end, the port that it speaks and listens at, and what was said and heard there.
#[derive(Drop)]
pub(crate) struct Vigil<F: Folder, P: Port> {
    pub(crate) talk: Talk<F>,
    pub(crate) port: P,
    // How many silent ticks more it bears.
    pub(crate) patience: u8,
    pub(crate) log: Log,
}

impl<F: Folder, P: Port> Vigil<F, P> {
    /// Takes a packet that came, and says what goes back.
    pub(crate) fn take(&mut self, packet: PacketLent<'_>) -> Result<(), PortEnd>
        requires { IsReady self.old.talk }
        ensures stepped { OnOk result (StepsBy P.Port (Came (lent_value packet.entry))
            self.old self.new) }
        ensures ready { OnOk result (IsReady self.new.talk) }
        ensures stops { IfErr result (λ end. StopsBy P.Port end (Came (lent_value packet.entry) ∷ [])
            self.old self.new) }
        ensures performs { PerformsAny F.contents F.moments F.paths F.faults
            self.old.talk self.new.talk }
        ensures keeper { HasCause (F.faults self.old.talk.folder) (F.faults self.new.talk.folder)
            (IsErrOf result PortEnd.Keeper) }
        ensures port { HasCause (P.faults self.old.port) (P.faults self.new.port)
            (IsErrOf result PortEnd.PortFailed) }
        ensures given { P.given self.new.port ≡ P.given self.old.port }
        ensures paths { P.paths self.new.port ≡ P.paths self.old.port }
    {
        let mut out: ArrayVec<u8, MAX_SAID> = ArrayVec::new();
        if let Err(fault) = self.talk.take(packet, &mut out) {
            return Err(serving_end(fault));
        }
        self.patience = PATIENCE;
        if self.log.hear(packet).is_err() {
            return Err(PortEnd::NoMemory);
        }
        if let Err(fault) = self.say(&out) {
            return Err(port_end(fault));
        }
        match self.talk.over() {
            Some(over) => Err(talking_end(over)),
            None => Ok(()),
        }
    }

    /// A tick brought nothing: says the piece that waits once more, and loses patience.
    pub(crate) fn tick(&mut self) -> Result<(), PortEnd>
        requires { IsReady self.old.talk }
        ensures stepped { OnOk result (StepsBy P.Port (Read []) self.old self.new) }
        ensures ready { OnOk result (IsReady self.new.talk) }
        ensures stops { IfErr result (λ end. StopsBy P.Port end (Read [] ∷ []) self.old self.new) }
        ensures performs { PerformsAny F.contents F.moments F.paths F.faults
            self.old.talk self.new.talk }
        ensures keeper { HasCause (F.faults self.old.talk.folder) (F.faults self.new.talk.folder)
            (IsErrOf result PortEnd.Keeper) }
        ensures port { HasCause (P.faults self.old.port) (P.faults self.new.port)
            (IsErrOf result PortEnd.PortFailed) }
        ensures given { P.given self.new.port ≡ P.given self.old.port }
        ensures paths { P.paths self.new.port ≡ P.paths self.old.port }
    {
        let mut out: ArrayVec<u8, MAX_SAID> = ArrayVec::new();
        let spent = self.talk.wait(&mut out).is_err();
        self.patience = self.patience.saturating_sub(1);
        if self.log.tick().is_err() {
            return Err(PortEnd::NoMemory);
        }
        if let Err(fault) = self.say(&out) {
            return Err(port_end(fault));
        }
        if spent {
            return Err(PortEnd::LineDown);
        }
        if self.patience == 0 {
            return Err(PortEnd::LineSilent);
        }
        Ok(())
    }

    /// Keeps what is said, and writes it. Where nothing is, the port isn't asked.
    pub(crate) fn say(&mut self, text: &[u8]) -> Result<(), PortFault>
        ensures tells { Tells (result_err result)
            (P.taken self.old.port) (P.taken self.new.port)
            (log_entries self.old.log.entries) (log_entries self.new.log.entries)
            (speech text.now) }
        ensures talk { self.new.talk ≡ self.old.talk }
        ensures patience { self.new.patience ≡ self.old.patience }
        ensures given { P.given self.new.port ≡ P.given self.old.port }
        ensures paths { P.paths self.new.port ≡ P.paths self.old.port }
        ensures cause { HasCause (P.faults self.old.port) (P.faults self.new.port)
            (IsErrOf result PortFault.Failed) }
    {
        if text.is_empty() {
            return Ok(());
        }
        if self.log.say(text).is_err() {
            return Err(PortFault::NoMemory);
        }
        self.port.write_all(text)
    }
}
