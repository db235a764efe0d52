//! A desktop's end at a port.
ghost use Rattle.std.specs.Prelude.{◌≡◌, ◌≤◌, ◌<◌, ◌++◌, ◌∷◌, [], Ok, IfOk, IsErrOf, OnErr, OnOk, length};
ghost use Rattle.std.specs.Result.{result_err};
ghost use Rattle.hs_folders.specs.Causes.{HasCause};
ghost use Rattle.port_laws.specs.Cables.{packets_of};
ghost use Rattle.port_laws.specs.Palms.{HearsOf, IsTold};
ghost use Rattle.slp_frames.specs.PacketScan.{scan};
ghost use Rattle.slp_frames.specs.PacketValues.{lent_value};
ghost use Rattle.port_link.specs.CableScenes.{CableTells};
ghost use Rattle.port_link.specs.Desks.{Awaits, Begins, Came, reacts, silence};
ghost use Rattle.port_link.specs.Logs.{speech};
ghost use Rattle.port_link.specs.Logs as entry;

use crate::desk::Desk;
use crate::log::Log;
use crate::turn::Turn;
use arrayvec::ArrayVec;
use padp_end::MAX_SAID;
use port_line::{Port, PortFault};
use slp_frames::{PacketLent, SlpReader};

/// A desktop's end, the port that it speaks and listens at, and what was said and heard there.
#[derive(Drop)]
pub(crate) struct Cable<P: Port> {
    pub(crate) port: P,
    pub(crate) desk: Desk,
    pub(crate) log: Log,
}

impl<P: Port> Cable<P> {
    /// Begins a message of this transaction.
    pub(crate) fn begin(&mut self, id: u8, message: &[u8]) -> Result<(), PortFault>
        requires { length message.now ≤ 65535 }
        ensures desk { self.new.desk ≡ (reacts self.old.desk (Begins id message.now)).desk }
        ensures tells { CableTells P.Port (result_err result) self.old self.new
            (entry.said_entries (reacts self.old.desk (Begins id message.now)).said) }
        ensures palm { IsTold (HearsOf (packets_of (reacts self.old.desk
            (Begins id message.now)).said)) (P.palm self.old.port) (P.palm self.new.port) }
        ensures given { P.given self.new.port ≡ P.given self.old.port }
        ensures paths { P.paths self.new.port ≡ P.paths self.old.port }
        ensures cause { HasCause (P.faults self.old.port) (P.faults self.new.port)
            (IsErrOf result PortFault.Failed) }
    {
        let mut out: ArrayVec<u8, MAX_SAID> = ArrayVec::new();
        self.desk.begin(id, message, &mut out);
        self.say(&out)
    }

    /// Takes a packet that came.
    pub(crate) fn hear(&mut self, packet: PacketLent<'_>) -> Result<Turn, PortFault>
        ensures desk { self.new.desk
            ≡ (reacts self.old.desk (Came (lent_value packet.entry))).desk }
        ensures turn { IfOk result (λ turn.
            turn ≡ (reacts self.old.desk (Came (lent_value packet.entry))).turn) }
        ensures tells { CableTells P.Port (result_err result) self.old self.new
            (entry.entries_at self.old.desk (Came (lent_value packet.entry))) }
        ensures palm { IsTold (HearsOf (packets_of (reacts self.old.desk
            (Came (lent_value packet.entry))).said)) (P.palm self.old.port) (P.palm self.new.port) }
        ensures given { P.given self.new.port ≡ P.given self.old.port }
        ensures paths { P.paths self.new.port ≡ P.paths self.old.port }
        ensures cause { HasCause (P.faults self.old.port) (P.faults self.new.port)
            (IsErrOf result PortFault.Failed) }
    {
        let mut out: ArrayVec<u8, MAX_SAID> = ArrayVec::new();
        let turn = self.desk.hear(packet, &mut out);
        if self.log.hear(packet).is_err() {
            return Err(PortFault::NoMemory);
        }
        match self.say(&out) {
            Ok(()) => Ok(turn),
            Err(fault) => Err(fault),
        }
    }

    /// A tick brought nothing.
    pub(crate) fn tick(&mut self) -> Result<Turn, PortFault>
        ensures desk { self.new.desk ≡ (silence self.old.desk).desk }
        ensures turn { IfOk result (λ turn. turn ≡ (silence self.old.desk).turn) }
        ensures tells { CableTells P.Port (result_err result) self.old self.new
            (entry.Silent ∷ entry.said_entries (silence self.old.desk).said) }
        ensures palm { IsTold (HearsOf (packets_of (silence self.old.desk).said))
            (P.palm self.old.port) (P.palm self.new.port) }
        ensures given { P.given self.new.port ≡ P.given self.old.port }
        ensures paths { P.paths self.new.port ≡ P.paths self.old.port }
        ensures cause { HasCause (P.faults self.old.port) (P.faults self.new.port)
            (IsErrOf result PortFault.Failed) }
    {
        let mut out: ArrayVec<u8, MAX_SAID> = ArrayVec::new();
        let turn = self.desk.tick(&mut out);
        if self.log.tick().is_err() {
            return Err(PortFault::NoMemory);
        }
        match self.say(&out) {
            Ok(()) => Ok(turn),
            Err(fault) => Err(fault),
        }
    }

    // Keeps what is said, and writes it. Where nothing is, the port isn't asked.
    fn say(&mut self, text: &[u8]) -> Result<(), PortFault>
        ensures tells { CableTells P.Port (result_err result) self.old self.new
            (speech text.now) }
        ensures desk { self.new.desk ≡ self.old.desk }
        ensures palm { IsTold (HearsOf (scan text.now)) (P.palm self.old.port)
            (P.palm self.new.port) }
        ensures given { P.given self.new.port ≡ P.given self.old.port }
        ensures paths { P.paths self.new.port ≡ P.paths self.old.port }
        ensures cause { HasCause (P.faults self.old.port) (P.faults self.new.port)
            (IsErrOf result PortFault.Failed) }
    {
        if text.is_empty() {
            return Ok(());
        }
        if self.log.say(text).is_err() {
            return Err(PortFault::NoMemory);
        }
        self.port.write_all(text)
    }
}
