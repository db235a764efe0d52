//! A link over a port.
ghost use Rattle.std.specs.Prelude.{◌≡◌, ◌≤◌, IfErr, IfOk};
ghost use Rattle.port_laws.specs.Palms.{IsFirstTold};
ghost use Rattle.port_link.specs.Calls.{LeavesWith, first_link};
ghost use Rattle.port_link.specs.Logs.{log_entries};

use crate::cable::Cable;
use crate::desk::Desk;
use crate::entry::Entry;
use crate::greeting::GREETING_ID;
use crate::log::Log;
use crate::port_cause::PortCause;
use crate::talking::linger;
use dlp_commands::Message;
use port_line::Port;
use slp_frames::SlpReader;
use std::alloc::{AllocError, Global};
use std::marker::Model;

/// A link to a handheld behind a port. It keeps all that it said and heard, in order.
#[derive(Drop)]
pub struct PortLink<P: Port> {
    pub(crate) cable: Cable<P>,
    pub(crate) reader: SlpReader,
    // A reply that is mended.
    pub(crate) spare: Message,
    // The transaction of the last message.
    pub(crate) id: u8,
    pub(crate) begun: bool,
    pub(crate) cause: Option<PortCause>,
}

impl<P: Port> Model for PortLink<P> {
    ghost use Rattle.port_link.specs.Calls.{LinkValue};
    ghost use Rattle.port_link.specs.Courses.{scene};
    ghost use Rattle.port_link.specs.Logs.{log_entries};
    ghost use Rattle.port_link.specs.Standing.{IsStanding};

    ghost Value = { LinkValue };

    ghost view = { λ link. record {
      scene = scene (P.given link.cable.port) (P.taken link.cable.port) (P.palm link.cable.port) link.reader.held
          link.cable.desk (log_entries link.cable.log.entries);
      paths = P.paths link.cable.port;
      faults = P.faults link.cable.port;
      id = link.id;
      begun = link.begun;
      cause = link.cause;
    } };

    ghost invariant = { λ link. IsStanding link.cause link.begun link.cable.desk.end
        link.reader.held link.id (P.palm link.cable.port) };
}

impl<P: Port> PortLink<P> {
    /// A link over this port, which is open, and over which nothing was said. For want of memory the port
    /// comes back.
    #[tactic(auto, using(crate::proofs::LinkLaws::standing_first))]
    pub fn new(alloc: Global, port: P) -> Result<PortLink<P>, (AllocError, P)>
        requires { IsFirstTold (P.palm port) }
        ensures link { IfOk result (λ link. link
            ≡ first_link (P.given port) (P.taken port) (P.palm port) (P.paths port) (P.faults port)) }
        ensures back { IfErr result (λ refused. refused.1 ≡ port) }
    {
        let (desk, spare) = match (Desk::new(alloc), Message::new(alloc)) {
            (Ok(desk), Ok(spare)) => (desk, spare),
            (Err(refused), _) | (_, Err(refused)) => return Err((refused, port)),
        };
        Ok(PortLink {
            cable: Cable {
                port,
                desk,
                log: Log::new(alloc),
            },
            reader: SlpReader::new(),
            spare,
            id: GREETING_ID,
            begun: false,
            cause: None,
        })
    }

    /// Why it answers no more, if it doesn't.
    pub fn cause(&self) -> Option<PortCause>
        ensures { result ≡ self.now.cause }
    {
        self.cause
    }

    /// The port, all that was said and heard, and why the link answered no more. Where a handheld was
    /// greeted and nothing went wrong it lingers before that: it acknowledges what comes once more,
    /// until three ticks in a row brought nothing, or ten in all, since its last acknowledgement may be
    /// lost.
    pub fn into_parts(self) -> (P, Vec<Entry>, Option<PortCause>)
        ensures leaves { LeavesWith self.begun self.cause self.scene (P.given result.0)
            (P.taken result.0) (P.palm result.0) (log_entries result.1) }
        ensures cause { result.2 ≡ self.cause }
        ensures paths { P.paths result.0 ≡ self.paths }
        ensures later { self.faults ≤ P.faults result.0 }
    {
        let PortLink {
            mut cable,
            mut reader,
            spare: _spare,
            id: _id,
            begun,
            cause,
        } = self;
        if begun && cause.is_none() {
            linger(&mut cable, &mut reader);
        }
        let Cable {
            port,
            desk: _desk,
            log,
        } = cable;
        let Log {
            alloc: _alloc,
            entries,
        } = log;
        (port, entries, cause)
    }
}
