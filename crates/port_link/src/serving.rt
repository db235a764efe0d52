//! A handheld's end listens at a port.
ghost use Rattle.std.specs.Prelude.{◌≡◌, ◌<◌, ◌∷◌, [], true, IfErr, IsErrOf, OnOk, length};
ghost use Rattle.hs_folders.specs.Causes.{HasCause};
ghost use Rattle.slp_frames.specs.PacketScan.{scan};
ghost use Rattle.device_stream.specs.Courses.{IsReady, PerformsAny};
ghost use Rattle.port_link.specs.Desks.{Event};
ghost use Rattle.port_link.specs.VigilCourses.{GoesOn, GoesOut};
ghost use Rattle.port_link.specs.Ends.{IsSudden};
ghost use Rattle.port_link.specs.VigilScenes.{LeavesPort, scene_of};

use crate::ends::port_end;
use crate::entry::Entry;
use crate::port_end::PortEnd;
use crate::vigil::{PATIENCE, Vigil};
use crate::vigil_log::Log;
use arrayvec::ArrayVec;
use device_stream::{DeviceReport, MAX_SAID, Talk};
use handheld_server::Server;
use hs_folders::Folder;
use port_line::Port;
use slp_frames::SlpReader;
use std::alloc::Global;

/// How often a packet is taken or the port is read until the talk has to be over.
const EVENTS: u32 = 67_108_865;

/// What a handheld's end at a port leaves: how it ended, what was performed, all that was said and heard, the folder and the
/// port.
#[derive(Drop)]
pub struct AtPort<F, P> {
    pub end: PortEnd,
    pub report: DeviceReport,
    pub log: Vec<Entry>,
    pub folder: F,
    pub port: P,
}

/// Says the wake over a port, which is open, takes what comes and says what goes back, up to the end of the talk or of its
/// patience.
pub fn serve_at_port<F: Folder, P: Port>(alloc: Global, server: Server<F>, port: P) -> AtPort<F, P>
    requires { server.sound ≡ true }
    // The packets are those of the port's bytes, the report and the folder are what the talk made of them.
    ensures run { LeavesPort F.Folder P.Port server port result }

    // Who is to blame.
    ensures keeper { HasCause (F.faults server.folder) (F.faults result.folder)
        (result.end ≡ PortEnd.Keeper) }
    ensures port { HasCause (P.faults port) (P.faults result.port)
        (result.end ≡ PortEnd.PortFailed) }

    ensures paths { P.paths result.port ≡ P.paths port }
{
    let mut out: ArrayVec<u8, MAX_SAID> = ArrayVec::new();
    let talk = match Talk::new(alloc, server, &mut out) {
        Ok(talk) => talk,
        Err(server) => {
            return AtPort {
                end: PortEnd::NoMemory,
                report: DeviceReport {
                    performed: Vec::new(alloc),
                    replies: Vec::new(alloc),
                },
                log: Vec::new(alloc),
                folder: server.into_folder(),
                port,
            }
        }
    };
    let mut waits = Vigil {
        talk,
        port,
        patience: PATIENCE,
        log: Log::new(alloc),
    };
    let end = wake(&mut waits, &mut SlpReader::new(), &out);
    let Vigil {
        talk,
        port,
        patience: _patience,
        log,
    } = waits;
    let (report, folder) = talk.into_parts();
    let Log {
        alloc: _alloc,
        entries,
    } = log;
    AtPort {
        end,
        report,
        log: entries,
        folder,
        port,
    }
}

// Says the wake, and listens.
fn wake<F: Folder, P: Port>(waits: &mut Vigil<F, P>, reader: &mut SlpReader, text: &[u8]) -> PortEnd
    requires { IsReady waits.old.talk }
    ensures goes { GoesOut text.now result
        (scene_of P.Port waits.old reader.old.held) (scene_of P.Port waits.new reader.new.held) }
    ensures performs { PerformsAny F.contents F.moments F.paths F.faults
        waits.old.talk waits.new.talk }
    ensures keeper { HasCause (F.faults waits.old.talk.folder) (F.faults waits.new.talk.folder)
        (result ≡ PortEnd.Keeper) }
    ensures port { HasCause (P.faults waits.old.port) (P.faults waits.new.port)
        (result ≡ PortEnd.PortFailed) }
    ensures paths { P.paths waits.new.port ≡ P.paths waits.old.port }
{
    match waits.say(text) {
        Ok(()) => listen(waits, reader),
        Err(fault) => port_end(fault),
    }
}

// Takes packets and reads the port until the talk is over, or patience is.
fn listen<F: Folder, P: Port>(waits: &mut Vigil<F, P>, reader: &mut SlpReader) -> PortEnd
    requires { IsReady waits.old.talk }
    ensures goes { GoesOut [] result
        (scene_of P.Port waits.old reader.old.held) (scene_of P.Port waits.new reader.new.held) }
    ensures performs { PerformsAny F.contents F.moments F.paths F.faults
        waits.old.talk waits.new.talk }
    ensures keeper { HasCause (F.faults waits.old.talk.folder) (F.faults waits.new.talk.folder)
        (result ≡ PortEnd.Keeper) }
    ensures port { HasCause (P.faults waits.old.port) (P.faults waits.new.port)
        (result ≡ PortEnd.PortFailed) }
    ensures paths { P.paths waits.new.port ≡ P.paths waits.old.port }
{
    for count in 0..EVENTS {
        match step(waits, reader) {
            Ok(()) => {}
            Err(end) => return end,
        }
    }
    PortEnd::TooLong
}

// Takes a packet that the reader holds, or reads the port once.
fn step<F: Folder, P: Port>(waits: &mut Vigil<F, P>, reader: &mut SlpReader) -> Result<(), PortEnd>
    requires { IsReady waits.old.talk }
    ensures goes { OnOk result ((event : Event) × GoesOn (event ∷ [])
        (scene_of P.Port waits.old reader.old.held) (scene_of P.Port waits.new reader.new.held)) }
    ensures ready { OnOk result (IsReady waits.new.talk) }
    ensures stops { IfErr result (λ end. GoesOut [] end
        (scene_of P.Port waits.old reader.old.held) (scene_of P.Port waits.new reader.new.held)) }
    ensures sudden { IfErr result IsSudden }
    ensures performs { PerformsAny F.contents F.moments F.paths F.faults
        waits.old.talk waits.new.talk }
    ensures keeper { HasCause (F.faults waits.old.talk.folder) (F.faults waits.new.talk.folder)
        (IsErrOf result PortEnd.Keeper) }
    ensures port { HasCause (P.faults waits.old.port) (P.faults waits.new.port)
        (IsErrOf result PortEnd.PortFailed) }
    ensures paths { P.paths waits.new.port ≡ P.paths waits.old.port }
{
    if let Some(packet) = reader.next() {
        return waits.take(packet);
    }
    read(waits, reader)
}

// Reads the port once: a byte, or nothing for a tick.
fn read<F: Folder, P: Port>(waits: &mut Vigil<F, P>, reader: &mut SlpReader) -> Result<(), PortEnd>
    requires ready { IsReady waits.old.talk }
    requires none { scan reader.old.held ≡ [] }
    requires room { length reader.old.held < 1040 }
    ensures goes { OnOk result ((event : Event) × GoesOn (event ∷ [])
        (scene_of P.Port waits.old reader.old.held) (scene_of P.Port waits.new reader.new.held)) }
    ensures ready { OnOk result (IsReady waits.new.talk) }
    ensures stops { IfErr result (λ end. GoesOut [] end
        (scene_of P.Port waits.old reader.old.held) (scene_of P.Port waits.new reader.new.held)) }
    ensures sudden { IfErr result IsSudden }
    ensures performs { PerformsAny F.contents F.moments F.paths F.faults
        waits.old.talk waits.new.talk }
    ensures keeper { HasCause (F.faults waits.old.talk.folder) (F.faults waits.new.talk.folder)
        (IsErrOf result PortEnd.Keeper) }
    ensures port { HasCause (P.faults waits.old.port) (P.faults waits.new.port)
        (IsErrOf result PortEnd.PortFailed) }
    ensures paths { P.paths waits.new.port ≡ P.paths waits.old.port }
{
    let mut room = [0u8; 1];
    let count = match waits.port.read(&mut room) {
        Ok(count) => count,
        Err(fault) => return Err(port_end(fault)),
    };
    if count == 0 {
        return waits.tick();
    }
    reader.feed(&room);
    Ok(())
}
