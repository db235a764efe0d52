//! A desktop's end listens.
ghost use Rattle.std.specs.Prelude.{◌≡◌, ◌<◌, [], IsErrOf, length};
ghost use Rattle.hs_folders.specs.Causes.{HasCause};
ghost use Rattle.slp_frames.specs.PacketScan.{scan};
ghost use Rattle.port_link.specs.CableScenes.{scene_of};
ghost use Rattle.port_link.specs.Courses.{Happens};
ghost use Rattle.port_link.specs.Listening.{Listens, most_events};

use crate::awaited::{Awaited, ends};
use crate::cable::Cable;
use crate::turn::Turn;
use port_line::{Port, PortFault};
use slp_frames::SlpReader;

/// How often a packet is taken or the port is read until what is awaited has to be there: more than
/// sixteen times the bytes of the longest message.
const READS: u32 = 1_048_576;

/// The same of a wake: a port that talks, and is no handheld's, says more.
const WAKE_READS: u32 = 65_536;

/// Takes packets and reads the port until what is awaited is there, or won't come any more.
pub(crate) fn listen<P: Port>(
    cable: &mut Cable<P>,
    reader: &mut SlpReader,
    awaited: Awaited,
) -> Result<Turn, PortFault>
    ensures listens { Listens awaited
        (scene_of P.Port cable.old reader.old.held) (scene_of P.Port cable.new reader.new.held) result }
    ensures paths { P.paths cable.new.port ≡ P.paths cable.old.port }
    ensures cause { HasCause (P.faults cable.old.port) (P.faults cable.new.port)
        (IsErrOf result PortFault.Failed) }
{
    for count in 0..most_reads(awaited) {
        match step(cable, reader) {
            Ok(turn) if ends(awaited, turn) => return Ok(turn),
            Ok(_) => {}
            Err(fault) => return Err(fault),
        }
    }
    Ok(Turn::GoesOn)
}

// How often a packet is taken or the port is read at most.
fn most_reads(awaited: Awaited) -> u32
    ensures { result ≡ most_events awaited }
{
    match awaited {
        Awaited::Wake => WAKE_READS,
        Awaited::Message | Awaited::Delivery | Awaited::Tick => READS,
    }
}

// Takes a packet that the reader holds, or reads the port once.
fn step<P: Port>(cable: &mut Cable<P>, reader: &mut SlpReader) -> Result<Turn, PortFault>
    ensures happens { Happens result
        (scene_of P.Port cable.old reader.old.held) (scene_of P.Port cable.new reader.new.held) }
    ensures paths { P.paths cable.new.port ≡ P.paths cable.old.port }
    ensures cause { HasCause (P.faults cable.old.port) (P.faults cable.new.port)
        (IsErrOf result PortFault.Failed) }
{
    if let Some(packet) = reader.next() {
        return cable.hear(packet);
    }
    read(cable, reader)
}

// Reads the port once: a byte, or nothing for a tick.
fn read<P: Port>(cable: &mut Cable<P>, reader: &mut SlpReader) -> Result<Turn, PortFault>
    requires none { scan reader.old.held ≡ [] }
    requires room { length reader.old.held < 1040 }
    ensures happens { Happens result
        (scene_of P.Port cable.old reader.old.held) (scene_of P.Port cable.new reader.new.held) }
    ensures paths { P.paths cable.new.port ≡ P.paths cable.old.port }
    ensures cause { HasCause (P.faults cable.old.port) (P.faults cable.new.port)
        (IsErrOf result PortFault.Failed) }
{
    let mut room = [0u8; 1];
    let count = match cable.port.read(&mut room) {
        Ok(count) => count,
        Err(fault) => return Err(fault),
    };
    if count == 0 {
        return cable.tick();
    }
    reader.feed(&room);
    Ok(Turn::GoesOn)
}
