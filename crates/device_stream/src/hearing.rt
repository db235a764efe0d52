//! A talk takes packets, and a sink what is said.
ghost use Rattle.std.specs.Prelude.{◌≡◌, ◌++◌, ◌∷◌, [], IfErr, IsErrOf, OnErr, OnOk};
ghost use Rattle.std.specs.Option.{option_map};
ghost use Rattle.hs_folders.specs.Appends.{AppendsPrefix};
ghost use Rattle.hs_folders.specs.Causes.{HasCause};
ghost use Rattle.slp_frames.specs.PacketValues.{lent_value};
ghost use Rattle.slp_frames.specs.Streams.{IsDrained};
ghost use Rattle.device_stream.specs.Courses.{Breaks, Hears, IsReady, IsWithin, PerformsAny, Stops, HasTalked};
ghost use Rattle.device_stream.specs.Ends.{IsSinkEnd, end_of_fault, end_of_talk};

use crate::device_end::DeviceEnd;
use crate::talk::Talk;
use crate::talk_end::TalkEnd;
use arrayvec::ArrayVec;
use handheld_server::ServeFault;
use hs_folders::{Folder, Sink, SinkFault};
use padp_end::MAX_SAID;
use slp_frames::{PacketLent, SlpReader};

/// Takes the packets that this piece of a stream completes.
pub(crate) fn take_piece<F: Folder, T: Sink>(
    talk: &mut Talk<F>,
    reader: &mut SlpReader,
    piece: &[u8],
    sink: &mut T,
    out: &mut ArrayVec<u8, MAX_SAID>,
) -> Result<(), DeviceEnd>
    requires ready { IsReady talk.old }
    requires drained { IsDrained reader.old.held }
    ensures hears { OnOk result (Hears (reader.old.held ++ piece.now) reader.new.held
        talk.old.hand talk.new.hand (T.taken sink.old) (T.taken sink.new)) }
    ensures ready { OnOk result (IsReady talk.new) }
    ensures drained { OnOk result (IsDrained reader.new.held) }
    ensures breaks { IfErr result (λ end. Breaks end (reader.old.held ++ piece.now)
        talk.old.hand talk.new.hand (T.taken sink.old) (T.taken sink.new)) }
    ensures within { IfErr result IsWithin }
    ensures performs { PerformsAny F.contents F.moments F.paths F.faults talk.old talk.new }
    ensures keeper { HasCause (F.faults talk.old.folder) (F.faults talk.new.folder)
        (IsErrOf result DeviceEnd.Keeper) }
    ensures sink { HasCause (T.faults sink.old) (T.faults sink.new)
        (IsErrOf result DeviceEnd.SinkWrite) }
    ensures paths { T.paths sink.new ≡ T.paths sink.old }
{
    let mut rest = piece;
    while !rest.is_empty() {
        let count = reader.feed(rest);
        rest = &rest[count..];
        drain(talk, reader, sink, out)?;
    }
    Ok(())
}

/// Takes the packets that the reader holds.
pub(crate) fn drain<F: Folder, T: Sink>(
    talk: &mut Talk<F>,
    reader: &mut SlpReader,
    sink: &mut T,
    out: &mut ArrayVec<u8, MAX_SAID>,
) -> Result<(), DeviceEnd>
    requires { IsReady talk.old }
    ensures hears { OnOk result (Hears reader.old.held reader.new.held
        talk.old.hand talk.new.hand (T.taken sink.old) (T.taken sink.new)) }
    ensures ready { OnOk result (IsReady talk.new) }
    ensures drained { OnOk result (IsDrained reader.new.held) }
    ensures breaks { IfErr result (λ end. Breaks end reader.old.held
        talk.old.hand talk.new.hand (T.taken sink.old) (T.taken sink.new)) }
    ensures within { IfErr result IsWithin }
    ensures performs { PerformsAny F.contents F.moments F.paths F.faults talk.old talk.new }
    ensures keeper { HasCause (F.faults talk.old.folder) (F.faults talk.new.folder)
        (IsErrOf result DeviceEnd.Keeper) }
    ensures sink { HasCause (T.faults sink.old) (T.faults sink.new)
        (IsErrOf result DeviceEnd.SinkWrite) }
    ensures paths { T.paths sink.new ≡ T.paths sink.old }
{
    while let Some(packet) = reader.next() {
        take_packet(talk, packet, sink, out)?;
    }
    Ok(())
}

/// Takes one packet, and writes what is said to it.
pub(crate) fn take_packet<F: Folder, T: Sink>(
    talk: &mut Talk<F>,
    packet: PacketLent<'_>,
    sink: &mut T,
    out: &mut ArrayVec<u8, MAX_SAID>,
) -> Result<(), DeviceEnd>
    requires { IsReady talk.old }
    ensures talked { OnOk result (HasTalked talk.old.hand talk.new.hand
        (T.taken sink.old) (T.taken sink.new) (lent_value packet.entry ∷ [])) }
    ensures ready { OnOk result (IsReady talk.new) }
    ensures stops { IfErr result (λ end. Stops end talk.old.hand talk.new.hand
        (T.taken sink.old) (T.taken sink.new) (lent_value packet.entry ∷ [])) }
    ensures within { IfErr result IsWithin }
    ensures performs { PerformsAny F.contents F.moments F.paths F.faults talk.old talk.new }
    ensures keeper { HasCause (F.faults talk.old.folder) (F.faults talk.new.folder)
        (IsErrOf result DeviceEnd.Keeper) }
    ensures sink { HasCause (T.faults sink.old) (T.faults sink.new)
        (IsErrOf result DeviceEnd.SinkWrite) }
    ensures paths { T.paths sink.new ≡ T.paths sink.old }
{
    if let Err(fault) = talk.take(packet, out) {
        return Err(serving_end(fault));
    }
    write(sink, out)?;
    match talk.over() {
        Some(over) => Err(talking_end(over)),
        None => Ok(()),
    }
}

/// Writes what was said. Where nothing was, the sink isn't asked.
pub(crate) fn write<T: Sink>(sink: &mut T, said: &[u8]) -> Result<(), DeviceEnd>
    ensures written { OnOk result (T.taken sink.new
        ≡ option_map (λ taken. taken ++ said.now) (T.taken sink.old)) }
    ensures prefix { OnErr result (AppendsPrefix (T.taken sink.old) (T.taken sink.new) said.now) }
    ensures kind { IfErr result IsSinkEnd }
    ensures cause { HasCause (T.faults sink.old) (T.faults sink.new)
        (IsErrOf result DeviceEnd.SinkWrite) }
    ensures paths { T.paths sink.new ≡ T.paths sink.old }
{
    if said.is_empty() {
        return Ok(());
    }
    match sink.write_all(said) {
        Ok(()) => Ok(()),
        Err(SinkFault::Failed) => Err(DeviceEnd::SinkWrite),
        Err(SinkFault::NoMemory) => Err(DeviceEnd::NoMemory),
    }
}

// How a run ends where a request isn't served.
fn serving_end(fault: ServeFault) -> DeviceEnd
    ensures { result ≡ end_of_fault fault }
{
    match fault {
        ServeFault::Keeper => DeviceEnd::Keeper,
        ServeFault::NoMemory => DeviceEnd::NoMemory,
    }
}

// How a run ends where the talk is over.
fn talking_end(over: TalkEnd) -> DeviceEnd
    ensures { result ≡ end_of_talk over }
{
    match over {
        TalkEnd::Ended => DeviceEnd::Ended,
        TalkEnd::Aborted => DeviceEnd::StreamAborted,
        TalkEnd::BadHello => DeviceEnd::BadHello,
    }
}
