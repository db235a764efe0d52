//! A talk over a source and a sink.
ghost use Rattle.std.specs.Prelude.{◌≡◌, ◌≤◌, ◌<◌, ◌↔◌, ⊤, [], true, IfOk, IfSome, IsErrOf, OnErr, take, drop, length};
ghost use Rattle.std.specs.Option.{option_map};
ghost use Rattle.hs_folders.specs.Causes.{HasCause};
ghost use Rattle.device_stream.specs.Courses.{IsReady, PerformsAny};
ghost use Rattle.device_stream.specs.Runs.{LeavesRun, Listens};

use crate::device_end::DeviceEnd;
use crate::hearing::{take_piece, write};
use crate::report::DeviceReport;
use crate::talk::Talk;
use arrayvec::ArrayVec;
use handheld_server::Server;
use hs_folders::{Folder, Sink, Source, SourceFault};
use padp_end::MAX_SAID;
use slp_frames::SlpReader;
use std::alloc::Global;

/// How many bytes are read at most.
const LIMIT: usize = 67_108_865;

/// How many bytes are read at a time.
const PIECE: usize = 4096;

/// Says the wake, reads what is left of the source, takes the packets in it, and writes what is said to
/// the sink, up to the end of the talk or of the source. The folder comes back.
pub fn run_device<F: Folder, S: Source, T: Sink>(
    alloc: Global,
    server: Server<F>,
    source: &mut S,
    sink: &mut T,
) -> (DeviceEnd, DeviceReport, F)
    requires { server.sound ≡ true }
    // The packets are the first of what was read, the report and the folder are what the talk made of them.
    ensures run { LeavesRun F.Folder S.Source T.Sink server source.old source.new
        sink.old sink.new result.0 result.1 result.2 }

    // Who is to blame.
    ensures keeper { HasCause (F.faults server.folder) (F.faults result.2)
        (result.0 ≡ DeviceEnd.Keeper) }
    ensures source { HasCause (S.faults source.old) (S.faults source.new)
        (result.0 ≡ DeviceEnd.SourceRead) }
    ensures sink { HasCause (T.faults sink.old) (T.faults sink.new)
        (result.0 ≡ DeviceEnd.SinkWrite) }

    ensures source_path { S.paths source.new ≡ S.paths source.old }
    ensures sink_path { T.paths sink.new ≡ T.paths sink.old }
{
    let mut out = ArrayVec::new();
    let mut talk = match Talk::new(alloc, server, &mut out) {
        Ok(talk) => talk,
        Err(server) => {
            return (
                DeviceEnd::NoMemory,
                DeviceReport::new(alloc),
                server.into_folder(),
            )
        }
    };
    let end = run(&mut talk, source, sink, &mut out);
    let (report, folder) = talk.into_parts();
    (end, report, folder)
}

/// Writes the wake, and takes the packets of what is left of the source.
fn run<F: Folder, S: Source, T: Sink>(
    talk: &mut Talk<F>,
    source: &mut S,
    sink: &mut T,
    out: &mut ArrayVec<u8, MAX_SAID>,
) -> DeviceEnd
    requires { IsReady talk.old }
    ensures listens { Listens (S.left source.old) (S.left source.new) talk.old.hand talk.new.hand
        (T.taken sink.old) (T.taken sink.new) out.old.items result }
    ensures performs { PerformsAny F.contents F.moments F.paths F.faults talk.old talk.new }
    ensures keeper { HasCause (F.faults talk.old.folder) (F.faults talk.new.folder)
        (result ≡ DeviceEnd.Keeper) }
    ensures source { HasCause (S.faults source.old) (S.faults source.new)
        (result ≡ DeviceEnd.SourceRead) }
    ensures sink { HasCause (T.faults sink.old) (T.faults sink.new)
        (result ≡ DeviceEnd.SinkWrite) }
    ensures source_path { S.paths source.new ≡ S.paths source.old }
    ensures sink_path { T.paths sink.new ≡ T.paths sink.old }
{
    match write(sink, out) {
        Ok(()) => listen(talk, source, sink, out),
        Err(end) => end,
    }
}

/// Takes the packets of what is left of the source, up to the end of the talk or of the source.
fn listen<F: Folder, S: Source, T: Sink>(
    talk: &mut Talk<F>,
    source: &mut S,
    sink: &mut T,
    out: &mut ArrayVec<u8, MAX_SAID>,
) -> DeviceEnd
    requires { IsReady talk.old }
    ensures listens { Listens (S.left source.old) (S.left source.new) talk.old.hand talk.new.hand
        (T.taken sink.old) (T.taken sink.new) [] result }
    ensures performs { PerformsAny F.contents F.moments F.paths F.faults talk.old talk.new }
    ensures keeper { HasCause (F.faults talk.old.folder) (F.faults talk.new.folder)
        (result ≡ DeviceEnd.Keeper) }
    ensures source { HasCause (S.faults source.old) (S.faults source.new)
        (result ≡ DeviceEnd.SourceRead) }
    ensures sink { HasCause (T.faults sink.old) (T.faults sink.new)
        (result ≡ DeviceEnd.SinkWrite) }
    ensures source_path { S.paths source.new ≡ S.paths source.old }
    ensures sink_path { T.paths sink.new ≡ T.paths sink.old }
{
    let mut reader = SlpReader::new();
    let mut room = [0u8; PIECE];
    let mut left = LIMIT;
    while left > 0 {
        let count = match read_some(source, &mut room, left.min(PIECE)) {
            Ok(count) => count,
            Err(SourceFault::Failed) => return DeviceEnd::SourceRead,
            Err(SourceFault::NoMemory) => return DeviceEnd::NoMemory,
        };
        if count == 0 {
            return DeviceEnd::StreamEnded;
        }
        left -= count;
        if let Err(end) = take_piece(talk, &mut reader, &room[..count], sink, out) {
            return end;
        }
    }
    DeviceEnd::TooLong
}

/// Reads at most so many bytes into the front of the room.
fn read_some<S: Source>(source: &mut S, room: &mut [u8], most: usize) -> Result<usize, SourceFault>
    requires some { 0 < most }
    requires room { most ≤ length room.old }
    ensures bound { IfOk result (λ count. count ≤ most) }
    ensures room { IfOk result (λ count. count ≤ length room.new) }
    ensures bytes { IfOk result (λ count. IfSome (S.left source.old) (λ left.
        take count room.new ≡ take count left)) }
    ensures rest { IfOk result (λ count. S.left source.new ≡ option_map (λ left.
        drop count left) (S.left source.old)) }
    ensures end { IfOk result (λ count. IfSome (S.left source.old) (λ left.
        (count ≡ 0) ↔ (left ≡ []))) }
    ensures stays { OnErr result (S.left source.new ≡ S.left source.old) }
    ensures paths { S.paths source.new ≡ S.paths source.old }
    ensures cause { HasCause (S.faults source.old) (S.faults source.new)
        (IsErrOf result SourceFault.Failed) }
{
    source.read(&mut room[..most])
}
