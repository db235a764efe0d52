// A session over a cable: what comes before it, and what it prints.
ghost use Rattle.std.specs.Prelude.{◌≡◌, ◌≢◌, ◌≤◌, IfSome, None, is_some, map, string_bytes};
ghost use Rattle.desk_store.specs.Bounds.{AreBounded};
ghost use Rattle.desk_store.specs.Shelves.{AreInOrder};
ghost use Rattle.cmd_status.specs.Printed.{IsPrinted, IsPrintedStatus};
ghost use Rattle.cmd_status.specs.Told.{sink_told};
ghost use Rattle.hotsync_looks.specs.JointFaults as faults;
ghost use Rattle.hotsync_looks.specs.Misuses.{TellsFault};
ghost use Rattle.port_laws.specs.Palms.{IsFirstTold};
ghost use Rattle.port_run.specs.Syncs.{HasSynced, IsSyncCall, TracesTalk, synced_lines};
ghost use Rattle.port_run.specs.Told.{OfSync, OfSyncCall};
ghost use Rattle.run_words.specs.Cables.{only_of, sync_of};
ghost use Rattle.run_words.specs.Helps.{command_named as named_by_first};
ghost use Rattle.run_words.specs.Views.{cable_view};

use crate::opening::open_port;
use crate::synced::Synced;
use crate::talk::talk;
use crate::tracing::trace_log;
use call_parts::{open_desktop, open_trace, print_status, print_touched};
use cmd_status::{Status, print_refusal};
use desk_store::Desk;
use hotsync_looks::{print_misuse, word_at_fault};
use hs_folders::{Folder, Sink};
use port_line::Port;
use run_clap::{WordsFault, read_sync};
use run_words::{CableWords, command_named};
use session_parts::DbReport;
use std::alloc::Global;

/// Has the session over a cable that the words ask for, and prints the lines of its status on `out`. Where the words leave all
/// databases alone but some, one line tells how many others there are.
///
/// `now` are the seconds of the date now, if it can be told, and `words` those after the program's name, `sync` first, or `run`
/// with a port among the others. The port and the desktop's folder are handed back with every status.
pub fn sync<P: Port, D: Folder, T: Sink, O: Sink>(
    alloc: Global,
    now: Option<u32>,
    words: &[String],
    port: P,
    desk: D,
    trace: &mut T,
    out: &mut O,
) -> Synced<P, D>
    ensures call { OfSyncCall (IsSyncCall (sync_of now (map string_bytes words.now)))
        P.Port D.Folder T.Sink O.Sink port desk trace.old out.old
        result trace.new out.new }

    // Words out of the form touch nothing, and the trace is touched only where one is named.
    ensures untraced { IfSome (sync_of now (map string_bytes words.now)) (λ cable.
        cable.trace ≡ None → trace.new ≡ trace.old) }
    ensures untouched { sync_of now (map string_bytes words.now) ≡ None
        → (result.port ≡ port) × (result.desk ≡ desk) × (trace.new ≡ trace.old) }

    // Where the words ask for nothing, the status names the word at fault.
    ensures fault { sync_of now (map string_bytes words.now) ≡ None
        → TellsFault (named_by_first (map string_bytes words.now))
        (faults.word_at_fault now (map string_bytes words.now)) result.status }
{
    let cable = match read_sync(alloc, now, words) {
        Ok(cable) => cable,
        Err(WordsFault::Usage) => {
            let status = print_misuse(alloc, command_named(words), word_at_fault(now, words), out);
            return Synced::not_started(alloc, status, port, desk);
        }
        Err(WordsFault::NoMemory) => {
            let status = print_refusal(alloc, Status::NoMemory, out);
            return Synced::not_started(alloc, status, port, desk);
        }
    };
    let synced = judged(alloc, &cable, port, desk, trace);
    let Synced {
        status,
        report,
        port,
        desk,
    } = synced;
    let status = print_synced(alloc, &cable, status, &report.databases, out);
    Synced {
        status,
        report,
        port,
        desk,
    }
}

// Prints the lines of a status.
#[tactic(auto, using(crate::proofs::PrintedLaws::printed_some, crate::proofs::PrintedLaws::printed_all))]
fn print_synced<O: Sink>(
    alloc: Global,
    words: &CableWords<'_>,
    status: Status,
    databases: &[DbReport],
    out: &mut O,
) -> Status
    requires { status ≢ Status.OutWrite }
    ensures status { IsPrintedStatus status result }
    ensures printed { IsPrinted (λ text. text ≡ synced_lines (cable_view words.now) databases.now)
        (sink_told O.Sink out.old) (sink_told O.Sink out.new) result }
    ensures count { O.faults out.old ≤ O.faults out.new }
{
    if names_some(words) {
        return print_touched(alloc, status, databases, out);
    }
    print_status(alloc, status, databases, out)
}

// Whether the words leave all databases alone but some.
fn names_some(words: &CableWords<'_>) -> bool
    ensures { result ≡ is_some (only_of (cable_view words.now)) }
{
    words.only.is_some() || words.actions.is_none()
}

// Opens the port, judges the desktop's folder, opens the trace, in this order, and has the session.
fn judged<P: Port, D: Folder, T: Sink>(
    alloc: Global,
    words: &CableWords<'_>,
    port: P,
    desk: D,
    trace: &mut T,
) -> Synced<P, D>
    ensures ran { OfSync (HasSynced (cable_view words.now))
        P.Port D.Folder T.Sink port desk trace.old result trace.new }
    ensures unprinted { result.status ≢ Status.OutWrite }
    ensures untraced { words.now.trace ≡ None → trace.new ≡ trace.old }
{
    let port = match open_port(port, words.port) {
        Ok(port) => port,
        Err((refusal, port)) => return Synced::not_started(alloc, refusal, port, desk),
    };
    let desk = match open_desktop(alloc, desk, words.desktop) {
        Ok(desk) => desk,
        Err((refusal, desk)) => return Synced::not_started(alloc, refusal, port, desk),
    };
    match open_trace(trace, words.trace) {
        Ok(()) => traced_talk(alloc, words, port, desk, trace),
        Err(refusal) => Synced::not_started(alloc, refusal, port, desk.into_folder()),
    }
}

// Has the session, and writes its trace.
fn traced_talk<P: Port, D: Folder, T: Sink>(
    alloc: Global,
    words: &CableWords<'_>,
    port: P,
    desk: Desk<D>,
    trace: &mut T,
) -> Synced<P, D>
    requires first { IsFirstTold (P.palm port) }
    requires ordered { AreInOrder desk.slots }
    requires bounded { AreBounded desk.slots }
    ensures talked { OfSync (TracesTalk (cable_view words.now) desk.slots)
        P.Port D.Folder T.Sink port desk.folder trace.old result trace.new }
    ensures unprinted { result.status ≢ Status.OutWrite }
    ensures untraced { words.now.trace ≡ None → trace.new ≡ trace.old }
{
    let synced = talk(alloc, words, port, desk);
    let Synced {
        status,
        report,
        port,
        desk,
    } = synced;
    let status = trace_log(alloc, words.trace, "D", "H", status, &report.log, trace);
    Synced {
        status,
        report,
        port,
        desk,
    }
}
