// A handheld at a port: what comes before its talk, the talk, and what it prints.
ghost use Rattle.std.specs.Prelude.{◌≡◌, ◌≢◌, IfSome, None, length, map, string_bytes, true};
ghost use Rattle.handheld_files.specs.Openings.{Stands, opened_device};
ghost use Rattle.cmd_status.specs.Printed.{IsPrinted, IsPrintedStatus};
ghost use Rattle.hotsync_looks.specs.DockingFaults as faults;
ghost use Rattle.hotsync_looks.specs.Misuses.{TellsFault};
ghost use Rattle.hotsync_looks.specs.Served.{served_lines};
ghost use Rattle.cmd_status.specs.Told.{sink_told};
ghost use Rattle.port_run.specs.DockTalks.{HasDockTalk};
ghost use Rattle.port_run.specs.Docks.{HasDocked, IsDockCall, dock_status};
ghost use Rattle.port_run.specs.Told.{OfDock, OfDockCall};
ghost use Rattle.run_words.specs.Docks.{docking_of};
ghost use Rattle.run_words.specs.Helps.{command_named as named_by_first};
ghost use Rattle.run_words.specs.Views.{dock_view};

use crate::dock_report::{DockReport, Docked};
use crate::opening::open_port;
use crate::tracing::trace_log;
use call_parts::{open_handheld, open_trace};
use cmd_status::{Status, print_refusal};
use device_stream::DeviceReport;
use dlp_args::MessageText;
use handheld_server::Server;
use handheld_store::Store;
use hotsync_looks::{docking_fault, print_misuse, print_served};
use hs_folders::{Folder, Sink};
use port_line::Port;
use port_link::{AtPort, PortEnd, serve_at_port};
use run_clap::{WordsFault, read_docking};
use run_words::{DockWords, command_named};
use std::alloc::Global;
use trace_text::End;

/// Stands the handheld of a folder at a port, as the words ask for, and prints how many requests it served.
///
/// `words` are those after the program's name, `device` first. The port and the handheld's folder are handed back with every
/// status.
pub fn serve_port<H: Folder, P: Port, T: Sink, O: Sink>(
    alloc: Global,
    words: &[String],
    device: H,
    port: P,
    trace: &mut T,
    out: &mut O,
) -> Docked<H, P>
    ensures call { OfDockCall (IsDockCall (docking_of (map string_bytes words.now)))
        H.Folder P.Port T.Sink O.Sink device port trace.old out.old
        result trace.new out.new }

    // Words out of the form touch nothing, and the trace is touched only where one is named.
    ensures untraced { IfSome (docking_of (map string_bytes words.now)) (λ dock.
        dock.trace ≡ None → trace.new ≡ trace.old) }
    ensures untouched { docking_of (map string_bytes words.now) ≡ None
        → (result.device ≡ device) × (result.port ≡ port) × (trace.new ≡ trace.old) }

    // Where the words ask for nothing, the status names the word at fault.
    ensures fault { docking_of (map string_bytes words.now) ≡ None
        → TellsFault (named_by_first (map string_bytes words.now))
        (faults.docking_fault (map string_bytes words.now)) result.status }
{
    let dock = match read_docking(alloc, words) {
        Ok(dock) => dock,
        Err(WordsFault::Usage) => {
            let status = print_misuse(alloc, command_named(words), docking_fault(words), out);
            return Docked::not_started(alloc, status, device, port);
        }
        Err(WordsFault::NoMemory) => {
            let status = print_refusal(alloc, Status::NoMemory, out);
            return Docked::not_started(alloc, status, device, port);
        }
    };
    let docked = judged_dock(alloc, &dock, device, port, trace);
    let Docked {
        status,
        report,
        device,
        port,
    } = docked;
    let status = print_dock(alloc, status, &report.performed, out);
    Docked {
        status,
        report,
        device,
        port,
    }
}

// Prints how many requests were served by a talk that ended, or the line of a refusal.
fn print_dock<O: Sink>(
    alloc: Global,
    status: Status,
    performed: &[MessageText],
    out: &mut O,
) -> Status
    requires { status ≢ Status.OutWrite }
    ensures status { IsPrintedStatus status result }
    ensures printed { IsPrinted (λ text. text ≡ served_lines (length performed.now))
        (sink_told O.Sink out.old) (sink_told O.Sink out.new) result }
{
    match status {
        Status::Done => print_served(alloc, performed.len(), out),
        refusal => print_refusal(alloc, refusal, out),
    }
}

// Judges the handheld's folder, opens the port and the trace, in this order, and has the talk.
fn judged_dock<H: Folder, P: Port, T: Sink>(
    alloc: Global,
    dock: &DockWords<'_>,
    device: H,
    port: P,
    trace: &mut T,
) -> Docked<H, P>
    ensures ran { OfDock (HasDocked (dock_view dock.now))
        H.Folder P.Port T.Sink device port trace.old result trace.new }
    ensures unprinted { result.status ≢ Status.OutWrite }
    ensures untraced { dock.now.trace ≡ None → trace.new ≡ trace.old }
{
    let store = match open_handheld(alloc, device, dock.handheld) {
        Ok(store) => store,
        Err((refusal, device)) => return Docked::not_started(alloc, refusal, device, port),
    };
    let port = match open_port(port, dock.port) {
        Ok(port) => port,
        Err((refusal, port)) => {
            return Docked::not_started(alloc, refusal, store.into_folder(), port)
        }
    };
    match open_trace(trace, dock.trace) {
        Ok(()) => traced_dock(alloc, dock, store, port, trace),
        Err(refusal) => Docked::not_started(alloc, refusal, store.into_folder(), port),
    }
}

// Has the talk, and writes its trace.
fn traced_dock<H: Folder, P: Port, T: Sink>(
    alloc: Global,
    dock: &DockWords<'_>,
    store: Store<H>,
    port: P,
    trace: &mut T,
) -> Docked<H, P>
    requires sound { store.sound ≡ true }
    requires stands { Stands (H.contents store.folder) store.databases store.user }
    ensures talked { OfDock (HasDockTalk (dock_view dock.now)
        (opened_device store.databases store.user))
        H.Folder P.Port T.Sink store.folder port trace.old result trace.new }
    ensures unprinted { result.status ≢ Status.OutWrite }
    ensures untraced { dock.now.trace ≡ None → trace.new ≡ trace.old }
{
    let left = serve_at_port(alloc, Server::new(store), port);
    let AtPort {
        end,
        report,
        log,
        folder,
        port,
    } = left;
    let DeviceReport { performed, replies } = report;
    let status = trace_log(alloc, dock.trace, "H", "D", status_of(end), &log, trace);
    Docked {
        status,
        report: DockReport {
            performed,
            replies,
            log,
        },
        device: folder,
        port,
    }
}

// The status of a talk that ended so.
fn status_of(end: PortEnd) -> Status
    ensures { result ≡ dock_status end }
{
    match end {
        PortEnd::Ended => Status::Done,
        PortEnd::PortFailed => Status::PortFailed,
        PortEnd::Keeper => Status::HandheldFolder,
        PortEnd::LineDown => Status::LineDown(End::Handheld),
        PortEnd::LineSilent => Status::LineSilent,
        PortEnd::Aborted => Status::StreamAborted,
        PortEnd::BadHello => Status::BadHello,
        PortEnd::TooLong => Status::LineEndless,
        PortEnd::NoMemory => Status::NoMemory,
    }
}
