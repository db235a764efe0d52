// A backup of the handheld at a port: what comes before its session, and what it prints.
ghost use Rattle.std.specs.Prelude.{◌≡◌, ◌≢◌, IfSome, None, codes, map, string_bytes};
ghost use Rattle.cmd_status.specs.Told.{sink_told};
ghost use Rattle.hotsync_looks.specs.JointFaults as faults;
ghost use Rattle.hotsync_looks.specs.Misuses.{TellsFault};
ghost use Rattle.port_laws.specs.Palms.{IsFirstTold};
ghost use Rattle.port_files.specs.Backups.{backup_command};
ghost use Rattle.port_files.specs.Calls.{IsPortCall, MayTalk};
ghost use Rattle.port_files.specs.Talks.{TracesPort};
ghost use Rattle.port_run.specs.Told.{OfSync, OfSyncCall};
ghost use Rattle.run_words.specs.Helps.{command_named as named_by_first};
ghost use Rattle.run_words.specs.Porteds.{ported_of};
ghost use Rattle.run_words.specs.Views.{ported_view};

use crate::backup_talk::backup_talk;
use call_parts::{open_files, open_trace, print_status};
use cmd_status::{Status, print_refusal};
use hotsync_looks::{print_misuse, word_at_fault};
use hs_folders::{Folder, Sink};
use port_line::Port;
use port_run::{Synced, open_port, trace_log};
use run_clap::{WordsFault, read_ported};
use run_words::{PortedWords, command_named};
use std::alloc::Global;

/// Backs the databases of the handheld at a port up into the files of a folder, as the words ask for, and prints what
/// was done.
///
/// `words` are those after the program's name, `backup` first. The port and the folder are handed back with every
/// status.
pub fn backup_at_port<P: Port, D: Folder, T: Sink, O: Sink>(
    alloc: Global,
    words: &[String],
    port: P,
    folder: D,
    trace: &mut T,
    out: &mut O,
) -> Synced<P, D>
    ensures call { OfSyncCall (IsPortCall backup_command
        (ported_of (codes "backup") (map string_bytes words.now)))
        P.Port D.Folder T.Sink O.Sink port folder trace.old out.old
        result trace.new out.new }

    // Words out of the form touch nothing, and the trace is touched only where one is named.
    ensures untraced { IfSome (ported_of (codes "backup") (map string_bytes words.now)) (λ ported.
        ported.trace ≡ None → trace.new ≡ trace.old) }
    ensures untouched { ported_of (codes "backup") (map string_bytes words.now) ≡ None
        → (result.port ≡ port) × (result.desk ≡ folder) × (trace.new ≡ trace.old) }

    // Where the words ask for nothing, the status names the word at fault.
    ensures fault { ported_of (codes "backup") (map string_bytes words.now) ≡ None
        → TellsFault (named_by_first (map string_bytes words.now))
        (faults.word_at_fault None (map string_bytes words.now)) result.status }
{
    let words = match read_ported(alloc, "backup", words) {
        Ok(words) => words,
        Err(WordsFault::Usage) => {
            let status = print_misuse(alloc, command_named(words), word_at_fault(None, words), out);
            return Synced::not_started(alloc, status, port, folder);
        }
        Err(WordsFault::NoMemory) => {
            let status = print_refusal(alloc, Status::NoMemory, out);
            return Synced::not_started(alloc, status, port, folder);
        }
    };
    let synced = judged_backup(alloc, &words, port, folder, trace);
    let Synced {
        status,
        report,
        port,
        desk,
    } = synced;
    let status = print_status(alloc, status, &report.databases, out);
    Synced {
        status,
        report,
        port,
        desk,
    }
}

// Opens the port, judges the folder for the files, opens the trace, in this order, and backs up.
fn judged_backup<P: Port, D: Folder, T: Sink>(
    alloc: Global,
    words: &PortedWords<'_>,
    port: P,
    folder: D,
    trace: &mut T,
) -> Synced<P, D>
    ensures ran { OfSync (MayTalk (backup_command (ported_view words.now)))
        P.Port D.Folder T.Sink port folder trace.old result trace.new }
    ensures unprinted { result.status ≢ Status.OutWrite }
    ensures untraced { words.now.trace ≡ None → trace.new ≡ trace.old }
{
    let port = match open_port(port, words.port) {
        Ok(port) => port,
        Err((refusal, port)) => return Synced::not_started(alloc, refusal, port, folder),
    };
    let folder = match open_files(alloc, folder, words.other) {
        Ok(folder) => folder,
        Err((refusal, folder)) => return Synced::not_started(alloc, refusal, port, folder),
    };
    match open_trace(trace, words.trace) {
        Ok(()) => traced_backup(alloc, words, port, folder, trace),
        Err(refusal) => Synced::not_started(alloc, refusal, port, folder),
    }
}

// Backs up, and writes the trace of the session.
fn traced_backup<P: Port, D: Folder, T: Sink>(
    alloc: Global,
    words: &PortedWords<'_>,
    port: P,
    folder: D,
    trace: &mut T,
) -> Synced<P, D>
    requires { IsFirstTold (P.palm port) }
    ensures talked { OfSync (TracesPort (backup_command (ported_view words.now)))
        P.Port D.Folder T.Sink port folder trace.old result trace.new }
    ensures unprinted { result.status ≢ Status.OutWrite }
    ensures untraced { words.now.trace ≡ None → trace.new ≡ trace.old }
{
    let synced = backup_talk(alloc, port, folder);
    let Synced {
        status,
        report,
        port,
        desk,
    } = synced;
    let status = trace_log(alloc, words.trace, "D", "H", status, &report.log, trace);
    Synced {
        status,
        report,
        port,
        desk,
    }
}
