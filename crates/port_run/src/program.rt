// The program where its words ask for a session over a cable.
ghost use Rattle.std.specs.Prelude.{◌≡◌, drop, map, string_bytes};
ghost use Rattle.std.specs.Process.{exit_status};
ghost use Rattle.cmd_status.specs.Codes.{code_of};
ghost use Rattle.cmd_status.specs.Told.{sink_told};
ghost use Rattle.port_run.specs.Systems.{AreUntold, EndsSync, IsSystemSync};
ghost use Rattle.port_run.specs.Told.{sync_told};
ghost use Rattle.run_words.specs.Cables.{begins_sync, sync_of};

use crate::hints::hint_names;
use crate::synced::{CableReport, Synced};
use crate::syncing::sync;
use call_parts::seconds_now;
use cmd_status::Status;
use hs_folders::{DirFolder, FileSink, Folder, Sink, StdoutSink};
use port_line::{Port, TtyPort};
use run_words::is_sync;
use session_parts::DbReport;
use std::alloc::Global;
use std::fs::File;
use std::process::ExitCode;
use std::rt::Files;
use std::time::Clock;

/// Whether the words behind the program's name ask for a session over a cable, and not for help.
pub fn asks_sync(args: &[String]) -> bool
    ensures { result ≡ begins_sync (map string_bytes (drop 1 args.now)) }
{
    is_sync(words_of(args))
}

/// The words behind the program's name.
pub fn words_of(args: &[String]) -> &[String]
    ensures { result.now ≡ drop 1 args.now }
{
    args.get(1..).unwrap_or(&[])
}

/// Has the session over a cable that these words ask for, the program's name first, over a port, a folder, a file and the
/// standard output of the system, with hints on standard error.
pub fn sync_on_system<R: Clock + Files<File = File> + Print + Eprint + AllocGlobal>(
    rt: &R,
    args: &[String],
) -> ExitCode
    ensures { EndsSync (map string_bytes (drop 1 args.now)) (exit_status result) }
{
    let alloc = rt.alloc();
    let now = seconds_now(rt);
    let (code, status, databases) = sync_untold(
        alloc,
        now,
        words_of(args),
        TtyPort::new(rt),
        DirFolder::new(rt, alloc),
        &mut FileSink::new(rt, alloc),
        &mut StdoutSink::new(rt),
    );
    hint_names(rt, now, words_of(args), &status, &databases);
    ExitCode::from(code)
}

// The session over objects that tell nothing: the exit status of the program, the status, and what was done with each
// database.
fn sync_untold<P: Port + Drop, D: Folder + Drop, T: Sink, O: Sink>(
    alloc: Global,
    now: Option<u32>,
    words: &[String],
    port: P,
    desk: D,
    trace: &mut T,
    out: &mut O,
) -> (u8, Status, Vec<DbReport>)
    requires { AreUntold (sync_told P.Port D.Folder T.Sink port desk trace.old)
        (sink_told O.Sink out.old) }
    ensures { IsSystemSync (sync_of now (map string_bytes words.now)) result.0 }
{
    let Synced { status, report, .. } = sync(alloc, now, words, port, desk, trace, out);
    let CableReport { databases, .. } = report;
    (status.code(), status, databases)
}
