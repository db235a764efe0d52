// The program where its words ask for a handheld at a port.
ghost use Rattle.std.specs.Prelude.{◌≡◌, drop, map, string_bytes};
ghost use Rattle.std.specs.Process.{exit_status};
ghost use Rattle.cmd_status.specs.Codes.{code_of};
ghost use Rattle.cmd_status.specs.Told.{sink_told};
ghost use Rattle.port_run.specs.DockSystems.{AreDockUntold, IsSystemDock, asks_dock};
ghost use Rattle.port_run.specs.Told.{dock_told};
ghost use Rattle.run_words.specs.Docks.{docking_of};

use crate::dock_report::Docked;
use crate::docking::serve_port;
use crate::program::words_of;
use hs_folders::{DirFolder, FileSink, Folder, Sink, StdoutSink};
use port_line::{Port, TtyPort};
use run_words::{help_of, is_docking};
use std::alloc::Global;
use std::fs::File;
use std::process::ExitCode;
use std::rt::Files;

/// Whether the words behind the program's name ask for a handheld at a port, and not for help.
pub fn asks_docking(args: &[String]) -> bool
    ensures { result ≡ asks_dock (map string_bytes (drop 1 args.now)) }
{
    let words = words_of(args);
    is_docking(words) && help_of(words).is_none()
}

/// Stands the handheld that these words ask for, the program's name first, at a port of the system, over its folders, files
/// and standard output.
pub fn serve_on_system<R: Files<File = File> + Print + AllocGlobal>(
    rt: &R,
    args: &[String],
) -> ExitCode
    ensures { IsSystemDock (docking_of (map string_bytes (drop 1 args.now)))
        (exit_status result) }
{
    let alloc = rt.alloc();
    let code = serve_untold(
        alloc,
        words_of(args),
        DirFolder::new(rt, alloc),
        TtyPort::new(rt),
        &mut FileSink::new(rt, alloc),
        &mut StdoutSink::new(rt),
    );
    ExitCode::from(code)
}

// The call over objects that tell nothing, and the exit status of the program.
fn serve_untold<H: Folder + Drop, P: Port + Drop, T: Sink, O: Sink>(
    alloc: Global,
    words: &[String],
    device: H,
    port: P,
    trace: &mut T,
    out: &mut O,
) -> u8
    requires { AreDockUntold (dock_told H.Folder P.Port T.Sink device port trace.old)
        (sink_told O.Sink out.old) }
    ensures { IsSystemDock (docking_of (map string_bytes words.now)) result }
{
    let Docked { status, .. } = serve_port(alloc, words, device, port, trace, out);
    status.code()
}
