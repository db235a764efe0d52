// The program where its words ask for a backup of the handheld at a port.
ghost use Rattle.std.specs.Prelude.{◌≡◌, codes, drop, map, string_bytes};
ghost use Rattle.std.specs.Process.{exit_status};
ghost use Rattle.cmd_status.specs.Codes.{code_of};
ghost use Rattle.cmd_status.specs.Told.{sink_told};
ghost use Rattle.port_files.specs.Systems.{IsSystemBackup, asks_ported as words_ask_ported};
ghost use Rattle.port_run.specs.Systems.{AreUntold};
ghost use Rattle.port_run.specs.Told.{sync_told};
ghost use Rattle.run_words.specs.Porteds.{ported_of};

use crate::backup::backup_at_port;
use cmd_files::MadeFolder;
use hs_folders::{DirFolder, FileSink, Folder, Sink, StdoutSink};
use port_line::{Port, TtyPort};
use port_run::{Synced, words_of};
use run_words::{help_of, names_port};
use std::alloc::Global;
use std::fs::File;
use std::process::ExitCode;
use std::rt::Files;

/// Whether the words behind the program's name ask for a backup of the handheld at a port, and not for help.
pub fn asks_ported(args: &[String]) -> bool
    ensures { result ≡ words_ask_ported (map string_bytes (drop 1 args.now)) }
{
    let words = words_of(args);
    names_port(words, "backup") && help_of(words).is_none()
}

/// Backs up the handheld that these words ask for, the program's name first, over a port, a folder, a file and the
/// standard output of the system. The folder is made where it isn't there.
pub fn backup_on_system<R: Files<File = File> + Print + AllocGlobal>(
    rt: &R,
    args: &[String],
) -> ExitCode
    ensures { IsSystemBackup (ported_of (codes "backup") (map string_bytes (drop 1 args.now)))
        (exit_status result) }
{
    let alloc = rt.alloc();
    let code = backup_untold(
        alloc,
        words_of(args),
        TtyPort::new(rt),
        MadeFolder::new(rt, DirFolder::new(rt, alloc), true),
        &mut FileSink::new(rt, alloc),
        &mut StdoutSink::new(rt),
    );
    ExitCode::from(code)
}

// The call over objects that tell nothing, and the exit status of the program.
fn backup_untold<P: Port + Drop, D: Folder + Drop, T: Sink, O: Sink>(
    alloc: Global,
    words: &[String],
    port: P,
    folder: D,
    trace: &mut T,
    out: &mut O,
) -> u8
    requires { AreUntold (sync_told P.Port D.Folder T.Sink port folder trace.old)
        (sink_told O.Sink out.old) }
    ensures { IsSystemBackup (ported_of (codes "backup") (map string_bytes words.now)) result }
{
    let Synced { status, .. } = backup_at_port(alloc, words, port, folder, trace, out);
    status.code()
}
